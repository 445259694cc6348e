//! The words that begin assertions.

ghost use Rattle.std.specs.Prelude.{◌≡◌, ◌<◌, length, drop, IfOk};
ghost use Rattle.import_scopes.specs.Words.{begins_assertion, is_misspelt, is_begun, word_places};

use import_tokens::{Keyword, Kind, Symbol, Token};
use std::alloc::{AllocError, Global};

/// Whether a token begins an assertion (IEEE 1800-2017, 16.3 and 16.14).
pub fn begins_assertion(kind: Kind) -> bool
    ensures { result ≡ begins_assertion kind }
{
    match kind {
        Kind::Keyword(Keyword::Assert | Keyword::Assume) => true,
        Kind::Keyword(Keyword::Restrict | Keyword::Cover) => true,
        _ => false,
    }
}

/// Whether tokens begin with a word before `property (`, as a misspelt `assert` stands: no item of
/// the language begins so.
pub(crate) fn is_misspelt(tokens: &[Token]) -> bool
    ensures { result ≡ is_misspelt tokens.now }
{
    if tokens.len() < 3 {
        return false;
    }
    tokens[0].kind == Kind::Word
        && tokens[1].kind == Kind::Keyword(Keyword::Property)
        && tokens[2].kind == Kind::Symbol(Symbol::OpenRound)
}

/// Whether the token at a place begins an assertion, or is a misspelt word that should.
pub(crate) fn is_begun(tokens: &[Token], place: usize) -> bool
    requires { place < length tokens.now }
    ensures { result ≡ is_begun (drop place tokens.now) }
{
    begins_assertion(tokens[place].kind) || is_misspelt(&tokens[place..])
}

/// The places of the tokens that begin assertions, in order.
pub(crate) fn words_of(alloc: Global, tokens: &[Token]) -> Result<Vec<usize>, AllocError>
    ensures { IfOk result (λ words. words.items ≡ word_places 0 tokens.now) }
{
    let mut words = Vec::new(alloc);
    for place in 0..tokens.len() {
        if !is_begun(tokens, place) {
            continue;
        }
        words.push(place)?;
    }
    Ok(words)
}
