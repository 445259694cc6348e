//! Whether no assertion is lost.

ghost use Rattle.std.specs.Prelude.{◌≡◌, IfOk, true};
ghost use Rattle.std.specs.Bool.{OnTrue};
ghost use Rattle.import_unrolling.specs.Unrolled.{word_bytes, is_loop, has_loop, is_among, Unrolls};

use import_scopes::begins_assertion;
use import_tokens::{Keyword, Kind, Token};
use std::alloc::{AllocError, Global};

/// The bytes of the words that begin assertions, in order.
fn bytes_of(alloc: Global, tokens: &[Token]) -> Result<Vec<usize>, AllocError>
    ensures { IfOk result (λ bytes. bytes.items ≡ word_bytes tokens.now) }
{
    let mut bytes = Vec::new(alloc);
    for token in tokens {
        if !begins_assertion(token.kind) {
            continue;
        }
        bytes.push(token.at)?;
    }
    Ok(bytes)
}

/// Whether a token is `for`.
fn is_loop(kind: Kind) -> bool
    ensures { result ≡ is_loop kind }
{
    match kind {
        Kind::Keyword(Keyword::For) => true,
        _ => false,
    }
}

/// Whether `for` stands among tokens.
fn has_loop(tokens: &[Token]) -> bool
    ensures { result ≡ has_loop tokens.now }
{
    for token in tokens {
        if is_loop(token.kind) {
            return true;
        }
    }
    false
}

/// Whether one list is among another, in order.
fn is_among(some: &[usize], all: &[usize]) -> bool
    ensures { OnTrue result (is_among some.now all.now ≡ true) }
{
    let mut next = 0;
    for byte in all {
        if next >= some.len() {
            return true;
        }
        if some[next] != *byte {
            continue;
        }
        next += 1;
    }
    if next >= some.len() {
        return true;
    }
    false
}

/// Whether no word that begins an assertion is lost, and none is there twice but by a loop.
fn keeps(alloc: Global, tokens: &[Token], unrolled: &[Token]) -> Result<bool, AllocError>
    ensures { IfOk result (λ kept. OnTrue kept (Unrolls tokens.now unrolled.now)) }
{
    let before = bytes_of(alloc, tokens)?;
    let after = bytes_of(alloc, unrolled)?;
    if !is_among(before.as_slice(), after.as_slice()) {
        return Ok(false);
    }
    if has_loop(tokens) {
        return Ok(true);
    }
    Ok(before.as_slice() == after.as_slice())
}

/// What was written for tokens, if it keeps all words; else the tokens.
pub(crate) fn kept<'t>(
    alloc: Global,
    tokens: Vec<Token<'t>>,
    unrolled: Vec<Token<'t>>,
) -> Result<Vec<Token<'t>>, AllocError>
    ensures { IfOk result (λ all. Unrolls tokens.entry.items all.items) }
{
    if keeps(alloc, tokens.as_slice(), unrolled.as_slice())? {
        return Ok(unrolled);
    }
    Ok(tokens)
}
