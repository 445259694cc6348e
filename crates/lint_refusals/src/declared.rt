//! The names that a text declares.

ghost use Rattle.std.specs.Prelude.{◌≡◌, map, option_map, false, string_bytes, IfOk};
ghost use Rattle.std.specs.List.{list_any};
ghost use Rattle.std.specs.Str.{bytes_eq};
ghost use Rattle.lexer.specs.Cutting.{cut_of};
ghost use Rattle.lint_refusals.specs.Alone.{names_after, declared_in};

use lexer::{LexFault, Token, lex};
use std::alloc::{AllocError, Global};

/// The names that tokens declare: what stands after `sequence` and `counter`.
fn names_in(alloc: Global, tokens: &[Token]) -> Result<Vec<String>, AllocError>
    ensures { IfOk result (λ ns.
        map string_bytes ns.items ≡ names_after false (map cut_of tokens.now)) }
{
    let mut names = Vec::new(alloc);
    let mut declares = false;
    for token in tokens {
        if declares {
            names.push(String::from_str(alloc, token.text)?)?;
        }
        declares = token.text == "sequence" || token.text == "counter";
    }
    Ok(names)
}

/// The names that a text declares; none where it has no tokens.
pub(crate) fn declared_in(alloc: Global, text: &str) -> Result<Option<Vec<String>>, AllocError>
    ensures { IfOk result (λ o.
        option_map (λ ns. map string_bytes ns.items) o ≡ declared_in text.now) }
{
    match lex(alloc, text) {
        Ok(tokens) => Ok(Some(names_in(alloc, tokens.as_slice())?)),
        Err(LexFault::Memory) => Err(AllocError),
        Err(_) => Ok(None),
    }
}

/// Whether a word is one of some names.
fn is_among(names: &[String], word: &str) -> bool
    ensures { result ≡ list_any (bytes_eq word.now) (map string_bytes names.now) }
{
    for name in names {
        if word == name.as_str() {
            return true;
        }
    }
    false
}

/// Whether one of some names stands among tokens.
pub(crate) fn has_name(names: &[String], tokens: &[Token]) -> bool
    ensures { result
        ≡ list_any (λ t. list_any (bytes_eq t.text.now) (map string_bytes names.now)) tokens.now }
{
    for token in tokens {
        if is_among(names, token.text) {
            return true;
        }
    }
    false
}
