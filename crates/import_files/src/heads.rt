//! What assertions are called.

use import_tokens::{Kind, Symbol, Token};
use import_trees::plain_name;
use std::alloc::{AllocError, Global};

/// The label before the word that begins an assertion, if there is one.
pub(crate) fn label_before<'t>(tokens: &[Token<'t>], word: usize) -> Option<Token<'t>> {
    let mark = tokens.get(word.checked_sub(1)?)?;
    let name = tokens.get(word.checked_sub(2)?)?;
    match (mark.kind, name.kind) {
        (Kind::Symbol(Symbol::Colon), Kind::Word | Kind::Escaped) => Some(*name),
        _ => None,
    }
}

/// The byte of a token.
pub(crate) fn byte_of(tokens: &[Token<'_>], word: usize) -> usize {
    match tokens.get(word) {
        Some(token) => token.at,
        None => 0,
    }
}

/// What an assertion is called: its label, or `assert_N` where it has none and is the Nth one.
pub(crate) fn called(
    alloc: Global,
    label: Option<Token<'_>>,
    number: usize,
) -> Result<String, AllocError> {
    if let Some(label) = label {
        if let Ok(text) = str::from_utf8(plain_name(label.text)) {
            return String::from_str(alloc, text);
        }
    }
    format!(in alloc; "assert_{number}")
}
