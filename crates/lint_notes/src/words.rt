//! Names, selects and brackets among tokens.

ghost use Rattle.std.specs.Prelude.{◌≡◌, ◌≤◌, map, option_map, drop, length, string_bytes};
ghost use Rattle.std.specs.List.{prefix_len};
ghost use Rattle.lint_notes.specs.Words.{is, is_word_kind, is_path_byte, path_at, begins_name};
ghost use Rattle.lint_notes.specs.Words.{path_tokens, after_name, number_value, closing};

use lexer::{Kind, Token};

/// Whether a token is this text.
pub(crate) fn is(token: &Token, text: &str) -> bool
    ensures { result ≡ is text.now token.now }
{
    token.text == text
}

fn is_path_byte(byte: u8) -> bool
    ensures { result ≡ is_path_byte byte }
{
    byte.is_ascii_alphanumeric() || byte == b'_' || byte == b'$' || byte == b'.'
}

/// The bytes from one on.
fn from(bytes: &[u8], at: usize) -> &[u8]
    ensures { result.now ≡ drop at bytes.now }
{
    &bytes[at.min(bytes.len())..]
}

/// How many bytes of a path stand first.
fn path_length(bytes: &[u8]) -> usize
    ensures count { result ≡ prefix_len is_path_byte bytes.now }
    ensures high { result ≤ length bytes.now }
{
    for (place, byte) in bytes.iter().enumerate() {
        if !is_path_byte(*byte) {
            return place;
        }
    }
    bytes.len()
}

/// The path that begins at a byte.
pub(crate) fn path_at(text: &[u8], at: usize) -> &[u8]
    ensures { result.now ≡ path_at text.now at }
{
    let left = from(text, at);
    &left[..path_length(left)]
}

fn is_word_kind(kind: Kind) -> bool
    ensures { result ≡ is_word_kind kind }
{
    matches!(kind, Kind::Word)
}

/// Whether a name begins with a token.
pub(crate) fn begins_name(text: &[u8], token: &Token) -> bool
    ensures { result ≡ begins_name text.now token.now }
{
    if !is_word_kind(token.kind) {
        return false;
    }
    if token.at < 1 {
        return true;
    }
    text.get(token.at - 1).copied().unwrap_or(0) != b'.'
}

/// How many tokens a path has.
fn path_tokens(path: &[u8]) -> usize
    ensures { result ≡ path_tokens path.now }
{
    let dots = path.iter().filter(|byte| **byte == b'.').count();
    dots.saturating_mul(2).saturating_add(1)
}

/// The tokens after the name with which these begin.
pub(crate) fn after_name<'t, 'a>(text: &[u8], tokens: &'t [Token<'a>]) -> &'t [Token<'a>]
    ensures { result.now ≡ after_name text.now tokens.now }
{
    match tokens {
        [] => tokens,
        [first, ..] => {
            let count = path_tokens(path_at(text, first.at));
            &tokens[count.min(tokens.len())..]
        }
    }
}

/// The value of a number.
pub(crate) fn number_value(token: &Token) -> Option<u128>
    ensures { result ≡ number_value token.now }
{
    match token.kind {
        Kind::Number(number) => Some(number.value),
        _ => None,
    }
}

/// How many tokens there are up to the bracket that closes the first one.
pub(crate) fn closing(tokens: &[Token]) -> usize
    ensures count { result ≡ closing 0 tokens.now }
    ensures high { result ≤ length tokens.now }
{
    let mut deep = 0usize;
    for (place, token) in tokens.iter().enumerate() {
        if is(token, "(") {
            deep += 1;
            continue;
        }
        if !is(token, ")") {
            continue;
        }
        if deep <= 1 {
            return place + 1;
        }
        deep -= 1;
    }
    tokens.len()
}
