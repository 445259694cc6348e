//! Texts without what no token begins with.

ghost use Rattle.std.specs.Prelude.{◌<◌, ◌≤◌, length};

use crate::blank::push_blanks;
use crate::items::ends_in;
use lexer::{LexFault, lex};
use std::alloc::{AllocError, Global};

/// The byte at which a text has its first fault of tokens, if it has one.
fn fault_of(alloc: Global, text: &str) -> Result<Option<usize>, AllocError> {
    match lex(alloc, text) {
        Ok(_) => Ok(None),
        Err(LexFault::BadCharacter(at)) => Ok(Some(at)),
        Err(LexFault::BadNumber(at)) => Ok(Some(at)),
        Err(LexFault::UnclosedComment(at)) => Ok(Some(at)),
        Err(LexFault::Memory) => Err(AllocError),
    }
}

/// Whether a byte goes on with a number that has no value.
fn is_number_part(byte: u8) -> bool {
    byte.is_ascii_alphanumeric() || byte == b'_' || byte == b'\'' || byte == b'?'
}

/// The byte after the string that begins there, or else the end of its line.
fn string_end(bytes: &[u8], start: usize) -> usize
    requires { start < length bytes.now }
    ensures { result ≤ length bytes.now }
{
    for at in start + 1..bytes.len() {
        if bytes[at] == b'"' {
            return at + 1;
        }
        if bytes[at] == b'\n' {
            return at;
        }
    }
    bytes.len()
}

/// The byte after the name that begins there with a backslash.
fn escaped_end(bytes: &[u8], start: usize) -> usize
    requires { start < length bytes.now }
    ensures { result ≤ length bytes.now }
{
    for at in start + 1..bytes.len() {
        if bytes[at].is_ascii_whitespace() {
            return at;
        }
    }
    bytes.len()
}

/// The byte after the number without a value that begins there.
fn number_end(bytes: &[u8], start: usize) -> usize
    requires { start < length bytes.now }
    ensures { result ≤ length bytes.now }
{
    for at in start + 1..bytes.len() {
        if !is_number_part(bytes[at]) {
            return at;
        }
    }
    bytes.len()
}

/// The byte after what is no token: a string, an escaped name, a number without a value, a comment
/// without an end, or one character.
fn stray_end(text: &str, start: usize) -> usize {
    let bytes = text.as_bytes();
    if start >= bytes.len() {
        return bytes.len();
    }
    match bytes[start] {
        b'"' => string_end(bytes, start),
        b'\\' => escaped_end(bytes, start),
        b'/' => bytes.len(),
        b'0'..=b'9' | b'\'' => number_end(bytes, start),
        _ => text.ceil_char_boundary(start + 1),
    }
}

/// Whether a line feed before which these bytes stand ends no line of a macro: a backslash stands
/// last, maybe with a carriage return.
fn is_continued(bytes: &[u8]) -> bool {
    match bytes {
        [.., b'\\'] => true,
        [.., b'\\', b'\r'] => true,
        _ => false,
    }
}

/// The end of the line of a macro that begins there, with the lines that go on with it.
fn macro_end(bytes: &[u8], start: usize) -> usize {
    for at in start..bytes.len() {
        if bytes[at] == b'\n' && !is_continued(&bytes[..at]) {
            return at;
        }
    }
    bytes.len()
}

/// The front of a text that has tokens, where the lines of macros end that were blanked in it, and
/// where its last item begins.
#[derive(Drop)]
struct Left {
    text: String,
    lines: Vec<usize>,
    item: usize,
}

/// Whether no item is open at the end of a front.
fn is_between(alloc: Global, left: &mut Left) -> Result<bool, AllocError> {
    let rest = left.text.as_str().get(left.item..).unwrap_or("");
    let ends = match lex(alloc, rest) {
        Ok(tokens) => ends_in(alloc, rest.len(), tokens.as_slice())?,
        Err(LexFault::Memory) => return Err(AllocError),
        Err(_) => return Ok(false),
    };
    let is_open = ends.last() == Some(&rest.len());
    if let [.., before, _] = ends.as_slice() {
        left.item = left.item.saturating_add(*before);
    }
    Ok(!is_open)
}

/// The byte after what is blanked at a byte: the line of a macro that stands between items, or what
/// is no token.
fn blank_end(alloc: Global, left: &mut Left, text: &str, at: usize) -> Result<usize, AllocError> {
    if text.as_bytes().get(at) != Some(&b'`') || !is_between(alloc, left)? {
        return Ok(stray_end(text, at));
    }
    let end = macro_end(text.as_bytes(), at);
    left.lines.push(end)?;
    Ok(end)
}

/// The text with blanks for all that is no token, so that it has tokens, each where it stood. Where
/// a macro stands between items, that is all of its line.
///
/// After a blank the tokens go on as at a text's front, so each byte is read once.
fn lexable(alloc: Global, text: &str) -> Result<Left, AllocError> {
    let mut left = Left {
        text: String::new(alloc),
        lines: Vec::new(alloc),
        item: 0,
    };
    for _round in 0..text.len() {
        let from = left.text.len();
        let rest = text.get(from..).unwrap_or("");
        let Some(length) = fault_of(alloc, rest)? else {
            left.text.push_str(rest)?;
            break;
        };
        left.text.push_str(rest.get(..length).unwrap_or(""))?;
        let at = from.saturating_add(length);
        let end = blank_end(alloc, &mut left, text, at)?;
        push_blanks(&mut left.text, text.as_bytes().get(at..end).unwrap_or(&[]))?;
    }
    Ok(left)
}

/// The bytes after the items of a text that has no tokens, as far as it can be cut.
pub(crate) fn ends_beside(alloc: Global, text: &str) -> Result<Vec<usize>, AllocError> {
    let Left { text, lines, .. } = lexable(alloc, text)?;
    let mut ends = match lex(alloc, text.as_str()) {
        Ok(tokens) => ends_in(alloc, text.len(), tokens.as_slice())?,
        Err(LexFault::Memory) => return Err(AllocError),
        Err(_) => Vec::new(alloc),
    };
    for line in &lines {
        ends.push(*line)?;
    }
    ends.sort_by_key(|end| *end)?;
    Ok(ends)
}
