//! Comments that go on after a carriage return.

use crate::note::Note;
use std::alloc::{AllocError, Global};

/// How many bytes the comment in the form `/* .. */` has at the front.
fn block_length(bytes: &[u8]) -> usize {
    let Some(inside) = bytes.get(2..) else {
        return bytes.len();
    };
    for at in 0..inside.len() {
        if inside[at..].starts_with(b"*/".as_slice()) {
            return at.saturating_add(4);
        }
    }
    bytes.len()
}

/// Whether only white space stands among bytes.
fn is_blank(bytes: &[u8]) -> bool {
    bytes.iter().all(|byte| byte.is_ascii_whitespace())
}

/// The first carriage return of a line, if more than white space stands behind it.
fn lone_return(line: &[u8]) -> Option<usize> {
    let at = line.iter().position(|byte| *byte == b'\r')?;
    match line.get(at..) {
        Some(behind) if !is_blank(behind) => Some(at),
        _ => None,
    }
}

/// The note on a carriage return in a comment.
fn note_at(alloc: Global, at: usize) -> Result<Note, AllocError> {
    let message = "a carriage return alone doesn't end a comment: what follows on this line is \
        part of it, and not read";
    Ok(Note {
        number: 9,
        at,
        message: String::from_str(alloc, message)?,
    })
}

/// The notes on the carriage returns of `//` comments that have no line feed behind them: note 9.
/// Whoever reads such a text in an editor may see a line there that is not read.
pub fn comment_notes(alloc: Global, text: &str) -> Result<Vec<Note>, AllocError> {
    let bytes = text.as_bytes();
    let mut notes = Vec::new(alloc);
    let mut next = 0;
    for at in 0..bytes.len() {
        let rest = &bytes[at..];
        if at < next {
            continue;
        }
        if rest.starts_with(b"/*".as_slice()) {
            next = at.saturating_add(block_length(rest));
        }
        if rest.starts_with(b"//".as_slice()) {
            let length = rest.iter().position(|byte| *byte == b'\n');
            let line = length.and_then(|length| rest.get(..length)).unwrap_or(rest);
            next = at.saturating_add(line.len());
            if let Some(back) = lone_return(line) {
                notes.push(note_at(alloc, at.saturating_add(back))?)?;
            }
        }
    }
    Ok(notes)
}
