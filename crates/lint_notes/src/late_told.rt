//! Note 3: functions that look back before a signal's first value.

ghost use Rattle.std.specs.Prelude.{◌≡◌, take, map, codes, IfOk};
ghost use Rattle.std.specs.List.{list_any};
ghost use Rattle.std.specs.Str.{bytes_eq};
ghost use Rattle.lint_notes.specs.Words.{closing};
ghost use Rattle.lint_notes.specs.Told.{looks_back, has_late_note, late_paths, first_byte};
ghost use Rattle.lint_notes.specs.Told.{IsNoteWhen};

use crate::facts::Late;
use crate::names::late_in;
use crate::note::Note;
use crate::words::{closing, is};
use lexer::Token;
use std::alloc::{AllocError, Global};

/// Whether a token is a function that looks back.
fn looks_back(token: &Token) -> bool
    ensures { result ≡ looks_back token.now }
{
    is(token, "$past")
        || is(token, "$rose")
        || is(token, "$fell")
        || is(token, "$stable")
        || is(token, "$changed")
}

/// What is told of a call.
fn message_of(alloc: Global, word: &str, late: &Late) -> Result<String, AllocError> {
    let path = late.path.as_str();
    let time = late.time;
    let mut text = format!(in alloc; "{word} looks back, and {path} has no value before #{time}")?;
    text.push_str(": 0 stands for it there")?;
    Ok(text)
}

/// The note of a call with which tokens begin, where it looks back at a late signal.
pub(crate) fn late_note(
    alloc: Global,
    text: &[u8],
    late: &[Late],
    tokens: &[Token],
) -> Result<Option<Note>, AllocError>
    ensures { IfOk result (λ n. IsNoteWhen
        (has_late_note text.now (late_paths late.now) tokens.now) 3
        (first_byte tokens.now) n) }
{
    let [first, rest @ ..] = tokens else {
        return Ok(None);
    };
    if !looks_back(first) {
        return Ok(None);
    }
    let Some(one) = late_in(text, late, &rest[..closing(rest)]) else {
        return Ok(None);
    };
    Ok(Some(Note {
        number: 3,
        at: first.at,
        message: message_of(alloc, first.text, one)?,
    }))
}
