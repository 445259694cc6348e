//! What is told of the assertions of files.

use crate::fault::ImportFault;
use crate::outcome::{Fate, Imported, Missing, Outcome, Remark};
use import_scopes::NoteKind;
use source_files::{Part, spot_of};
use std::alloc::{AllocError, Global};

/// What is told at a byte of the text.
#[derive(Drop)]
struct Message {
    at: usize,
    text: String,
}

/// A line and a column of a part of the text, and the byte of that.
#[derive(Clone, Copy)]
struct Cursor {
    part: usize,
    at: usize,
    line: u64,
    column: u64,
}

/// Adds what is told at a byte of the text.
fn push_note(messages: &mut Vec<Message>, at: usize, text: String) -> Result<(), AllocError> {
    messages.push(Message { at, text })?;
    Ok(())
}

/// What is told of an assertion beside what becomes of it.
fn push_notes(
    alloc: Global,
    messages: &mut Vec<Message>,
    bound: Option<u8>,
    outcome: &Outcome,
) -> Result<(), AllocError> {
    let (label, at) = (outcome.label.as_str(), outcome.at);
    if outcome.label.as_str() != outcome.name.as_str() {
        let name = outcome.name.as_str();
        let text = format!(in alloc; "note {label} Renamed: {name}")?;
        push_note(messages, at, text)?;
    }
    if outcome.marks.vacuity {
        let text = format!(in alloc;
            "note {label} Vacuity: holds and vacuous are counted otherwise"
        )?;
        push_note(messages, at, text)?;
    }
    if outcome.marks.unknown_type {
        let text = format!(in alloc;
            "note {label} UnknownType: a type that it uses isn't known, nor then its sign and bits"
        )?;
        push_note(messages, at, text)?;
    }
    if let (true, Some(bound)) = (outcome.marks.bounded, bound) {
        let text = format!(in alloc; "note {label} Bounded: open ends stop after {bound} clocks")?;
        push_note(messages, at, text)?;
    }
    Ok(())
}

/// What is told of a name that the dump has in a scope.
fn scoped_message(
    alloc: Global,
    label: &str,
    name: &str,
    scope: &str,
) -> Result<String, AllocError> {
    Ok(format!(in alloc;
        "refused {label} UnknownName: {name}; did you mean {scope}.{name}? give --scope {scope}"
    )?)
}

/// What is told of a name that the dump lacks.
fn unknown_message(alloc: Global, label: &str, missing: &Missing) -> Result<Message, AllocError> {
    let name = missing.name.as_str();
    if missing.unnameable {
        return Ok(Message {
            at: missing.at,
            text: format!(in alloc;
                "refused {label} UnknownName: no rule can name {name}: it has no bits, or over 128"
            )?,
        });
    }
    let text = match (&missing.scope, &missing.nearest) {
        (Some(scope), _) => scoped_message(alloc, label, name, scope.as_str())?,
        (None, Some(near)) => {
            let near = near.as_str();
            format!(in alloc; "refused {label} UnknownName: {name}; did you mean {near}?")?
        }
        (None, None) => {
            format!(in alloc; "refused {label} UnknownName: the dump has no {name}")?
        }
    };
    Ok(Message {
        at: missing.at,
        text,
    })
}

/// What is told of what becomes of an assertion, if something is.
fn fate_message(alloc: Global, outcome: &Outcome) -> Result<Option<Message>, AllocError> {
    let label = outcome.label.as_str();
    match &outcome.fate {
        Fate::Written(_) => Ok(None),
        Fate::Halves(first, second) => {
            let (first, second) = (first.name.as_str(), second.name.as_str());
            Ok(Some(Message {
                at: outcome.at,
                text: format!(in alloc; "note {label} Renamed: {first} and {second}")?,
            }))
        }
        Fate::Left => Ok(Some(Message {
            at: outcome.at,
            text: format!(in alloc; "note {label} Cover: a cover decides nothing")?,
        })),
        Fate::Ungenerated => Ok(Some(Message {
            at: outcome.at,
            text: format!(in alloc; "note {label} Generate: its block is not generated")?,
        })),
        Fate::Refused(cause) => {
            let (code, hint) = (cause.code, cause.hint);
            Ok(Some(Message {
                at: cause.at,
                text: format!(in alloc; "refused {label} {code}: {hint}")?,
            }))
        }
        Fate::Unknown(missing) => Ok(Some(unknown_message(alloc, label, missing)?)),
        Fate::OtherClock(clock) => Ok(Some(Message {
            at: outcome.at,
            text: format!(in alloc; "refused {label} OtherClock: run again with --clock {clock}")?,
        })),
    }
}

/// What is told of something that is no assertion; covers are told with their labels.
fn remark_message(alloc: Global, remark: &Remark) -> Result<Option<Message>, AllocError> {
    let text = remark.text.as_str();
    let text = match remark.kind {
        NoteKind::Cover => return Ok(None),
        NoteKind::Bind => format!(in alloc;
            "note file Bind: it is left out, with its parameters: give --scope"
        )?,
        NoteKind::Expect => format!(in alloc;
            "note file Expect: it is left out: write an assertion in its place"
        )?,
        NoteKind::UnknownMacro => {
            format!(in alloc; "note {text} UnknownMacro: it is left out, and may hide assertions")?
        }
        NoteKind::Include => {
            format!(in alloc; "note file Include: it is not read: give the file before this one")?
        }
        NoteKind::Parameters => format!(in alloc;
            "note {text} Parameters: an instance's aren't looked at, but those of the module"
        )?,
        NoteKind::Checker => format!(in alloc;
            "note {text} Checker: its ports are read as the dump's signals of their names"
        )?,
        NoteKind::Variable => format!(in alloc;
            "note {text} Declared: read as the dump's signal: --scope has to be this module's"
        )?,
    };
    Ok(Some(Message {
        at: remark.at,
        text,
    }))
}

/// All messages, in the order of their places.
fn all_messages(
    alloc: Global,
    bound: Option<u8>,
    imported: &Imported,
) -> Result<Vec<Message>, AllocError> {
    let mut messages = Vec::new(alloc);
    for outcome in imported.outcomes.as_slice() {
        push_notes(alloc, &mut messages, bound, outcome)?;
        if let Some(message) = fate_message(alloc, outcome)? {
            messages.push(message)?;
        }
    }
    for remark in imported.remarks.as_slice() {
        if let Some(message) = remark_message(alloc, remark)? {
            messages.push(message)?;
        }
    }
    messages.sort_by_key(|message| message.at)?;
    Ok(messages)
}

/// The front of a part.
fn front_of(part: usize) -> Cursor {
    Cursor {
        part,
        at: 0,
        line: 1,
        column: 1,
    }
}

/// The cursor, some bytes further.
fn moved(mut cursor: Cursor, bytes: &[u8]) -> Cursor {
    for byte in bytes {
        cursor.at = cursor.at.saturating_add(1);
        cursor.column = cursor.column.saturating_add(1);
        if *byte == b'\n' {
            cursor.line = cursor.line.saturating_add(1);
            cursor.column = 1;
        }
    }
    cursor
}

/// The cursor at a byte of the text, which is not before it.
fn cursor_at(parts: &[Part], cursor: Cursor, at: usize) -> Cursor {
    let spot = spot_of(parts, at);
    let from = if spot.part == cursor.part && cursor.at <= spot.at {
        cursor
    } else {
        front_of(spot.part)
    };
    match parts.get(spot.part) {
        Some(part) => {
            let bytes = part.text.as_str().as_bytes();
            moved(from, bytes.get(from.at..spot.at).unwrap_or(b""))
        }
        None => from,
    }
}

/// Adds a line: the file, the line, the column, and what is told.
fn push_line(
    text: &mut String,
    parts: &[Part],
    cursor: Cursor,
    message: &str,
) -> Result<(), AllocError> {
    if let Some(part) = parts.get(cursor.part) {
        text.push_str(part.path.as_str())?;
    }
    let (line, column) = (cursor.line, cursor.column);
    write!(text, ":{line}:{column}: {message}\n")?;
    Ok(())
}

/// The lines that tell what is refused and noted, in the order of the files, each with its file,
/// line and column, both from 1. A bound is the one that was read with.
pub fn messages_of(
    alloc: Global,
    parts: &[Part],
    bound: Option<u8>,
    imported: &Imported,
) -> Result<String, AllocError> {
    let messages = all_messages(alloc, bound, imported)?;
    let mut text = String::new(alloc);
    let mut cursor = front_of(0);
    for message in messages.as_slice() {
        cursor = cursor_at(parts, cursor, message.at);
        push_line(&mut text, parts, cursor, message.text.as_str())?;
    }
    Ok(text)
}

/// The line that tells why files have no assertions at all, by the place at which that shows.
pub fn unread_line(
    alloc: Global,
    parts: &[Part],
    fault: ImportFault,
) -> Result<String, AllocError> {
    let (at, message) = match fault {
        ImportFault::UnclosedComment(at) => (at, "refused file UnclosedComment: /* has no */"),
        ImportFault::StrayConditional(at) => (
            at,
            "refused file StrayConditional: no `ifdef is open there, or its `else was before",
        ),
        ImportFault::UnclosedConditional(at) => {
            (at, "refused file UnclosedConditional: it has no `endif")
        }
        ImportFault::Memory => return Err(AllocError),
    };
    let mut text = String::new(alloc);
    push_line(&mut text, parts, cursor_at(parts, front_of(0), at), message)?;
    Ok(text)
}
