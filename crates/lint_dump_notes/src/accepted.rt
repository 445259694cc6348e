//! What notes are told from.

use assertions::Suite;
use lexer::Token;
use lint_notes::{Note, PortSaid};
use parser::File;
use std::alloc::AllocError;

/// What the selects of a text are.
#[derive(Clone, Copy)]
pub enum Selects {
    /// As somebody wrote them, who may take their numbers for those of the declared range.
    Written,
    /// Made of selects by the declared range, so that nobody need be told of it.
    Converted,
}

/// What notes are told from, beside a text and a dump.
#[derive(Clone, Copy)]
pub struct Beside<'b, 'p> {
    /// The bytes that the dump was read from.
    pub bytes: &'b [u8],
    pub ports: &'p [PortSaid],
    pub selects: Selects,
}

/// A text that is accepted, and what it spells.
#[derive(Clone, Copy)]
pub(crate) struct Accepted<'a, 't> {
    pub(crate) text: &'a str,
    pub(crate) tokens: &'a [Token<'t>],
    pub(crate) file: &'a File<'t>,
    pub(crate) suite: &'a Suite,
}

/// Adds notes.
pub(crate) fn push_all(notes: &mut Vec<Note>, more: Vec<Note>) -> Result<(), AllocError> {
    for note in more {
        notes.push(note)?;
    }
    Ok(())
}
