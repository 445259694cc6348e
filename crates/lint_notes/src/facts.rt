//! What notes are told of: facts of a dump.

use crate::range::Range;

/// A name of a dump whose declared range isn't `[n:0]`.
#[derive(Drop)]
pub struct Turned {
    pub path: String,
    pub range: Range,
}

/// A signal of a dump whose first value comes after the dump's first time.
#[derive(Drop)]
pub struct Late {
    pub path: String,
    /// When it comes, in the dump's unit.
    pub time: u64,
}

/// Facts of a dump's names.
#[derive(Clone, Copy)]
pub struct Facts<'a> {
    pub turned: &'a [Turned],
    pub late: &'a [Late],
}

/// What is told of a path, where a text first reads it.
#[derive(Drop)]
pub struct PathFact {
    /// The number of the note.
    pub number: u8,
    pub path: String,
    pub message: String,
}
