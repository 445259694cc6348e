//! What is written for generate constructs.

use std::alloc::Global;

/// What a block says of itself.
#[derive(Clone, Copy)]
pub(crate) enum Mark {
    /// It is a turn of a loop, in which its name has this value.
    Turn(u32),
    Chosen,
    Left,
}

/// A block: what it says of itself, the place of the loop's name, and those of its first token and
/// of the one after its last.
#[derive(Clone, Copy)]
pub(crate) struct Piece {
    pub mark: Mark,
    pub name: usize,
    pub from: usize,
    pub to: usize,
}

/// What stands in place of the tokens from one place up to another: so many blocks, from one on.
#[derive(Clone, Copy)]
pub(crate) struct Edit {
    pub at: usize,
    pub end: usize,
    pub first: usize,
    pub count: usize,
}

/// All that a pass writes, in order.
#[derive(Drop)]
pub(crate) struct Edits {
    pub edits: Vec<Edit>,
    pub pieces: Vec<Piece>,
    /// How many tokens may still be added.
    pub left: usize,
}

impl Edits {
    pub(crate) fn new(alloc: Global, left: usize) -> Edits {
        Edits {
            edits: Vec::new(alloc),
            pieces: Vec::new(alloc),
            left,
        }
    }
}
