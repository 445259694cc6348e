//! A directive of a conditional, where it stands.

use crate::turn::Turn;

/// A directive of a conditional, at a byte of its text.
#[derive(Clone, Copy)]
pub(crate) struct Conditional {
    pub turn: Turn,
    pub at: usize,
}
