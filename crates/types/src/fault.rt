//! Faults of types.

use std::alloc::{AllocError, AllocFailed};
use thiserror::Error;

/// Why a text has no meaning over the names of a dump, with the byte of the text where the fault
/// stands. Of several faults the first by kind is answered, in the order Y1, Y2, Y3, Y4, Y7, Y8,
/// Y9, Y5, Y6, then the one at the lowest byte.
#[derive(Clone, Copy, Debug, Error)]
pub enum TypeFault {
    /// A path stands for nothing that can be read there: its first byte.
    #[error("Y1 UnknownName {0}")]
    UnknownName(usize),
    /// A name is declared again: its first byte, or the verb of an assertion whose made name it is.
    #[error("Y2 Duplicate {0}")]
    Duplicate(usize),
    /// A concatenation has more than 128 bits: its first byte.
    #[error("Y3 WiderThan128 {0}")]
    WiderThan128(usize),
    /// A select names bits that the name doesn't have: the first byte of the name.
    #[error("Y4 SliceRange {0}")]
    SliceRange(usize),
    /// An antecedent or a consequent has no match of a tick or more: its first byte but brackets.
    #[error("Y5 Degenerate {0}")]
    Degenerate(usize),
    /// A consequent has an empty match: its first byte but brackets.
    #[error("Y6 AdmitsEmpty {0}")]
    AdmitsEmpty(usize),
    /// A clock is not that of the first assertion: the first byte of its path.
    #[error("Y7 OtherClock {0}")]
    OtherClock(usize),
    /// A named sequence reaches itself: the first byte of its name where it is declared.
    #[error("Y8 CyclicSequence {0}")]
    CyclicSequence(usize),
    /// An antecedent or a consequent weighs more than 127: its first byte but brackets.
    #[error("Y9 TooWide {0}")]
    TooWide(usize),
    /// Memory was refused.
    #[error("OutOfMemory")]
    Memory,
}

impl From<AllocError> for TypeFault {
    ghost use Rattle.std.specs.Prelude.{◌≡◌};
    ghost use Rattle.types.specs.declared.fault.TypeFault.TheVariants.{Memory};

    ghost from_gives = { λ e r. r ≡ Memory };

    fn from(_error: AllocError) -> TypeFault
        ensures { result ≡ Memory }
    {
        TypeFault::Memory
    }
}
