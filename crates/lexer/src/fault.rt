//! Why a text has no tokens.

use std::alloc::{AllocError, AllocFailed};
use thiserror::Error;

/// Each but `Memory` with the byte of the source that is meant, counted from 0.
#[derive(Clone, Copy, Debug, PartialEq, Eq, Error)]
pub enum LexFault {
    /// L1: no token, white space or comment begins with the byte.
    #[error("L1 BadCharacter {0}")]
    BadCharacter(usize),
    /// L2: the number that begins there has no value, or too large a one.
    #[error("L2 BadNumber {0}")]
    BadNumber(usize),
    /// L3: the comment that begins there has no end.
    #[error("L3 UnclosedComment {0}")]
    UnclosedComment(usize),
    /// Memory ran out.
    #[error("OutOfMemory")]
    Memory,
}

impl From<AllocError> for LexFault {
    ghost use Rattle.lexer.specs.declared.fault.LexFault.TheVariants.{Memory};
    ghost use Rattle.std.specs.Prelude.{◌≡◌};

    ghost from_gives = { λ _ e. e ≡ Memory };

    fn from(_error: AllocError) -> LexFault {
        LexFault::Memory
    }
}

impl<T: Drop> From<AllocFailed<T>> for LexFault {
    ghost use Rattle.lexer.specs.declared.fault.LexFault.TheVariants.{Memory};
    ghost use Rattle.std.specs.Prelude.{◌≡◌};

    ghost from_gives = { λ _ e. e ≡ Memory };

    fn from(_error: AllocFailed<T>) -> LexFault {
        LexFault::Memory
    }
}
