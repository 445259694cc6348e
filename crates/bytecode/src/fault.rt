//! Why bytes are no program.

ghost use Rattle.std.specs.Prelude.{◌≡◌};
ghost use Rattle.bytecode.specs.declared.fault.CodeFault.TheVariants.{Memory};

use std::alloc::{AllocError, AllocFailed};
use thiserror::Error;

/// The first fault in reading order. A place is a byte from 0.
#[derive(Clone, Copy, Debug, Error)]
pub enum CodeFault {
    #[error("B1 Magic")]
    Magic,
    #[error("B2 Version")]
    Version,
    /// A field passes the end: the length of the input.
    #[error("B3 Truncated {0}")]
    Truncated(usize),
    #[error("B4 BadOpcode {0}")]
    BadOpcode(usize),
    /// The first byte of the field.
    #[error("B5 BadField {0}")]
    BadField(usize),
    /// The first byte after the program.
    #[error("B6 TrailingBytes {0}")]
    TrailingBytes(usize),
    #[error("OutOfMemory")]
    Memory,
}

impl From<AllocError> for CodeFault {
    ghost from_gives = { λ _ e. e ≡ Memory };

    fn from(_error: AllocError) -> CodeFault {
        CodeFault::Memory
    }
}
