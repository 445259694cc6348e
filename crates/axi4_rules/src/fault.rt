//! Why a text is no port file.

use std::alloc::{AllocError, AllocFailed};
use thiserror::Error;

/// What is wrong with the first faulty line.
#[derive(Clone, Copy, Debug, Error)]
pub enum PortFault {
    /// X1: a width, the wait or the width of IDs is out of range.
    #[error("X1 BadWidth")]
    BadWidth,
    /// X2: the watched IDs are too many, not different, or out of range.
    #[error("X2 BadId")]
    BadId,
    /// X3: the name is no word, or the clock, the reset or the signals are no paths.
    #[error("X3 BadName")]
    BadName,
    /// X4: the line, counted from 1, isn't of the form of a port.
    #[error("X4 BadLine {0}")]
    BadLine(usize),
    /// Memory ran out.
    #[error("OutOfMemory")]
    Memory,
}

impl From<AllocError> for PortFault {
    ghost use Rattle.axi4_rules.specs.declared.fault.PortFault.TheVariants.{Memory};
    ghost use Rattle.std.specs.Prelude.{◌≡◌};

    ghost from_gives = { λ _ e. e ≡ Memory };

    fn from(_error: AllocError) -> PortFault {
        PortFault::Memory
    }
}

impl<T: Drop> From<AllocFailed<T>> for PortFault {
    ghost use Rattle.axi4_rules.specs.declared.fault.PortFault.TheVariants.{Memory};
    ghost use Rattle.std.specs.Prelude.{◌≡◌};

    ghost from_gives = { λ _ e. e ≡ Memory };

    fn from(_error: AllocFailed<T>) -> PortFault {
        PortFault::Memory
    }
}
