//! Why a sequence has no section.

use std::alloc::AllocError;
use thiserror::Error;

/// Why a sequence has no section.
#[derive(Debug, PartialEq, Eq, Clone, Copy, Error)]
pub enum SectionFault {
    /// Its code would have more than 4,096 instructions, or a table on the way more than 65,535.
    #[error("the code of the sequence would be too long")]
    TooLong,
    /// Memory ran out.
    #[error("OutOfMemory")]
    Memory,
}

impl From<AllocError> for SectionFault {
    ghost use Rattle.std.specs.Prelude.{◌≡◌};
    ghost use Rattle.positions.specs.declared.fault.SectionFault.TheVariants.{Memory};

    ghost from_gives = { λ _ fault. fault ≡ Memory };

    fn from(_error: AllocError) -> Self {
        SectionFault::Memory
    }
}
