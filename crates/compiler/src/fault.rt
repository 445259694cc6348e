//! Why an assertion has no program.

ghost use Rattle.std.specs.Prelude.{◌≡◌};
ghost use Rattle.compiler.specs.declared.fault.CompileFault.TheVariants as faults;

use std::alloc::AllocError;
use thiserror::Error;

/// Why an assertion has no program.
#[derive(Debug, PartialEq, Eq, Clone, Copy, Error)]
pub enum CompileFault {
    /// K1: it has over 127 booleans, its disabling expression among them.
    #[error("K1 TooManyAtoms")]
    TooManyAtoms,
    /// K2: its sample code or the code of a side would have over 4,096 instructions, or a table on
    /// the way to that of a side over 65,535.
    #[error("K2 CodeTooLong")]
    CodeTooLong,
    /// K3: it reads so many signals and counters that its program would have over 256 slots.
    #[error("K3 TooManySlots")]
    TooManySlots,
    /// K4: its name, its clock or the path of a signal that it reads has over 65,535 bytes.
    #[error("K4 TextTooLong")]
    TextTooLong,
    /// Memory ran out.
    #[error("OutOfMemory")]
    Memory,
}

impl From<AllocError> for CompileFault {
    ghost from_gives = { λ _ fault. fault ≡ faults.Memory };

    fn from(_error: AllocError) -> Self {
        CompileFault::Memory
    }
}
