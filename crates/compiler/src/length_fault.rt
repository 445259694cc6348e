//! Why no sample code was made.

use std::alloc::AllocError;

/// Why no sample code was made.
#[derive(Clone, Copy, PartialEq, Eq, Debug)]
pub enum LengthFault {
    /// It would have over 4,096 instructions.
    TooLong,
    /// Memory was refused.
    Memory,
}

impl From<AllocError> for LengthFault {
    ghost use Rattle.std.specs.Prelude.{◌≡◌};
    ghost use Rattle.compiler.specs.declared.length_fault.LengthFault.TheVariants.{Memory};

    ghost from_gives = { λ e r. r ≡ Memory };

    fn from(_error: AllocError) -> LengthFault
        ensures { result ≡ Memory }
    {
        LengthFault::Memory
    }
}
