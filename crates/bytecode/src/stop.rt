//! Why reading stops.

use std::alloc::{AllocError, AllocFailed};

/// Each place as the number of bytes that are left there, that of the field's first.
#[derive(Clone, Copy)]
pub enum Stop {
    Memory,
    Magic,
    Version,
    /// A field passes the end.
    Cut,
    Opcode(usize),
    Field(usize),
    Trailing(usize),
}

impl From<AllocError> for Stop {
    ghost use Rattle.bytecode.specs.declared.stop.Stop.TheVariants.{Memory};
    ghost use Rattle.std.specs.Prelude.{◌≡◌};

    ghost from_gives = { λ _ e. e ≡ Memory };

    fn from(_error: AllocError) -> Stop {
        Stop::Memory
    }
}

impl<T: Drop> From<AllocFailed<T>> for Stop {
    ghost use Rattle.bytecode.specs.declared.stop.Stop.TheVariants.{Memory};
    ghost use Rattle.std.specs.Prelude.{◌≡◌};

    ghost from_gives = { λ _ e. e ≡ Memory };

    fn from(_error: AllocFailed<T>) -> Stop {
        Stop::Memory
    }
}
