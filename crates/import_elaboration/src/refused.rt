//! A refusal, where it arises.

ghost use Rattle.std.specs.Prelude.{◌≡◌};
ghost use Rattle.import_trees.specs.declared.refusal.Refusal.TheVariants.{Memory};

use import_trees::Refusal;
use std::alloc::{AllocError, AllocFailed};

/// Why an assertion is refused, and the byte at which that shows.
#[derive(Clone, Copy, PartialEq, Eq)]
pub struct Refused {
    pub refusal: Refusal,
    pub at: usize,
}

impl From<AllocError> for Refused {
    ghost from_gives = { λ _ e. e.refusal ≡ Memory };

    fn from(_error: AllocError) -> Refused {
        Refused {
            refusal: Refusal::Memory,
            at: 0,
        }
    }
}

impl<T: Drop> From<AllocFailed<T>> for Refused {
    ghost from_gives = { λ _ e. e.refusal ≡ Memory };

    fn from(_error: AllocFailed<T>) -> Refused {
        Refused {
            refusal: Refusal::Memory,
            at: 0,
        }
    }
}
