//! A refusal, where it arises.

ghost use Rattle.std.specs.Prelude.{◌≡◌};
ghost use Rattle.import_trees.specs.declared.refusal.Refusal.TheVariants as known;
ghost use Rattle.import_expressions.specs.declared.reason.Reason.TheVariants.{Known};

use crate::reason::Reason;
use std::alloc::{AllocError, AllocFailed};

/// Why an expression or an assertion has no text, and the byte of the file at which that shows.
#[derive(Clone, Copy, PartialEq, Eq)]
pub struct Refused {
    pub reason: Reason,
    pub at: usize,
}

impl From<AllocError> for Refused {
    ghost from_gives = { λ _ e. e.reason ≡ Known known.Memory };

    fn from(_error: AllocError) -> Refused {
        Refused {
            reason: Reason::MEMORY,
            at: 0,
        }
    }
}

impl<T: Drop> From<AllocFailed<T>> for Refused {
    ghost from_gives = { λ _ e. e.reason ≡ Known known.Memory };

    fn from(_error: AllocFailed<T>) -> Refused {
        Refused {
            reason: Reason::MEMORY,
            at: 0,
        }
    }
}
