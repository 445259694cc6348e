//! A refusal, where it arises.

ghost use Rattle.std.specs.Prelude.{◌≡◌};
ghost use Rattle.import_trees.specs.declared.refusal.Refusal.TheVariants.{Memory};

use crate::refusal::Refusal;
use std::alloc::{AllocError, AllocFailed};

/// Why tokens are no tree, and at which of them that shows, counted from 0.
#[derive(Clone, Copy, PartialEq, Eq)]
pub struct TreeFault {
    pub refusal: Refusal,
    pub token: usize,
}

impl From<AllocError> for TreeFault {
    ghost from_gives = { λ _ e. e.refusal ≡ Memory };

    fn from(_error: AllocError) -> TreeFault {
        TreeFault {
            refusal: Refusal::Memory,
            token: 0,
        }
    }
}

impl<T: Drop> From<AllocFailed<T>> for TreeFault {
    ghost from_gives = { λ _ e. e.refusal ≡ Memory };

    fn from(_error: AllocFailed<T>) -> TreeFault {
        TreeFault {
            refusal: Refusal::Memory,
            token: 0,
        }
    }
}
