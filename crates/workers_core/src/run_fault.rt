//! Why there is no core.

ghost use Rattle.std.specs.Prelude.{◌≡◌};
ghost use Rattle.workers_core.specs.declared.run_fault.RunFault.TheVariants.{Memory};

use crate::team_size::BadTeam;
use std::alloc::AllocError;
use thiserror::Error;

/// Why there is no core.
#[derive(Debug, Drop, Error)]
pub enum RunFault {
    /// C3: a window of no clock, or of more than 65,536.
    #[error("C3 BadSize")]
    BadSize,
    /// U1: no worker, or more than 64.
    #[error("U1 BadWorkers")]
    BadWorkers,
    /// U2: there was no memory.
    #[error("U2 Memory")]
    Memory,
}

impl From<BadTeam> for RunFault {
    ghost use Rattle.workers_core.specs.declared.run_fault.RunFault.TheVariants as faults;

    ghost from_gives = { λ _ e. e ≡ faults.BadWorkers };

    fn from(_e: BadTeam) -> RunFault {
        RunFault::BadWorkers
    }
}

impl From<AllocError> for RunFault {
    ghost from_gives = { λ _ e. e ≡ Memory };

    fn from(_e: AllocError) -> RunFault {
        RunFault::Memory
    }
}
