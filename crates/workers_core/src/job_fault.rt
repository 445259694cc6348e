//! Why there is no job.

ghost use Rattle.std.specs.Prelude.{◌≡◌};
ghost use Rattle.workers_core.specs.declared.job_fault.JobFault.TheVariants.{Memory};

use crate::bad_job::BadJob;
use cycle_window::WindowFault;
use std::alloc::{AllocError, AllocFailed};
use thiserror::Error;

/// Why there is no job.
#[derive(Debug, Drop, Error)]
pub enum JobFault {
    /// C1 and C2 of the clock, C4 and C5 of a signal.
    #[error("{0}")]
    Window(WindowFault),
    /// U3: no program, or more than 4,096.
    #[error("U3 BadJob")]
    BadJob,
    /// There was no memory.
    #[error("OutOfMemory")]
    Memory,
}

impl From<WindowFault> for JobFault {
    ghost use Rattle.workers_core.specs.Faults.{window_fault};

    ghost from_gives = { λ f e. e ≡ window_fault f };

    fn from(fault: WindowFault) -> JobFault {
        match fault {
            WindowFault::Memory => JobFault::Memory,
            other => JobFault::Window(other),
        }
    }
}

impl From<BadJob> for JobFault {
    ghost use Rattle.workers_core.specs.declared.job_fault.JobFault.TheVariants as faults;

    ghost from_gives = { λ _ e. e ≡ faults.BadJob };

    fn from(_fault: BadJob) -> JobFault {
        JobFault::BadJob
    }
}

impl From<AllocError> for JobFault {
    ghost from_gives = { λ _ e. e ≡ Memory };

    fn from(_e: AllocError) -> JobFault {
        JobFault::Memory
    }
}

impl<T: Drop> From<AllocFailed<T>> for JobFault {
    ghost from_gives = { λ _ e. e ≡ Memory };

    fn from(_e: AllocFailed<T>) -> JobFault {
        JobFault::Memory
    }
}
