//! Why there are no lines.

ghost use Rattle.std.specs.Prelude.{◌≡◌};
ghost use Rattle.report_programs.specs.declared.fault.LinesFault.TheVariants.{Memory};

use compiler::CompileFault;
use std::alloc::{AllocError, AllocFailed};
use workers_core::BadJob;

/// Why there are no lines.
#[derive(Debug, Drop)]
pub enum LinesFault {
    /// K1 to K4: an assertion has no program.
    Program(CompileFault),
    /// U3: no assertion, or more than 4,096.
    BadJob,
    /// Memory ran out.
    Memory,
}

impl From<CompileFault> for LinesFault {
    ghost use Rattle.report_programs.specs.Faults.{program_fault};

    ghost from_gives = { λ f e. e ≡ program_fault f };

    fn from(fault: CompileFault) -> LinesFault {
        match fault {
            CompileFault::Memory => LinesFault::Memory,
            other => LinesFault::Program(other),
        }
    }
}

impl From<BadJob> for LinesFault {
    ghost use Rattle.report_programs.specs.declared.fault.LinesFault.TheVariants as faults;

    ghost from_gives = { λ _ e. e ≡ faults.BadJob };

    fn from(_fault: BadJob) -> LinesFault {
        LinesFault::BadJob
    }
}

impl From<AllocError> for LinesFault {
    ghost from_gives = { λ _ e. e ≡ Memory };

    fn from(_e: AllocError) -> LinesFault {
        LinesFault::Memory
    }
}

impl<T: Drop> From<AllocFailed<T>> for LinesFault {
    ghost from_gives = { λ _ e. e ≡ Memory };

    fn from(_e: AllocFailed<T>) -> LinesFault {
        LinesFault::Memory
    }
}
