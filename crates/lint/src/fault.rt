//! Why nothing is told.

use report_lines::ReportFault;
use std::alloc::AllocError;
use vcd_reader::VcdFault;

/// Why nothing is told, or not all of it.
#[derive(Drop)]
pub enum LintFault {
    /// What is wrong with the dump.
    Vcd(VcdFault),
    /// The sink failed, which then holds a beginning of what is told.
    Report(ReportFault),
    /// Memory ran out.
    Memory,
}

impl From<AllocError> for LintFault {
    ghost use Rattle.std.specs.Prelude.{◌≡◌};
    ghost use Rattle.lint.specs.declared.fault.LintFault.TheVariants.{Memory};

    ghost from_gives = { λ _ e. e ≡ Memory };

    fn from(_error: AllocError) -> Self {
        LintFault::Memory
    }
}

impl From<VcdFault> for LintFault {
    ghost use Rattle.std.specs.Prelude.{◌≡◌};
    ghost use Rattle.lint.specs.Tells.{vcd_fault};

    ghost from_gives = { λ f e. e ≡ vcd_fault f };

    fn from(fault: VcdFault) -> Self {
        match fault {
            VcdFault::Memory => LintFault::Memory,
            other => LintFault::Vcd(other),
        }
    }
}
