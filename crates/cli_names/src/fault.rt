//! Why nothing is told.

use report_lines::ReportFault;
use std::alloc::AllocError;
use vcd_reader::VcdFault;

/// Why nothing is told, or not all of it.
#[derive(Drop)]
pub enum NamesFault {
    /// What is wrong with the dump.
    Vcd(VcdFault),
    /// The sink failed, which then holds a beginning of the table.
    Report(ReportFault),
    /// Memory ran out.
    Memory,
}

impl From<AllocError> for NamesFault {
    ghost use Rattle.std.specs.Prelude.{◌≡◌};
    ghost use Rattle.cli_names.specs.declared.fault.NamesFault.TheVariants.{Memory};

    ghost from_gives = { λ _ e. e ≡ Memory };

    fn from(_error: AllocError) -> Self {
        NamesFault::Memory
    }
}

impl From<VcdFault> for NamesFault {
    ghost use Rattle.std.specs.Prelude.{◌≡◌};
    ghost use Rattle.cli_names.specs.Faults.{vcd_fault};

    ghost from_gives = { λ f e. e ≡ vcd_fault f };

    fn from(fault: VcdFault) -> Self {
        match fault {
            VcdFault::Memory => NamesFault::Memory,
            other => NamesFault::Vcd(other),
        }
    }
}
