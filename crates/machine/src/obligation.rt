//! Live obligations.

use crate::visit::Visit;

/// An obligation that is neither kept nor broken yet.
#[derive(Clone, Copy, PartialEq, Eq, Debug)]
pub struct ObligationRecord {
    /// The tick at which it was opened.
    pub tick: u64,
    /// Bit p says whether it stands at position p.
    pub positions: u128,
}

impl ObligationRecord {
    ghost use Rattle.std.specs.Prelude.{◌≡◌};
    ghost use Rattle.machine_checked.specs.Clocks.{Obligation, is_ended};
    ghost use Rattle.machine.specs.Records.{fate_of, obligation_of, left_open};

    /// Whether the visit ended it: it was kept, or it was broken.
    pub fn is_ended(self, visit: Visit) -> bool
        ensures { result ≡ is_ended (fate_of self visit) }
    {
        visit.accepted || visit.entered == 0
    }

    /// The obligation after a visit that left it open.
    pub fn visited_record(self, visit: Visit) -> ObligationRecord
        ensures { obligation_of result ≡ left_open (fate_of self visit) }
    {
        ObligationRecord {
            tick: self.tick,
            positions: visit.entered,
        }
    }
}
