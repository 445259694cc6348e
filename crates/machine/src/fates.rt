//! What became of the obligations at a clock.

ghost use Rattle.std.specs.Prelude.{◌≡◌, ◌+◌, ◌≤◌, bit_or, []};
ghost use Rattle.machine_checked.specs.Clocks.{is_broken};
ghost use Rattle.machine.specs.Marks.{is_fate_open, fate_mark, fates_of};
ghost use Rattle.machine.specs.Records.{fate_of};

use crate::obligation::ObligationRecord;
use crate::visit::Visit;

/// The obligations that are open and those that were broken, as sets of ticks: bit 127 is the tick
/// of the clock, bit 126 the one before.
#[derive(Clone, Copy, PartialEq, Eq, Debug)]
pub struct Fates {
    pub open_ticks: u128,
    pub broken_ticks: u128,
}

impl Fates {
    /// Those of no obligation.
    pub fn none() -> Fates
        ensures { result ≡ fates_of 0 [] }
    {
        Fates {
            open_ticks: 0,
            broken_ticks: 0,
        }
    }

    /// Notes an obligation's visit at the tick `now`.
    pub fn note(&mut self, obligation: ObligationRecord, visit: Visit, now: u64)
        requires before { obligation.tick ≤ now }
        requires recent { now ≤ obligation.tick + 127 }
        ensures open { self.new.open_ticks
            ≡ bit_or self.old.open_ticks (fate_mark is_fate_open now (fate_of obligation visit)) }
        ensures broken { self.new.broken_ticks
            ≡ bit_or self.old.broken_ticks (fate_mark is_broken now (fate_of obligation visit)) }
    {
        if visit.accepted {
            return;
        }
        let mark = 1 << (127 - (now - obligation.tick));
        if visit.entered == 0 {
            self.broken_ticks |= mark;
        } else {
            self.open_ticks |= mark;
        }
    }
}
