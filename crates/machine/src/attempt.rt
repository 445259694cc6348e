//! Live attempts.

ghost use Rattle.std.specs.Prelude.{◌≡◌, ◌+◌, ◌<◌, ◌≤◌, true};
ghost use Rattle.machine_checked.specs.Clocks.{visited};
ghost use Rattle.machine.specs.Marks.{Tells, SettlesAs};
ghost use Rattle.machine.specs.Records.{attempt_of, made_by};

use crate::fates::Fates;
use crate::visit::Visit;
use signals::Verdict;

/// An attempt that isn't decided yet.
#[derive(Clone, Copy, PartialEq, Eq, Debug)]
pub struct AttemptRecord {
    /// The tick at which it began.
    pub start: u64,
    /// Bit p says whether it stands at position p.
    pub positions: u128,
    /// Bit k says whether it accepted at tick `start + k`.
    pub awaited: u128,
}

impl AttemptRecord {
    /// The attempt after its visit at the tick `now`.
    pub fn visited_record(self, visit: Visit, now: u64) -> AttemptRecord
        requires started { self.start ≤ now }
        requires young { visit.accepted ≡ true → now < self.start + 128 }
        ensures { attempt_of result ≡ visited now (attempt_of self) (made_by visit) }
    {
        let mut awaited = self.awaited;
        if visit.accepted {
            awaited |= 1 << (now - self.start);
        }
        AttemptRecord {
            start: self.start,
            positions: visit.entered,
            awaited,
        }
    }

    /// Those of the last 128 ticks at which it accepted: bit 127 is the tick `now`.
    fn recent(self, now: u64) -> u128
        requires { self.start ≤ now }
        ensures { Tells now (attempt_of self) result }
    {
        let age = now - self.start;
        if age <= 127 {
            self.awaited << (127 - age)
        } else if age < 255 {
            self.awaited >> (age - 127)
        } else {
            0
        }
    }

    /// Its verdict after the visits of the tick `now`, if it is decided; `fates` are those of the
    /// obligations.
    pub fn verdict(self, fates: Fates, now: u64) -> Option<Verdict>
        requires { self.start ≤ now }
        ensures { SettlesAs now fates (attempt_of self) result }
    {
        let recent = self.recent(now);
        if recent & fates.broken_ticks != 0 {
            return Some(Verdict::Fails(now));
        }
        if recent & fates.open_ticks != 0 {
            return None;
        }
        if self.positions != 0 {
            return None;
        }
        if self.awaited == 0 {
            return Some(Verdict::Vacuous(now));
        }
        Some(Verdict::Holds(now))
    }
}
