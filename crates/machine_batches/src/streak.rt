//! Attempts that were decided alike, one after another.

ghost use Rattle.std.specs.Prelude.{◌≡◌, ◌+◌, ◌^◌, ◌<◌, ◌≤◌, IfSome};
ghost use Rattle.machine_batches.specs.Ages.{deciding_clock, verdict_moved};

use signals::{Decided, Verdict};

/// Attempts that began at clocks one after another, and came to the same, each at the same age. A
/// streak is at most as long as its starts and clocks are below 2^64.
#[derive(Clone, Copy)]
pub struct Streak {
    pub first: Decided,
    /// How many there are.
    pub count: u64,
    ghost starts: { first.start + count ≤ 2 ^ 64 },
    ghost clocks: { deciding_clock first.verdict + count ≤ 2 ^ 64 },
}

/// The verdict so many clocks later.
fn verdict_later(verdict: Verdict, clocks: u64) -> Verdict
    requires { deciding_clock verdict + clocks < 2 ^ 64 }
    ensures { result ≡ verdict_moved clocks verdict }
{
    match verdict {
        Verdict::Holds(clock) => Verdict::Holds(clock + clocks),
        Verdict::Vacuous(clock) => Verdict::Vacuous(clock + clocks),
        Verdict::Fails(clock) => Verdict::Fails(clock + clocks),
        Verdict::Disabled(clock) => Verdict::Disabled(clock + clocks),
        Verdict::Open => Verdict::Open,
    }
}

impl Streak {
    ghost use Rattle.std.specs.Prelude.{◌≡◌, ◌+◌, ◌^◌, ◌<◌, ◌≤◌, ◌∷◌, ◌++◌, [], IfSome, map};
    ghost use Rattle.std.specs.List.{range_with_len};
    ghost use Rattle.machine_batches.specs.Ages.{nth, deciding_clock};
    ghost use Rattle.machine_batches.specs.Streaks.{streak_attempts};

    /// Of one attempt.
    pub fn of(one: Decided) -> Streak
        ensures attempts { streak_attempts result ≡ one ∷ [] }
        ensures count { result.count ≡ 1 }
    {
        Streak {
            first: one,
            count: 1,
        }
    }

    /// Of so many attempts, of which this is the first.
    pub fn from_first(first: Decided, attempts: u64) -> Streak
        requires starts { first.start + attempts ≤ 2 ^ 64 }
        requires clocks { deciding_clock first.verdict + attempts ≤ 2 ^ 64 }
        ensures { streak_attempts result ≡ map (nth first) (range_with_len 0 attempts) }
    {
        Streak {
            first,
            count: attempts,
        }
    }

    /// The attempt of a place, counted from 0.
    pub fn at(&self, place: u64) -> Decided
        requires { place < self.now.count }
        ensures { result ≡ nth self.now.first place }
    {
        let first = self.first;
        Decided {
            start: first.start + place,
            verdict: verdict_later(first.verdict, place),
        }
    }

    /// The streak with another one after it, where that goes on with it.
    #[inline]
    pub(crate) fn with(&self, more: Streak) -> Option<Streak>
        ensures { IfSome result (λ s.
            streak_attempts s ≡ streak_attempts self.now ++ streak_attempts more) }
    {
        let first = self.first;
        let one = more.first;
        let count = self.count.checked_add(more.count)?;
        if one.start.checked_sub(first.start)? != self.count
            || clocks_between(first.verdict, one.verdict)? != self.count
        {
            return None;
        }
        Some(Streak { first, count })
    }
}

/// How many clocks later the other verdict is, where it is of the same kind.
fn clocks_between(from: Verdict, to: Verdict) -> Option<u64>
    ensures { IfSome result (λ clocks. to ≡ verdict_moved clocks from) }
{
    match (from, to) {
        (Verdict::Holds(a), Verdict::Holds(b)) => b.checked_sub(a),
        (Verdict::Vacuous(a), Verdict::Vacuous(b)) => b.checked_sub(a),
        (Verdict::Fails(a), Verdict::Fails(b)) => b.checked_sub(a),
        (Verdict::Disabled(a), Verdict::Disabled(b)) => b.checked_sub(a),
        _ => None,
    }
}
