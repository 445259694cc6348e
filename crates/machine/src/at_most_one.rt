//! What is live where it is little.

ghost use Rattle.std.specs.Prelude.{◌≡◌, ◌+◌, ◌^◌, ◌<◌, ◌≤◌, length, map, IsTrue};
ghost use Rattle.machine.specs.Records.{attempt_of, obligation_of};
ghost use Rattle.machine.specs.Few.{listed, WereOpened};
ghost use Rattle.machine.specs.Later.{attempt_later, obligation_later};
ghost use Rattle.machine.specs.Live.{attempts_in, obligations_in, HaveBegun};

use crate::attempt::AttemptRecord;
use crate::obligation::ObligationRecord;
use attempt_pool::Pool;

/// What is live, where that is one attempt at most and one obligation at most.
#[derive(Clone, Copy)]
pub(crate) struct Few {
    pub(crate) attempt: Option<AttemptRecord>,
    pub(crate) obligation: Option<ObligationRecord>,
}

/// What is live, as far as it is little.
#[derive(Clone, Copy)]
pub(crate) enum Little {
    Nothing,
    Few(Few),
    /// More attempts or more obligations.
    Much,
}

/// The attempt of a pool with one at most.
pub(crate) fn only_attempt(pool: &Pool<AttemptRecord>) -> Option<AttemptRecord>
    requires { length pool.now.live ≤ 1 }
    ensures { attempts_in pool.now.live ≡ map attempt_of (listed result) }
{
    let slot = pool.first()?;
    Some(pool.get(slot))
}

/// The obligation of a pool with one at most.
pub(crate) fn only_obligation(pool: &Pool<ObligationRecord>) -> Option<ObligationRecord>
    requires { length pool.now.live ≤ 1 }
    ensures { obligations_in pool.now.live ≡ map obligation_of (listed result) }
{
    let slot = pool.first()?;
    Some(pool.get(slot))
}

/// Moves the attempt of a pool with one at most to so many clocks later. It began at the tick `now`
/// or before.
pub(crate) fn move_attempt(pool: &mut Pool<AttemptRecord>, now: u64, clocks: u64)
    requires few { length pool.old.live ≤ 1 }
    requires begun { HaveBegun now (attempts_in pool.old.live) }
    requires more { now + clocks < 2 ^ 64 }
    ensures cap { pool.new.cap ≡ pool.old.cap }
    ensures later { attempts_in pool.new.live
        ≡ map (attempt_later clocks) (attempts_in pool.old.live) }
{
    let _ = now;
    if let Some(slot) = pool.first() {
        let attempt = pool.get(slot);
        let start = attempt.start + clocks;
        pool.set(
            slot,
            AttemptRecord {
                start,
                positions: attempt.positions,
                awaited: attempt.awaited,
            },
        );
    }
}

/// Moves the obligation of a pool with one at most to so many clocks later. It was opened at the
/// tick `now` or before.
pub(crate) fn move_obligation(pool: &mut Pool<ObligationRecord>, now: u64, clocks: u64)
    requires few { length pool.old.live ≤ 1 }
    requires begun { WereOpened now (obligations_in pool.old.live) }
    requires more { now + clocks < 2 ^ 64 }
    ensures cap { pool.new.cap ≡ pool.old.cap }
    ensures later { obligations_in pool.new.live
        ≡ map (obligation_later clocks) (obligations_in pool.old.live) }
{
    let _ = now;
    if let Some(slot) = pool.first() {
        let obligation = pool.get(slot);
        let tick = obligation.tick + clocks;
        pool.set(
            slot,
            ObligationRecord {
                tick,
                positions: obligation.positions,
            },
        );
    }
}

/// Whether the one attempt, if any, is the other one clock later.
pub(crate) fn is_attempt_later(before: Option<AttemptRecord>, after: Option<AttemptRecord>) -> bool
    ensures { IsTrue result → map attempt_of (listed after)
        ≡ map (attempt_later 1) (map attempt_of (listed before)) }
{
    match (before, after) {
        (None, None) => true,
        (Some(a), Some(b)) => {
            b.start > a.start
                && b.start - a.start == 1
                && b.positions == a.positions
                && b.awaited == a.awaited
        }
        _ => false,
    }
}

/// Whether the one obligation, if any, is the other one clock later.
pub(crate) fn is_obligation_later(
    before: Option<ObligationRecord>,
    after: Option<ObligationRecord>,
) -> bool
    ensures { IsTrue result → map obligation_of (listed after)
        ≡ map (obligation_later 1) (map obligation_of (listed before)) }
{
    match (before, after) {
        (None, None) => true,
        (Some(a), Some(b)) => {
            b.tick > a.tick && b.tick - a.tick == 1 && b.positions == a.positions
        }
        _ => false,
    }
}
