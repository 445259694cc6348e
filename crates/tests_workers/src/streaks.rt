//! Decided attempts, kept as streaks and read back.

use machine_batches::{Streak, Streaks};
use signals::{Decided, Verdict};
use std::alloc::Global;
use std::test::Fail;

/// Attempts, with the streak in which each stands: two that hold at their second clock; one more of
/// these after a gap; one at the clock after, at another age; then two failures, and one disabled.
const PLACES: [(u64, Verdict, usize); 7] = [
    (5, Verdict::Holds(6), 0),
    (6, Verdict::Holds(7), 0),
    (8, Verdict::Holds(9), 1),
    (9, Verdict::Holds(9), 2),
    (10, Verdict::Fails(12), 3),
    (11, Verdict::Fails(13), 3),
    (12, Verdict::Disabled(13), 4),
];

/// These attempts.
fn kept(alloc: Global) -> Result<Streaks, Fail> {
    let mut streaks = Streaks::new(alloc);
    for (start, verdict, _) in PLACES {
        streaks.reserve(1)?;
        streaks.push(Decided { start, verdict });
    }
    Ok(streaks)
}

/// Whether the attempts of the streak are the next of the table, all in the streak of that number.
fn is_next(streak: &Streak, number: usize, next: &mut usize) -> bool {
    for place in 0..streak.count {
        let Some(&(start, verdict, wanted)) = PLACES.get(*next) else {
            return false;
        };
        if streak.at(place) != (Decided { start, verdict }) || wanted != number {
            return false;
        }
        *next = next.saturating_add(1);
    }
    true
}

#[test]
fn attempts_come_back(rt: HostRuntime) -> Result<(), Fail> {
    let streaks = kept(rt.alloc())?;
    let mut next = 0;
    for (number, streak) in streaks.as_slice().iter().enumerate() {
        assert!(rt; is_next(streak, number, &mut next));
    }
    assert!(rt; next == 7);
    assert!(rt; streaks.as_slice().len() == 5);
    Ok(())
}
