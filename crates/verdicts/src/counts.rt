//! How many verdicts of each kind a batch has.

ghost use Rattle.std.specs.Prelude.{◌≡◌, ◌^◌};
ghost use Rattle.machine_batches.specs.Streaks.{streak_attempts};
ghost use Rattle.verdicts.specs.Counts.{counts_of};
ghost use Rattle.verdicts.specs.Shares.{EachAtMost};

use machine_batches::{Batch, Streak};
use signals::Verdict;

/// How many attempts of the streak hold, are vacuous, fail and are disabled.
fn streak_counts(streak: &Streak) -> [u64; 4]
    ensures { result ≡ counts_of (streak_attempts streak.now) }
{
    let count = streak.count;
    match streak.first.verdict {
        Verdict::Holds(_) => [count, 0, 0, 0],
        Verdict::Vacuous(_) => [0, count, 0, 0],
        Verdict::Fails(_) => [0, 0, count, 0],
        Verdict::Disabled(_) => [0, 0, 0, count],
        Verdict::Open => [0, 0, 0, 0],
    }
}

/// How many verdicts of the batch hold, are vacuous, fail and are disabled.
pub(crate) fn batch_counts(batch: &Batch) -> [u64; 4]
    requires { EachAtMost (counts_of batch.now.decided.items) (2 ^ 56) }
    ensures { result ≡ counts_of batch.now.decided.items }
{
    let mut holds = 0;
    let mut vacuous = 0;
    let mut fails = 0;
    let mut disabled = 0;
    for streak in batch.decided.as_slice() {
        let counts = streak_counts(streak);
        holds += counts[0];
        vacuous += counts[1];
        fails += counts[2];
        disabled += counts[3];
    }
    [holds, vacuous, fails, disabled]
}
