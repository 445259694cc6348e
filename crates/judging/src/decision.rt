//! How an attempt is decided.

ghost use Rattle.std.specs.Prelude.{◌≡◌, ◌≤◌, IfOk};
ghost use Rattle.assertions.specs.Segments.{longest};
ghost use Rattle.assertions.specs.Written.{weight, IsOrdered};
ghost use Rattle.assertions.specs.Attempts.{decide};
ghost use Rattle.assertions.specs.Shapes.{written_form, shape};
ghost use Rattle.judging.specs.Courses.{decision_from};

use crate::outlook::outlook_of;
use crate::row::some_mark;
use crate::seen::Seen;
use crate::sides::sides_of;
use assertions::{Assertion, Decision, HEAVIEST, Sequence, weight_of};
use std::alloc::{AllocError, Global};

/// A number of ticks that no match of the sequence is over.
pub(crate) fn most_ticks(sequence: &Sequence) -> usize
    requires ordered { IsOrdered (written_form sequence.now) }
    requires light { weight (written_form sequence.now) ≤ 127 }
    ensures covers { longest (shape sequence.now) ≤ result }
    ensures small { result ≤ 127 }
{
    weight_of(sequence).unwrap_or(HEAVIEST)
}

/// How the attempt is decided, where an obligation is broken or not, the antecedent may match on or
/// not, it ended or not, and each obligation is kept or not.
fn choose(broken: bool, goes_on: bool, ends: bool, kept: bool) -> Option<Decision>
    ensures { result ≡ decide broken goes_on ends kept }
{
    if broken {
        Some(Decision::Failed)
    } else if goes_on {
        None
    } else if !ends {
        Some(Decision::Vacuously)
    } else if kept {
        Some(Decision::Held)
    } else {
        None
    }
}

/// How the attempt is decided, by what it has seen.
#[tactic(auto, unfolding(assertions::specs::Attempts::decision))]
pub(crate) fn decision_of(
    alloc: Global,
    assertion: &Assertion,
    seen: &Seen,
) -> Result<Option<Decision>, AllocError>
    ensures { IfOk result (λ d. d ≡ decision_from seen.now.values assertion.now) }
{
    let below = seen.values.len();
    let sides = sides_of(alloc, assertion, seen)?;
    let ends = sides.ends.as_slice();
    let goes_on = some_mark(ends, below + 1, sides.count);
    let all = outlook_of(ends, &sides.consequents, below, sides.room);
    Ok(choose(all.broken, goes_on, all.ends, all.kept))
}
