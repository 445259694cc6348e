//! The verdict on an attempt.

ghost use Rattle.std.specs.Prelude.{◌≡◌, ◌<◌, length, IfOk, IfSome};
ghost use Rattle.assertions.specs.Quantifiers.{first_true};
ghost use Rattle.assertions.specs.Attempts.{decided_at, verdict_by, disabled_or};
ghost use Rattle.assertions.specs.Verdicts.{IsVerdictOver};
ghost use Rattle.expressions.specs.Rows.{HasCounts};
ghost use Rattle.judging.specs.Tables.{off_at};

use crate::course::{Course, course_of};
use crate::seen::Seen;
use assertions::{Assertion, Decision, Suite};
use expressions::Rows;
use signals::Verdict;
use std::alloc::{AllocError, Global};

/// The verdict, were the attempt not disabled at a tick from `start` up to `end`, each of which it
/// has seen.
#[tactic(auto, using(assertions::proofs::Quantifiers::searches))]
fn unless_disabled(
    assertion: &Assertion,
    seen: &Seen,
    start: usize,
    end: usize,
    otherwise: Verdict,
) -> Verdict
    ensures { result ≡ disabled_or
        (first_true start end (off_at seen.now.values assertion.now.disabling start)) otherwise }
{
    if let Some(disabling) = assertion.disabling {
        for tick in start..end {
            if seen.value(disabling, tick - start) {
                return Verdict::Disabled(tick as u64);
            }
        }
    }
    otherwise
}

/// The verdict of an attempt that is decided at `tick`.
fn verdict_at(decision: Decision, tick: usize) -> Verdict
    ensures { result ≡ decided_at decision tick }
{
    match decision {
        Decision::Held => Verdict::Holds(tick as u64),
        Decision::Vacuously => Verdict::Vacuous(tick as u64),
        Decision::Failed => Verdict::Fails(tick as u64),
    }
}

/// The verdict on the attempt that begins at `start`, from its course.
fn verdict_from(assertion: &Assertion, course: &Course, start: usize, end: usize) -> Verdict
    requires { IfSome course.now.found (λ f. start < f.0) }
    ensures { result ≡ verdict_by
        (off_at course.now.seen.values assertion.now.disabling start) start end course.now.found }
{
    match course.found {
        None => unless_disabled(assertion, &course.seen, start, end, Verdict::Open),
        Some((below, decision)) => unless_disabled(
            assertion,
            &course.seen,
            start,
            below,
            verdict_at(decision, below - 1),
        ),
    }
}

/// The verdict on the attempt of the assertion that begins at a tick (IEEE 1800-2017, 16.12.7),
/// over rows of the suite's signals and what its counters count over them.
///
/// Each boolean is evaluated at most once at each tick, and at none beyond the one that decides.
/// Only want of memory is refused.
pub fn judge(
    alloc: Global,
    assertion: &Assertion,
    suite: &Suite,
    rows: &Rows,
    tick: usize,
) -> Result<Verdict, AllocError>
    requires within { tick < length rows.now.signals }
    requires counted { HasCounts suite.now.counters.items rows.now }
    ensures { IfOk result (IsVerdictOver suite.now rows.now.signals assertion.now tick) }
{
    let end = rows.signals.len();
    let course = course_of(alloc, assertion, suite, rows, tick, end)?;
    Ok(verdict_from(assertion, &course, tick, end))
}
