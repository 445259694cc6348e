//! Why an attempt failed.

ghost use Rattle.std.specs.Prelude.{◌≡◌, ◌⊎◌, ℕ, ◌+◌, ◌-◌, ◌<◌, ◌≤◌, ◌^◌, ◌↔◌, ◌&&◌, not};
ghost use Rattle.std.specs.Prelude.{IfOk, IsTrue, MatchOption, Contains, length};
ghost use Rattle.assertions.specs.Quantifiers.{some_in, first_true};
ghost use Rattle.assertions.specs.Attempts.{Fails};
ghost use Rattle.assertions.specs.Shapes.{shape};
ghost use Rattle.assertions.specs.Verdicts.{antecedent_of};
ghost use Rattle.judging.specs.Tables.{marks, has_link, HasSeen};
ghost use Rattle.judging.specs.Courses.{value_over};
ghost use Rattle.judging.specs.Causes.{IsCause, IsEndTick};

use crate::row::some_mark;
use crate::seen::{Seen, values_at};
use crate::sides::sides_of;
use crate::table::{Table, is_marked};
use assertions::{Assertion, Suite};
use expressions::Rows;
use std::alloc::{AllocError, Global};

/// Why an attempt failed, in ticks of the rows.
#[derive(Drop, Debug)]
pub struct Cause {
    /// The ticks with which matches of the antecedent ended, in rising order.
    pub ends: Vec<usize>,
    /// The first of them from which no match of the consequent is possible any more.
    pub broken: usize,
}

/// What an attempt that begins at `start` has seen of the ticks up to `end`.
fn seen_between(
    alloc: Global,
    assertion: &Assertion,
    suite: &Suite,
    rows: &Rows,
    start: usize,
    end: usize,
) -> Result<Seen, AllocError>
    requires { start < end }
    ensures seen { IfOk result (λ seen.
        HasSeen (value_over suite.now rows.now assertion.now) start seen.values) }
    ensures long { IfOk result (λ seen. start + length seen.values ≡ end) }
{
    let mut seen = Seen {
        values: Table::new(alloc),
    };
    for tick in start..end {
        let all = suite.booleans.as_slice();
        let values = values_at(alloc, all, assertion.booleans.as_slice(), rows, tick)?;
        seen.values.push(values)?;
    }
    Ok(seen)
}

/// The first place below a bound with which the antecedent ends, and from which the consequent
/// matches up to no place.
#[tactic(auto, using(assertions::proofs::Quantifiers::searches))]
fn first_broken(ends: &[bool], consequents: &Table, below: usize, count: usize) -> Option<usize>
    requires { below < 2 ^ 60 }
    ensures { result ≡ first_true 0 below (λ e.
        marks ends.now (e + 1) && not (some_in e count (has_link consequents.now e))) }
{
    for place in 0..below {
        if is_marked(ends, place + 1) && !some_mark(consequents.row(place), place, count) {
            return Some(place);
        }
    }
    None
}

/// The ticks from `start` on, so many places on, with which the antecedent ends.
fn ticks_with_end(
    alloc: Global,
    ends: &[bool],
    start: usize,
    below: usize,
) -> Result<Vec<usize>, AllocError>
    requires { start + below < 2 ^ 64 }
    ensures { IfOk result (λ ticks. (tick : ℕ)
        → Contains ticks.items tick ↔ IsEndTick ends.now start below tick) }
{
    let mut ticks = Vec::new(alloc);
    for place in 0..below {
        if is_marked(ends, place + 1) {
            ticks.push(start + place)?;
        }
    }
    Ok(ticks)
}

/// Why the attempt that begins at the tick `start` failed, where the ticks below `end` were seen;
/// or none, where no obligation is broken by then. Only want of memory is refused.
///
/// Where the verdict on the attempt is `Fails(tick)`, it failed by `end = tick + 1`.
pub fn cause_of(
    alloc: Global,
    assertion: &Assertion,
    suite: &Suite,
    rows: &Rows,
    start: usize,
    end: usize,
) -> Result<Option<Cause>, AllocError>
    requires order { start < end }
    requires within { end ≤ length rows.now.signals }
    ensures { IfOk result (λ cause. MatchOption cause
        (Fails (value_over suite.now rows.now assertion.now) (antecedent_of assertion.now)
        (shape assertion.now.consequent) end start → ⊥)
        (IsCause (value_over suite.now rows.now assertion.now) (antecedent_of assertion.now)
        (shape assertion.now.consequent) end start)) }
{
    let seen = seen_between(alloc, assertion, suite, rows, start, end)?;
    let below = seen.values.len();
    let sides = sides_of(alloc, assertion, &seen)?;
    let ends = sides.ends.as_slice();
    match first_broken(ends, &sides.consequents, below, sides.room) {
        None => Ok(None),
        Some(place) => {
            let ends = ticks_with_end(alloc, ends, start, below)?;
            Ok(Some(Cause {
                ends,
                broken: start + place,
            }))
        }
    }
}
