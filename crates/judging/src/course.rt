//! What an attempt sees up to its decision.

ghost use Rattle.std.specs.Prelude.{◌≡◌, ◌+◌, ◌^◌, ◌<◌, length, IfOk, IfSome};
ghost use Rattle.assertions.specs.Quantifiers.{first_in};
ghost use Rattle.judging.specs.Tables.{seen_end, HasSeen};
ghost use Rattle.judging.specs.Courses.{value_over, decision_over};

use crate::decision::decision_of;
use crate::seen::{Seen, values_at};
use crate::table::Table;
use assertions::{Assertion, Decision, Suite};
use expressions::Rows;
use std::alloc::{AllocError, Global};

/// What an attempt has seen, and by how many ticks and how it was decided, if it was.
#[derive(Drop)]
pub(crate) struct Course {
    pub seen: Seen,
    pub found: Option<(usize, Decision)>,
}

/// The course of the attempt that begins at `start`, up to its decision.
#[tactic(auto, using(assertions::proofs::Quantifiers::searches))]
pub(crate) fn course_of(
    alloc: Global,
    assertion: &Assertion,
    suite: &Suite,
    rows: &Rows,
    start: usize,
    end: usize,
) -> Result<Course, AllocError>
    requires order { start < end }
    requires room { end < 2 ^ 60 }
    ensures found { IfOk result (λ course. course.found ≡ first_in (start + 1) (end + 1)
        (decision_over suite.now rows.now assertion.now start)) }
    ensures above { IfOk result (λ course. IfSome course.found (λ f. start < f.0)) }
    ensures seen { IfOk result (λ course.
        HasSeen (value_over suite.now rows.now assertion.now) start course.seen.values) }
    ensures long { IfOk result (λ course.
        start + length course.seen.values ≡ seen_end end course.found) }
{
    let mut seen = Seen {
        values: Table::new(alloc),
    };
    for below in start + 1..end + 1 {
        let all = suite.booleans.as_slice();
        let values = values_at(alloc, all, assertion.booleans.as_slice(), rows, below - 1)?;
        seen.values.push(values)?;
        if let Some(decision) = decision_of(alloc, assertion, &seen)? {
            let found = Some((below, decision));
            return Ok(Course { seen, found });
        }
    }
    Ok(Course { seen, found: None })
}
