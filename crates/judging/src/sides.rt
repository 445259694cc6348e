//! Up to where the sides of an assertion match, by what an attempt has seen.

ghost use Rattle.std.specs.Prelude.{IfOk};
ghost use Rattle.judging.specs.Courses.{AreSides};

use crate::decision::most_ticks;
use crate::ends::ends_from;
use crate::outlook::obligations_at;
use crate::row::{leading_row, only};
use crate::seen::Seen;
use crate::table::Table;
use assertions::Assertion;
use std::alloc::{AllocError, Global};

/// The places up to which the antecedent matches from the first one, of `count` places, the ticks
/// at which obligations begin, of `room`, and the places up to which the consequent matches from
/// these.
#[derive(Drop)]
pub(crate) struct Sides {
    pub count: usize,
    pub ends: Vec<bool>,
    pub room: usize,
    pub obligations: Vec<bool>,
    pub consequents: Table,
}

/// Up to where both sides match, by what the attempt has seen.
pub(crate) fn sides_of(
    alloc: Global,
    assertion: &Assertion,
    seen: &Seen,
) -> Result<Sides, AllocError>
    ensures { IfOk result (λ sides. AreSides seen.now.values assertion.now sides) }
{
    let below = seen.values.len();
    let count = most_ticks(&assertion.antecedent).max(below) + 1;
    let start = only(alloc, 0, true, count)?;
    let antecedents = ends_from(alloc, &assertion.antecedent, seen, start.as_slice())?;
    let ends = leading_row(alloc, antecedents.row(0), assertion.first, count)?;
    let room = below + most_ticks(&assertion.consequent) + 1;
    let obligations = obligations_at(alloc, ends.as_slice(), below, room)?;
    let consequents = ends_from(alloc, &assertion.consequent, seen, obligations.as_slice())?;
    Ok(Sides {
        count,
        ends,
        room,
        obligations,
        consequents,
    })
}
