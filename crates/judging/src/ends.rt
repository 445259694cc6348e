//! Up to where a sequence matches, by tables.

ghost use Rattle.std.specs.Prelude.{◌<◌, ◌-◌, ◌^◌, IfOk, length};
ghost use Rattle.assertions.specs.Segments.{Seq, is_match};
ghost use Rattle.assertions.specs.Written.{one_of, after, later};
ghost use Rattle.assertions.specs.declared.sequence.Boolean.{Boolean};
ghost use Rattle.assertions.specs.declared.sequence.Boolean.TheVariants.{One};
ghost use Rattle.assertions.specs.Shapes.{shape};
ghost use Rattle.judging.specs.Tables.{passes_behind, held_at, IsRelation};

use crate::relation::{
    both, composition_behind, intersection_of, last_ticks, moved_places, next, places_throughout,
    repetition_of, same, starts_behind, union_of,
};
use crate::row::{every_place, some_mark};
use crate::seen::Seen;
use crate::table::Table;
use assertions::Sequence;
use std::alloc::{AllocError, Global};

/// The places up to which the sequence matches from each marked start. Each part of it is run once.
#[cycle(ends)]
pub(crate) fn ends_from(
    alloc: Global,
    sequence: &Sequence,
    seen: &Seen,
    starts: &[bool],
) -> Result<Table, AllocError>
    requires { length starts.now < 2 ^ 61 }
    ensures { IfOk result
        (IsRelation (is_match (held_at seen.now.values) (shape sequence.now)) starts.now) }
{
    if !some_mark(starts, 0, starts.len()) {
        return Ok(Table::new(alloc));
    }
    match sequence {
        Sequence::Boolean(boolean) => next(alloc, *boolean, seen, starts),
        Sequence::Delay(first, least, most, second) => {
            let fronts = ends_from(alloc, first, seen, starts)?;
            ends_delayed(alloc, &fronts, *least, *most, second, seen, starts)
        }
        Sequence::Lead(least, most, body) => ends_late(alloc, *least, *most, body, seen, starts),
        Sequence::Repeat(body, least, most) => {
            let every = every_place(alloc, starts.len())?;
            let bodies = ends_from(alloc, body, seen, every.as_slice())?;
            repetition_of(alloc, &bodies, *least, *most, starts)
        }
        Sequence::Or(one, other) => {
            let ones = ends_from(alloc, one, seen, starts)?;
            let others = ends_from(alloc, other, seen, starts)?;
            union_of(alloc, &ones, &others, starts)
        }
        Sequence::And(one, other) => {
            let ones = ends_from(alloc, one, seen, starts)?;
            let others = ends_from(alloc, other, seen, starts)?;
            both(alloc, &ones, &others, starts)
        }
        Sequence::Intersect(one, other) => {
            let ones = ends_from(alloc, one, seen, starts)?;
            let others = ends_from(alloc, other, seen, starts)?;
            intersection_of(alloc, &ones, &others, starts)
        }
        Sequence::Throughout(boolean, body) => {
            let bodies = ends_from(alloc, body, seen, starts)?;
            places_throughout(alloc, &bodies, *boolean, seen, starts)
        }
    }
}

/// The places up to which the second matches a number of ticks after the first, of which the table
/// has the ends.
#[cycle(ends)]
fn ends_delayed(
    alloc: Global,
    fronts: &Table,
    least: u8,
    most: u8,
    second: &Sequence,
    seen: &Seen,
    starts: &[bool],
) -> Result<Table, AllocError>
    requires { length starts.now < 2 ^ 61 }
    ensures { IfOk result (λ v. (r : Seq Boolean)
        → IsRelation (is_match (held_at seen.now.values) r) starts.now fronts.now
        → IsRelation (is_match (held_at seen.now.values)
        (one_of least (most - least) (after One r (shape second.now)))) starts.now v) }
{
    let end = least.max(most) as usize;
    let apart = moved_places(alloc, fronts, least.saturating_sub(1) as usize, end, starts)?;
    let together = last_ticks(alloc, fronts, least == 0, starts)?;
    ends_behind(alloc, &apart, &together, second, seen, starts)
}

/// The places up to which the body matches a number of ticks after each start.
#[cycle(ends)]
fn ends_late(
    alloc: Global,
    least: u8,
    most: u8,
    body: &Sequence,
    seen: &Seen,
    starts: &[bool],
) -> Result<Table, AllocError>
    requires { length starts.now < 2 ^ 61 }
    ensures { IfOk result (IsRelation (is_match (held_at seen.now.values)
        (one_of least (most - least) (later One (shape body.now)))) starts.now) }
{
    let here = same(alloc, true, starts)?;
    let end = least.max(most) as usize + 1;
    let apart = moved_places(alloc, &here, least as usize, end, starts)?;
    let none = Table::new(alloc);
    ends_behind(alloc, &apart, &none, body, seen, starts)
}

/// The places up to which the rest matches from those of the one table, or after those of the
/// other.
#[cycle(ends)]
fn ends_behind(
    alloc: Global,
    apart: &Table,
    together: &Table,
    rest: &Sequence,
    seen: &Seen,
    starts: &[bool],
) -> Result<Table, AllocError>
    requires { length starts.now < 2 ^ 61 }
    ensures { IfOk result (IsRelation (passes_behind apart.now together.now
        (is_match (held_at seen.now.values) (shape rest.now))) starts.now) }
{
    let begins = starts_behind(alloc, apart, together, starts)?;
    let rests = ends_from(alloc, rest, seen, begins.as_slice())?;
    composition_behind(alloc, apart, together, &rests, starts)
}
