//! Tables of what starts reach, made from others. Each row is made for one marked start.

ghost use Rattle.std.specs.Prelude.{◌≡◌, ℕ, ◌+◌, ◌-◌, ◌<◌, ◌≤◌, ◌&&◌, ◌||◌, ◌==◌, ◌^◌, true};
ghost use Rattle.std.specs.Prelude.{nat_le, IsTrue, IfOk, length};
ghost use Rattle.assertions.specs.Quantifiers.{some_in, each_in};
ghost use Rattle.assertions.specs.Segments.{chain};
ghost use Rattle.judging.specs.Tables.{marks, has_link, held_at, reached_from, IsRelation};

use crate::row::{
    both_row, common_row, joined_row, kept_row, merge_from, merged_row, moved_row, only, shared_row,
};
use crate::seen::Seen;
use crate::table::Table;
use assertions::Boolean;
use std::alloc::{AllocError, Global};

/// Each start itself, if that is asked for.
pub(crate) fn same(alloc: Global, wanted: bool, starts: &[bool]) -> Result<Table, AllocError>
    ensures { IfOk result (IsRelation (λ i j. (j == i) && wanted) starts.now) }
{
    let mut all = Table::new(alloc);
    for place in 0..starts.len() {
        if !starts[place] {
            all.push(Vec::new(alloc))?;
            continue;
        }
        let row = only(alloc, place, wanted, starts.len())?;
        all.push(row)?;
    }
    Ok(all)
}

/// The place after each start at which the boolean holds.
pub(crate) fn next(
    alloc: Global,
    boolean: Boolean,
    seen: &Seen,
    starts: &[bool],
) -> Result<Table, AllocError>
    requires { length starts.now < 2 ^ 61 }
    ensures { IfOk result
        (IsRelation (λ i j. (j == i + 1) && held_at seen.now.values boolean i) starts.now) }
{
    let mut all = Table::new(alloc);
    for place in 0..starts.len() {
        if !starts[place] {
            all.push(Vec::new(alloc))?;
            continue;
        }
        let row = only(alloc, place + 1, seen.holds(boolean, place), starts.len())?;
        all.push(row)?;
    }
    Ok(all)
}

/// The places that lie so far after those of each start.
pub(crate) fn moved_places(
    alloc: Global,
    front: &Table,
    least: usize,
    end: usize,
    starts: &[bool],
) -> Result<Table, AllocError>
    ensures { IfOk result (IsRelation (λ i j.
        some_in least end (λ gap. nat_le gap j && has_link front.now i (j - gap))) starts.now) }
{
    let mut all = Table::new(alloc);
    for place in 0..starts.len() {
        if !starts[place] {
            all.push(Vec::new(alloc))?;
            continue;
        }
        let row = moved_row(alloc, front.row(place), least, end, starts.len())?;
        all.push(row)?;
    }
    Ok(all)
}

/// The last ticks of what ends at the places of each start and isn't empty, if that is asked for.
pub(crate) fn last_ticks(
    alloc: Global,
    front: &Table,
    wanted: bool,
    starts: &[bool],
) -> Result<Table, AllocError>
    requires { length starts.now < 2 ^ 61 }
    ensures { IfOk result
        (IsRelation (λ i j. wanted && (nat_le i j && has_link front.now i (j + 1))) starts.now) }
{
    let mut all = Table::new(alloc);
    for place in 0..starts.len() {
        if !starts[place] {
            all.push(Vec::new(alloc))?;
            continue;
        }
        let row = shared_row(alloc, front.row(place), place, wanted, starts.len())?;
        all.push(row)?;
    }
    Ok(all)
}

/// What the second table reaches from the places of each start, so many ticks further on at least.
pub(crate) fn composition_of(
    alloc: Global,
    front: &Table,
    rest: &Table,
    gap: usize,
    starts: &[bool],
) -> Result<Table, AllocError>
    requires { gap ≤ 1 }
    ensures { IfOk result (IsRelation (reached_from front.now rest.now gap) starts.now) }
{
    let mut all = Table::new(alloc);
    for place in 0..starts.len() {
        if !starts[place] {
            all.push(Vec::new(alloc))?;
            continue;
        }
        let row = joined_row(alloc, front.row(place), rest, gap, starts.len())?;
        all.push(row)?;
    }
    Ok(all)
}

/// What each start reaches in one of the tables.
pub(crate) fn union_of(
    alloc: Global,
    one: &Table,
    other: &Table,
    starts: &[bool],
) -> Result<Table, AllocError>
    ensures { IfOk result
        (IsRelation (λ i j. has_link one.now i j || has_link other.now i j) starts.now) }
{
    let mut all = Table::new(alloc);
    for place in 0..starts.len() {
        if !starts[place] {
            all.push(Vec::new(alloc))?;
            continue;
        }
        let row = merged_row(alloc, one.row(place), other.row(place), starts.len())?;
        all.push(row)?;
    }
    Ok(all)
}

/// What each start reaches in both tables.
pub(crate) fn intersection_of(
    alloc: Global,
    one: &Table,
    other: &Table,
    starts: &[bool],
) -> Result<Table, AllocError>
    ensures { IfOk result
        (IsRelation (λ i j. has_link one.now i j && has_link other.now i j) starts.now) }
{
    let mut all = Table::new(alloc);
    for place in 0..starts.len() {
        if !starts[place] {
            all.push(Vec::new(alloc))?;
            continue;
        }
        let row = common_row(alloc, one.row(place), other.row(place), starts.len())?;
        all.push(row)?;
    }
    Ok(all)
}

/// Where both have ended, and one of them ends.
pub(crate) fn both(
    alloc: Global,
    one: &Table,
    other: &Table,
    starts: &[bool],
) -> Result<Table, AllocError>
    ensures { IfOk result (IsRelation (λ i j.
        (has_link one.now i j && some_in 0 (j + 1) (has_link other.now i))
        || (some_in 0 (j + 1) (has_link one.now i) && has_link other.now i j)) starts.now) }
{
    let mut all = Table::new(alloc);
    for place in 0..starts.len() {
        if !starts[place] {
            all.push(Vec::new(alloc))?;
            continue;
        }
        let row = both_row(alloc, one.row(place), other.row(place), starts.len())?;
        all.push(row)?;
    }
    Ok(all)
}

/// The places of each start up to which the boolean is true.
pub(crate) fn places_throughout(
    alloc: Global,
    body: &Table,
    boolean: Boolean,
    seen: &Seen,
    starts: &[bool],
) -> Result<Table, AllocError>
    ensures { IfOk result (IsRelation
        (λ i j. has_link body.now i j && each_in i j
        (held_at seen.now.values boolean)) starts.now) }
{
    let mut all = Table::new(alloc);
    for place in 0..starts.len() {
        if !starts[place] {
            all.push(Vec::new(alloc))?;
            continue;
        }
        let row = kept_row(alloc, body.row(place), boolean, seen, place, starts.len())?;
        all.push(row)?;
    }
    Ok(all)
}

/// The places that some marked start reaches.
pub(crate) fn reached_places(
    alloc: Global,
    table: &Table,
    starts: &[bool],
) -> Result<Vec<bool>, AllocError>
    ensures long { IfOk result (λ v. length v.items ≡ length starts.now) }
    ensures each { IfOk result (λ v. (i j : ℕ) → IsTrue (marks starts.now i) → j < length starts.now
        → IsTrue (has_link table.now i j) → IsTrue (marks v.items j)) }
{
    let mut all = only(alloc, 0, false, starts.len())?;
    for place in 0..starts.len() {
        if starts[place] {
            merge_from(&mut all, table.row(place), 0);
        }
    }
    Ok(all)
}

/// The places after those of the one table, and those of the other.
pub(crate) fn starts_behind(
    alloc: Global,
    moved: &Table,
    shared: &Table,
    starts: &[bool],
) -> Result<Vec<bool>, AllocError>
    ensures long { IfOk result (λ v. length v.items ≡ length starts.now) }
    ensures moved { IfOk result (λ v. (i j : ℕ) → IsTrue (marks starts.now i)
        → j < length starts.now → IsTrue (has_link moved.now i j) → IsTrue (marks v.items j)) }
    ensures shared { IfOk result (λ v. (i j : ℕ) → IsTrue (marks starts.now i)
        → j < length starts.now → IsTrue (has_link shared.now i j) → IsTrue (marks v.items j)) }
{
    let mut all = reached_places(alloc, moved, starts)?;
    let more = reached_places(alloc, shared, starts)?;
    merge_from(&mut all, more.as_slice(), 0);
    Ok(all)
}

/// What a table reaches from the places of the one, and after the places of the other.
pub(crate) fn composition_behind(
    alloc: Global,
    moved: &Table,
    shared: &Table,
    rests: &Table,
    starts: &[bool],
) -> Result<Table, AllocError>
    ensures { IfOk result (IsRelation (λ i j.
        reached_from moved.now rests.now 0 i j
        || reached_from shared.now rests.now 1 i j) starts.now) }
{
    let apart = composition_of(alloc, moved, rests, 0, starts)?;
    let together = composition_of(alloc, shared, rests, 1, starts)?;
    union_of(alloc, &apart, &together, starts)
}

/// What the table reaches by so many steps, from the least number of them to the most.
pub(crate) fn repetition_of(
    alloc: Global,
    bodies: &Table,
    least: u8,
    most: u8,
    starts: &[bool],
) -> Result<Table, AllocError>
    ensures { IfOk result (IsRelation
        (λ i j. some_in least (most + 1) (λ k. chain (has_link bodies.now) k i j)) starts.now) }
{
    let mut last = same(alloc, true, starts)?;
    let mut all = same(alloc, least == 0, starts)?;
    for count in 0..most {
        last = composition_of(alloc, &last, bodies, 0, starts)?;
        if count + 1 < least {
            continue;
        }
        all = union_of(alloc, &all, &last, starts)?;
    }
    Ok(all)
}
