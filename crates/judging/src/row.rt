//! Rows of marks, each made for one start.

ghost use Rattle.std.specs.Prelude.{◌≡◌, ℕ, ◌+◌, ◌-◌, ◌<◌, ◌≤◌, ◌&&◌, ◌||◌, ◌==◌, ◌^◌, true};
ghost use Rattle.std.specs.Prelude.{nat_le, not, IfOk, length};
ghost use Rattle.assertions.specs.Quantifiers.{some_in, each_in};
ghost use Rattle.judging.specs.Tables.{marks, has_link, held_at, IsRow};

use crate::seen::Seen;
use crate::table::{Table, is_marked};
use assertions::Boolean;
use std::alloc::{AllocError, Global};

/// Whether the row has a place from the first up to the end.
#[tactic(auto, using(assertions::proofs::Quantifiers::searches))]
pub(crate) fn some_mark(row: &[bool], from: usize, end: usize) -> bool
    ensures { result ≡ some_in from end (marks row.now) }
{
    for place in from..end {
        if is_marked(row, place) {
            return true;
        }
    }
    false
}

/// The one place, if that is asked for.
pub(crate) fn only(
    alloc: Global,
    start: usize,
    marked: bool,
    count: usize,
) -> Result<Vec<bool>, AllocError>
    ensures { IfOk result (λ row. IsRow (λ j. (j == start) && marked) count row.items) }
{
    let mut row = Vec::with_capacity(alloc, count)?;
    for place in 0..count {
        row.push(place == start && marked)?;
    }
    Ok(row)
}

/// All of so many places.
pub(crate) fn every_place(alloc: Global, count: usize) -> Result<Vec<bool>, AllocError>
    ensures { IfOk result (λ row. IsRow (λ j. true) count row.items) }
{
    let mut row = Vec::with_capacity(alloc, count)?;
    for _place in 0..count {
        row.push(true)?;
    }
    Ok(row)
}

/// Marks what lies so far after the places of the other row.
fn merge_behind(row: &mut Vec<bool>, front: &[bool], gap: usize)
    ensures long { length row.new.items ≡ length row.old.items }
    ensures each { (j : ℕ) → j < length row.old.items → marks row.new.items j
        ≡ (marks row.old.items j || (nat_le gap j && marks front.now (j - gap))) }
{
    let room = row.len().saturating_sub(gap);
    for place in 0..front.len().min(room) {
        row[gap + place] |= front[place];
    }
}

/// The places that lie after those of the row by a number from the least up to below the end.
pub(crate) fn moved_row(
    alloc: Global,
    front: &[bool],
    least: usize,
    end: usize,
    count: usize,
) -> Result<Vec<bool>, AllocError>
    ensures { IfOk result (λ row. IsRow (λ j.
        some_in least end (λ gap. nat_le gap j && marks front.now (j - gap))) count row.items) }
{
    let mut row = only(alloc, 0, false, count)?;
    for gap in least..end {
        merge_behind(&mut row, front, gap);
    }
    Ok(row)
}

/// The last ticks of what ends at the row's places and isn't empty, if that is asked for.
pub(crate) fn shared_row(
    alloc: Global,
    front: &[bool],
    start: usize,
    wanted: bool,
    count: usize,
) -> Result<Vec<bool>, AllocError>
    requires { count < 2 ^ 61 }
    ensures { IfOk result (λ row.
        IsRow (λ j. wanted && (nat_le start j && marks front.now (j + 1))) count row.items) }
{
    let mut row = Vec::with_capacity(alloc, count)?;
    for place in 0..count {
        row.push(wanted && start <= place && is_marked(front, place + 1))?;
    }
    Ok(row)
}

/// Marks what the other row has from a place on.
pub(crate) fn merge_from(row: &mut Vec<bool>, more: &[bool], from: usize)
    ensures long { length row.new.items ≡ length row.old.items }
    ensures each { (j : ℕ) → j < length row.old.items
        → marks row.new.items j ≡ (marks row.old.items j || (nat_le from j && marks more.now j)) }
{
    for place in from..row.len().min(more.len()) {
        row[place] |= more[place];
    }
}

/// The places that the table reaches from those of the row, so many ticks further on at least.
#[tactic(auto, using(assertions::proofs::Quantifiers::searches))]
pub(crate) fn joined_row(
    alloc: Global,
    front: &[bool],
    rest: &Table,
    gap: usize,
    count: usize,
) -> Result<Vec<bool>, AllocError>
    requires { gap ≤ 1 }
    ensures { IfOk result (λ row. IsRow (λ j. some_in 0 (length front.now)
        (λ m. marks front.now m &&
        (nat_le (m + gap) j && has_link rest.now m j))) count row.items) }
{
    let mut row = only(alloc, 0, false, count)?;
    for place in 0..front.len() {
        if !front[place] {
            continue;
        }
        merge_from(&mut row, rest.row(place), place + gap);
    }
    Ok(row)
}

/// The places of both rows.
pub(crate) fn merged_row(
    alloc: Global,
    one: &[bool],
    other: &[bool],
    count: usize,
) -> Result<Vec<bool>, AllocError>
    ensures { IfOk result
        (λ row. IsRow (λ j. marks one.now j || marks other.now j) count row.items) }
{
    let mut row = Vec::with_capacity(alloc, count)?;
    for place in 0..count {
        row.push(is_marked(one, place) || is_marked(other, place))?;
    }
    Ok(row)
}

/// The places of the row, or the first of them alone.
#[tactic(auto, using(assertions::proofs::Quantifiers::searches))]
pub(crate) fn leading_row(
    alloc: Global,
    ends: &[bool],
    first: bool,
    count: usize,
) -> Result<Vec<bool>, AllocError>
    ensures { IfOk result (λ row. IsRow (λ j. marks ends.now j
        && (not first || each_in 0 j (λ k. not (marks ends.now k)))) count row.items) }
{
    let mut row = Vec::with_capacity(alloc, count)?;
    let mut counts = true;
    for place in 0..count {
        let here = is_marked(ends, place);
        row.push(here & counts)?;
        counts &= !(first & here);
    }
    Ok(row)
}

/// The places that both rows have.
pub(crate) fn common_row(
    alloc: Global,
    one: &[bool],
    other: &[bool],
    count: usize,
) -> Result<Vec<bool>, AllocError>
    ensures { IfOk result
        (λ row. IsRow (λ j. marks one.now j && marks other.now j) count row.items) }
{
    let mut row = Vec::with_capacity(alloc, count)?;
    for place in 0..count {
        row.push(is_marked(one, place) && is_marked(other, place))?;
    }
    Ok(row)
}

/// Whether the later of two ends is here, where each may have ended before.
fn is_later_end(one: bool, one_ended: bool, other: bool, other_ended: bool) -> bool
    ensures { result ≡ ((one && other_ended) || (one_ended && other)) }
{
    (one && other_ended) || (one_ended && other)
}

/// The places of one row with a place of the other there or before.
#[tactic(auto, using(assertions::proofs::Quantifiers::searches))]
pub(crate) fn both_row(
    alloc: Global,
    one: &[bool],
    other: &[bool],
    count: usize,
) -> Result<Vec<bool>, AllocError>
    ensures { IfOk result (λ row. IsRow (λ j.
        (marks one.now j && some_in 0 (j + 1) (marks other.now))
        || (some_in 0 (j + 1) (marks one.now) && marks other.now j)) count row.items) }
{
    let mut row = Vec::with_capacity(alloc, count)?;
    let mut one_ended = false;
    let mut other_ended = false;
    for place in 0..count {
        one_ended |= is_marked(one, place);
        other_ended |= is_marked(other, place);
        let here = is_later_end(
            is_marked(one, place),
            one_ended,
            is_marked(other, place),
            other_ended,
        );
        row.push(here)?;
    }
    Ok(row)
}

/// Whether the boolean holds at a tick, or the tick lies before a place.
fn holds_from(place: usize, boolean: Boolean, seen: &Seen, tick: usize) -> bool
    ensures { result ≡ (nat_le (tick + 1) place || held_at seen.now.values boolean tick) }
{
    tick < place || seen.holds(boolean, tick)
}

/// The places of the row up to which the boolean is true at each tick from a place on.
#[tactic(auto, using(assertions::proofs::Quantifiers::searches))]
pub(crate) fn kept_row(
    alloc: Global,
    body: &[bool],
    boolean: Boolean,
    seen: &Seen,
    start: usize,
    count: usize,
) -> Result<Vec<bool>, AllocError>
    ensures { IfOk result (λ row.
        IsRow (λ j. marks body.now j && each_in start j (held_at seen.now.values boolean))
        count row.items) }
{
    let mut row = Vec::with_capacity(alloc, count)?;
    let mut holds = true;
    for place in 0..count {
        row.push(is_marked(body, place) & holds)?;
        holds &= holds_from(start, boolean, seen, place);
    }
    Ok(row)
}
