//! The entries of named sequences.

ghost use Rattle.std.specs.Prelude.{◌≡◌, ◌<◌, ◌≤◌, ◌⊎◌, ℕ, true, false, List, map, length, IfOk};
ghost use Rattle.std.specs.Prelude.{OnOk, IfNone, IfSome, Some, slice_set};
ghost use Rattle.types.specs.Drafts.{name, uses, uses_at, AllDeclared};
ghost use Rattle.types.specs.Cycles.{ReachesCycle};
ghost use Rattle.types.specs.Views.{draft_of};
ghost use Rattle.types.specs.Entries.{Bodies, HasEntry, IsEntryOf, IsEntryTable};
ghost use Rattle.types.specs.Entries.{LacksOne};
ghost use Rattle.types.specs.Entries.{Accounts, AllLack, has_entry};

use crate::cyclic::all_places;
use crate::draft::Draft;
use crate::entry::Entry;
use assertions::Boolean;
use std::alloc::{AllocError, Global};

/// A copy of the entry at a place.
fn entry_at(
    alloc: Global,
    table: &[Option<Entry>],
    place: usize,
) -> Result<Option<Entry>, AllocError>
    ensures lacking { IfOk result (λ o. IfNone o (has_entry table.now place ≡ false)) }
    ensures entry { IfOk result
        (λ o. IfSome o (λ e. (bodies : Bodies) → IsEntryTable bodies table.now
        → HasEntry bodies (name place) e)) }
{
    match table.get(place) {
        Some(Some(entry)) => Ok(Some(entry.copy(alloc)?)),
        Some(None) => Ok(None),
        None => Ok(None),
    }
}

/// The entry of a sequence, from those of the names that it uses; none where one of them has none.
pub fn entry_of(
    alloc: Global,
    draft: &Draft,
    table: &[Option<Entry>],
) -> Result<Option<Entry>, AllocError>
    ensures lacking { IfOk result (λ o. IfNone o (LacksOne table.now (uses (draft_of draft.now)))) }
    ensures entry { IfOk result
        (λ o. IfSome o (λ e. (bodies : Bodies) → IsEntryTable bodies table.now
        → HasEntry bodies (draft_of draft.now) e)) }
{
    match draft {
        Draft::One => Ok(Some(Entry::boolean(alloc, Boolean::One)?)),
        Draft::Boolean(place) => Ok(Some(Entry::boolean(alloc, Boolean::Listed(*place))?)),
        Draft::Name(place) => entry_at(alloc, table, *place),
        Draft::Delay(first, least, extra, second) => {
            let Some(first) = entry_of(alloc, first, table)? else {
                return Ok(None);
            };
            let Some(second) = entry_of(alloc, second, table)? else {
                return Ok(None);
            };
            Ok(Some(first.delay(alloc, *least, *extra, second)?))
        }
        Draft::Lead(least, extra, body) => {
            let Some(body) = entry_of(alloc, body, table)? else {
                return Ok(None);
            };
            Ok(Some(body.lead(alloc, *least, *extra)?))
        }
        Draft::Repeat(body, least, extra) => {
            let Some(body) = entry_of(alloc, body, table)? else {
                return Ok(None);
            };
            Ok(Some(body.repeat(alloc, *least, *extra)?))
        }
        Draft::Or(first, second) => {
            let Some(first) = entry_of(alloc, first, table)? else {
                return Ok(None);
            };
            let Some(second) = entry_of(alloc, second, table)? else {
                return Ok(None);
            };
            Ok(Some(first.or(alloc, second)?))
        }
        Draft::And(first, second) => {
            let Some(first) = entry_of(alloc, first, table)? else {
                return Ok(None);
            };
            let Some(second) = entry_of(alloc, second, table)? else {
                return Ok(None);
            };
            Ok(Some(first.and(alloc, second)?))
        }
        Draft::Throughout(place, body) => {
            let Some(body) = entry_of(alloc, body, table)? else {
                return Ok(None);
            };
            Ok(Some(body.throughout(alloc, *place)?))
        }
        Draft::Intersect(first, second) => {
            let Some(first) = entry_of(alloc, first, table)? else {
                return Ok(None);
            };
            let Some(second) = entry_of(alloc, second, table)? else {
                return Ok(None);
            };
            Ok(Some(first.intersect(alloc, second)?))
        }
    }
}

/// The entry of the declaration at a place, if there is such a declaration, and each name that it
/// uses has one.
fn body_entry(
    alloc: Global,
    bodies: &[Draft],
    place: usize,
    table: &[Option<Entry>],
) -> Result<Option<Entry>, AllocError>
    requires { place < length bodies.now }
    ensures lacking { IfOk result (λ o. IfNone o
        (LacksOne table.now (uses_at (map draft_of bodies.now) place))) }
    ensures entry { IfOk result
        (λ o. IfSome o (λ e. IsEntryTable (map draft_of bodies.now) table.now
        → IsEntryOf (map draft_of bodies.now) place e)) }
{
    entry_of(alloc, &bodies[place], table)
}

/// Puts an entry at a place.
fn put(table: &mut Vec<Option<Entry>>, place: usize, entry: Entry)
    requires { place < length table.old.items }
    ensures { table.new.items ≡ slice_set table.old.items place (Some entry) }
{
    table[place] = Some(entry);
}

/// Makes the entries of those of the places whose names all have entries. The others are given
/// back.
fn sweep(
    alloc: Global,
    bodies: &[Draft],
    places: Vec<usize>,
    table: &mut Vec<Option<Entry>>,
) -> Result<Vec<usize>, AllocError>
    requires long { length table.old.items ≡ length bodies.now }
    ensures long { length table.new.items ≡ length table.old.items }
    ensures entries { IsEntryTable (map draft_of bodies.now) table.old.items
        → IsEntryTable (map draft_of bodies.now) table.new.items }
    ensures accounts { IfOk result (λ still. (p : ℕ) → p < length bodies.now
        → Accounts table.old.items places.items p → Accounts table.new.items still.items p) }
    ensures fewer { IfOk result (λ still. length still.items ≤ length places.items) }
    ensures lacking { IfOk result (λ still. length still.items ≡ length places.items
        → AllLack (map draft_of bodies.now) table.new.items still.items) }
{
    let mut left = places;
    let mut still = Vec::new(alloc);
    'places: loop {
        let Some(place) = left.pop() else {
            return Ok(still);
        };
        if place >= bodies.len() {
            continue;
        }
        match body_entry(alloc, bodies, place, table)? {
            Some(entry) => put(table, place, entry),
            None => still.push(place)?,
        }
    }
}

/// No entry for each of so many places.
fn no_entries(alloc: Global, count: usize) -> Result<Vec<Option<Entry>>, AllocError>
    ensures long { IfOk result (λ table. length table.items ≡ count) }
    ensures none { IfOk result (λ table. (p : ℕ) → has_entry table.items p ≡ false) }
{
    let mut table = Vec::with_capacity(alloc, count)?;
    for _ in 0..count {
        table.push(None)?;
    }
    Ok(table)
}

/// The entries of named sequences, by the places of their declarations. Only those that reach
/// themselves, or a sequence that does, have none.
pub fn resolve(alloc: Global, bodies: &[Draft]) -> Result<Vec<Option<Entry>>, AllocError>
    requires { (p : ℕ) → AllDeclared (map draft_of bodies.now) p }
    ensures long { IfOk result (λ table. length table.items ≡ length bodies.now) }
    ensures entries { IfOk result (λ table. IsEntryTable (map draft_of bodies.now) table.items) }
    ensures cyclic { IfOk result (λ table. (p : ℕ) → p < length bodies.now
        → has_entry table.items p ≡ false → ReachesCycle (map draft_of bodies.now) p) }
{
    let mut table = no_entries(alloc, bodies.len())?;
    let mut left = all_places(alloc, bodies.len())?;
    'sweeps: loop {
        let before = left.len();
        left = sweep(alloc, bodies, left, &mut table)?;
        if left.len() == before {
            return Ok(table);
        }
    }
}
