//! Which signals and counters are read, and their slots.

ghost use Rattle.std.specs.Prelude.{◌≡◌, ◌+◌, ◌≤◌, ◌<◌, ℕ, false, IfOk, length};
ghost use Rattle.std.specs.Prelude.{slice_get, Some, count_by};
ghost use Rattle.assertions.specs.Marks.{same_origin, mark_if, mark_all, AreMarks};
ghost use Rattle.assertions.specs.Marks.{is_marked, places_from, slots_from};

use expressions::{Name, Origin};
use std::alloc::{AllocError, Global};

/// Whether two origins are one.
fn is_same(one: Origin, other: Origin) -> bool
    ensures { result ≡ same_origin one other }
{
    match one {
        Origin::Signal => matches!(other, Origin::Signal),
        Origin::Counter => matches!(other, Origin::Counter),
    }
}

/// Marks a name's place, where there is a mark for it.
fn mark(name: &Name, origin: Origin, marks: &mut Vec<bool>)
    ensures { marks.new.items
        ≡ mark_if (same_origin name.now.origin origin) marks.old.items name.now.place }
{
    if is_same(name.origin, origin) && name.place < marks.len() {
        marks[name.place] = true;
    }
}

/// So many places without a mark.
fn no_marks(alloc: Global, count: usize) -> Result<Vec<bool>, AllocError>
    ensures long { IfOk result (λ marks. length marks.items ≡ count) }
    ensures none { IfOk result (λ marks. (place : ℕ) → place < count →
        slice_get marks.items place ≡ Some false) }
{
    vec![in alloc; false; count]
}

/// For each of so many places of signals or of counters, whether one of the names stands for it.
pub fn marks_of(
    alloc: Global,
    names: &[Name],
    origin: Origin,
    count: usize,
) -> Result<Vec<bool>, AllocError>
    ensures { IfOk result (λ marks. AreMarks origin names.now count marks.items) }
{
    let mut marks = no_marks(alloc, count)?;
    for name in names {
        mark(name, origin, &mut marks);
    }
    Ok(marks)
}

/// The places that are marked, in rising order.
pub fn marked_places(alloc: Global, marks: &[bool]) -> Result<Vec<usize>, AllocError>
    ensures { IfOk result (λ places. places.items ≡ places_from 0 marks.now) }
{
    let mut places = Vec::new(alloc);
    for place in 0..marks.len() {
        if marks[place] {
            places.push(place)?;
        }
    }
    Ok(places)
}

/// The slots of places: those that are marked one after another from `first` on, 0 for the others.
pub fn slots_of(alloc: Global, marks: &[bool], first: u16) -> Result<Vec<u16>, AllocError>
    requires { first + count_by is_marked marks.now ≤ 65535 }
    ensures { IfOk result (λ slots. slots.items ≡ slots_from first marks.now) }
{
    let mut slots = Vec::with_capacity(alloc, marks.len())?;
    let mut next = first;
    for marked in marks {
        if *marked {
            slots.push(next)?;
            next += 1;
        } else {
            slots.push(0)?;
        }
    }
    Ok(slots)
}
