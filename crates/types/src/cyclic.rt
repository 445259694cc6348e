//! Whether a named sequence reaches itself.

ghost use Rattle.std.specs.Prelude.{◌≡◌, ◌<◌, ◌≤◌, ◌↔◌, ◌⊎◌, ℕ, true, false, map, length, IsTrue};
ghost use Rattle.std.specs.Prelude.{IfOk, OnOk};
ghost use Rattle.types.specs.Drafts.{IsNumberIn, uses, uses_at, IsCyclic};
ghost use Rattle.types.specs.Views.{draft_of};
ghost use Rattle.types.specs.Marks.{some_use, mark_at, leads_to_goal};
ghost use Rattle.types.specs.Sweeps.{AreSound, Covers, AreQuiet};

use crate::draft::Draft;
use std::alloc::{AllocError, Global};

/// Whether the draft uses the goal's name, or one with a mark.
fn leads_on(draft: &Draft, marks: &[bool], goal: usize) -> bool
    ensures { result ≡ some_use (leads_to_goal marks.now goal) (uses (draft_of draft.now)) }
{
    match draft {
        Draft::One => false,
        Draft::Boolean(_) => false,
        Draft::Name(place) => *place == goal || marks.get(*place).copied().unwrap_or(false),
        Draft::Delay(first, _, _, second) => {
            leads_on(first, marks, goal) || leads_on(second, marks, goal)
        }
        Draft::Lead(_, _, body) => leads_on(body, marks, goal),
        Draft::Repeat(body, _, _) => leads_on(body, marks, goal),
        Draft::Or(first, second) => leads_on(first, marks, goal) || leads_on(second, marks, goal),
        Draft::And(first, second) => leads_on(first, marks, goal) || leads_on(second, marks, goal),
        Draft::Intersect(first, second) => {
            leads_on(first, marks, goal) || leads_on(second, marks, goal)
        }
        Draft::Throughout(_, body) => leads_on(body, marks, goal),
    }
}

/// Whether the declaration at a place uses the goal's name, or one with a mark.
fn place_leads(bodies: &[Draft], place: usize, marks: &[bool], goal: usize) -> bool
    ensures { result
        ≡ some_use (leads_to_goal marks.now goal) (uses_at (map draft_of bodies.now) place) }
{
    match bodies.get(place) {
        None => false,
        Some(draft) => leads_on(draft, marks, goal),
    }
}

/// Marks those of the places that lead to the goal or to a mark. The others are given back.
fn sweep(
    alloc: Global,
    bodies: &[Draft],
    goal: usize,
    places: Vec<usize>,
    marks: &mut Vec<bool>,
) -> Result<Vec<usize>, AllocError>
    requires long { length marks.old.items ≡ length bodies.now }
    ensures long { length marks.new.items ≡ length marks.old.items }
    ensures sound { AreSound (map draft_of bodies.now) goal marks.old.items
        → AreSound (map draft_of bodies.now) goal marks.new.items }
    ensures covers { IfOk result (λ still. (p : ℕ) → p < length bodies.now
        → Covers marks.old.items places.items p → Covers marks.new.items still.items p) }
    ensures fewer { IfOk result (λ still. length still.items ≤ length places.items) }
    ensures quiet { IfOk result (λ still. length still.items ≡ length places.items
        → AreQuiet (map draft_of bodies.now) goal marks.new.items still.items) }
{
    let mut left = places;
    let mut still = Vec::new(alloc);
    'places: loop {
        let Some(place) = left.pop() else {
            return Ok(still);
        };
        if place >= marks.len() {
            continue;
        }
        if place_leads(bodies, place, marks, goal) {
            marks[place] = true;
        } else {
            still.push(place)?;
        }
    }
}

/// So many places without a mark.
fn no_marks(alloc: Global, count: usize) -> Result<Vec<bool>, AllocError>
    ensures long { IfOk result (λ marks. length marks.items ≡ count) }
    ensures none { IfOk result (λ marks. (p : ℕ) → mark_at marks.items p ≡ false) }
{
    vec![in alloc; false; count]
}

/// The places below the count.
pub(crate) fn all_places(alloc: Global, count: usize) -> Result<Vec<usize>, AllocError>
    ensures { IfOk result (λ places. (p : ℕ) → p < count → IsNumberIn p places.items) }
{
    let mut places = Vec::with_capacity(alloc, count)?;
    for place in 0..count {
        places.push(place)?;
    }
    Ok(places)
}

/// Whether the declaration at a place reaches itself: written out it would have no end.
pub fn is_cyclic(alloc: Global, bodies: &[Draft], goal: usize) -> Result<bool, AllocError>
    requires { goal < length bodies.now }
    ensures { IfOk result (λ found. IsTrue found ↔ IsCyclic (map draft_of bodies.now) goal) }
{
    let mut marks = no_marks(alloc, bodies.len())?;
    let mut left = all_places(alloc, bodies.len())?;
    'sweeps: loop {
        let before = left.len();
        left = sweep(alloc, bodies, goal, left, &mut marks)?;
        if marks[goal] {
            return Ok(true);
        }
        if left.len() == before {
            return Ok(false);
        }
    }
}
