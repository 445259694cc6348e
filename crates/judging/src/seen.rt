//! What an attempt has seen.

ghost use Rattle.std.specs.Prelude.{◌≡◌, ℕ, ◌∷◌, [], ◌++◌, slice_get, OnOk, OnErr, IfOk};
ghost use Rattle.assertions.specs.Shapes.{is_true_at, expression_at};
ghost use Rattle.expressions.specs.Rows.{samples_of};
ghost use Rattle.judging.specs.Tables.{marks, seen_value, held_at};

use crate::table::{Table, is_marked};
use assertions::Boolean;
use expressions::{Expr, Rows, is_true};
use std::alloc::{AllocError, Global};

/// The values of an assertion's booleans, with a row for each tick that was seen, from the
/// attempt's first on.
#[derive(Drop)]
pub(crate) struct Seen {
    pub values: Table,
}

impl Seen {
    /// A boolean's value at a place that was seen.
    pub fn value(&self, boolean: Boolean, place: usize) -> bool
        ensures { result ≡ seen_value self.now.values boolean place }
    {
        match boolean {
            Boolean::One => true,
            Boolean::Listed(listed) => is_marked(self.values.row(place), listed),
        }
    }

    /// Whether a boolean counts as true at a place: it is, or the place was not seen yet.
    pub fn holds(&self, boolean: Boolean, place: usize) -> bool
        ensures { result ≡ held_at self.now.values boolean place }
    {
        self.values.len() <= place || self.value(boolean, place)
    }
}

/// Whether an expression is true at a tick, by its place among all; one that isn't there is false.
fn is_listed_true(all: &[Expr], place: usize, rows: &Rows, tick: usize) -> bool
    ensures { result ≡ is_true_at (samples_of rows.now) (slice_get all.now place) tick }
{
    match all.get(place) {
        None => false,
        Some(expression) => is_true(expression, rows, tick),
    }
}

/// The values at a tick of the expressions at these places among all, each evaluated once.
pub(crate) fn values_at(
    alloc: Global,
    all: &[Expr],
    places: &[usize],
    rows: &Rows,
    tick: usize,
) -> Result<Vec<bool>, AllocError>
    ensures { IfOk result (λ v. (i : ℕ) → marks v.items i
        ≡ is_true_at (samples_of rows.now) (expression_at all.now (slice_get places.now i)) tick) }
{
    let mut values = Vec::with_capacity(alloc, places.len())?;
    for place in places {
        values.push(is_listed_true(all, *place, rows, tick))?;
    }
    Ok(values)
}
