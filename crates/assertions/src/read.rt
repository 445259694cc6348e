//! What an assertion reads.

ghost use Rattle.std.specs.Prelude.{◌≡◌, ◌↔◌, ◌<◌, ◌≤◌, ◌++◌, ℕ, true, false, map, length, IfOk};
ghost use Rattle.std.specs.Prelude.{OnOk};
ghost use Rattle.std.specs.Prelude.{MatchOption, slice_get, slice_index_or, Contains};
ghost use Rattle.std.specs.List.{flat_map};
ghost use Rattle.expressions.specs.declared.name.Name.{Name};
ghost use Rattle.expressions.specs.declared.name.Origin.TheVariants.{Counter as FromCounter};
ghost use Rattle.assertions.specs.Names.{expression_names};
ghost use Rattle.assertions.specs.Reads.{names_of, IsRead, AreRead, waits};
ghost use Rattle.assertions.specs.Scans.{IsNext, NoneFrom};

use crate::names::{add_counter, add_expression};
use crate::{Assertion, Suite};
use expressions::{Counter, Expr, Name, Origin};
use std::alloc::{AllocError, Global};

/// Whether a name is a counter of which the clauses are still to be looked at.
fn is_waiting(name: &Name, done: &[bool]) -> bool
    ensures { result ≡ waits done.now name.now }
{
    match name.origin {
        Origin::Signal => false,
        Origin::Counter => !done.get(name.place).copied().unwrap_or(true),
    }
}

/// The place of the first such name from a place on.
fn next_waiting(names: &[Name], from: usize, done: &[bool]) -> Option<usize>
    requires { from ≤ length names.now }
    ensures { MatchOption result (NoneFrom done.now from names.now)
        (IsNext done.now from names.now) }
{
    for at in from..names.len() {
        if is_waiting(&names[at], done) {
            return Some(at);
        }
    }
    None
}

/// So many counters, none of which is done.
fn none_done(alloc: Global, count: usize) -> Result<Vec<bool>, AllocError>
    ensures long { IfOk result (λ done. length done.items ≡ count) }
    ensures none { IfOk result (λ done. (p : ℕ) → p < length done.items →
        slice_index_or done.items p true ≡ false) }
{
    vec![in alloc; false; count]
}

/// Adds the names of the counter at a place.
fn add_counter_at(
    counters: &[Counter],
    place: usize,
    names: &mut Vec<Name>,
) -> Result<(), AllocError>
    ensures { OnOk result (names.new.items
        ≡ names.old.items ++ names_of (slice_get counters.now place)) }
{
    match counters.get(place) {
        None => Ok(()),
        Some(counter) => add_counter(counter, names),
    }
}

/// The names that are read where these are.
fn names_through(
    alloc: Global,
    first: Vec<Name>,
    counters: &[Counter],
) -> Result<Vec<Name>, AllocError>
    ensures { IfOk result (λ names. (name : Name) →
        Contains names.items name ↔ IsRead first.items counters.now name) }
{
    let mut names = first;
    let mut done = none_done(alloc, counters.len())?;
    let mut from = 0;
    'counters: loop {
        let Some(at) = next_waiting(names.as_slice(), from, done.as_slice()) else {
            return Ok(names);
        };
        let place = names[at].place;
        done[place] = true;
        add_counter_at(counters, place, &mut names)?;
        from = at + 1;
    }
}

/// Adds the names of the expression at a place.
fn add_expression_at(all: &[Expr], place: usize, names: &mut Vec<Name>) -> Result<(), AllocError>
    ensures { OnOk result (names.new.items
        ≡ names.old.items ++ expression_names (slice_get all.now place)) }
{
    match all.get(place) {
        None => Ok(()),
        Some(expression) => add_expression(expression, names),
    }
}

/// The names of the expressions at these places.
fn names_at(alloc: Global, all: &[Expr], places: &[usize]) -> Result<Vec<Name>, AllocError>
    ensures { IfOk result (λ names. names.items
        ≡ flat_map (λ place. expression_names (slice_get all.now place)) places.now) }
{
    let mut names = Vec::new(alloc);
    for place in places {
        add_expression_at(all, *place, &mut names)?;
    }
    Ok(names)
}

/// What an assertion of a suite reads: the names of its booleans, and, of each counter among them,
/// those of its clauses. A name may be there several times.
pub fn names_read(
    alloc: Global,
    assertion: &Assertion,
    suite: &Suite,
) -> Result<Vec<Name>, AllocError>
    ensures { IfOk result (λ names. AreRead suite.now assertion.now names.items) }
{
    let first = names_at(
        alloc,
        suite.booleans.as_slice(),
        assertion.booleans.as_slice(),
    )?;
    names_through(alloc, first, suite.counters.as_slice())
}
