//! The cells of a row: values at clocks.

ghost use Rattle.std.specs.Prelude.{◌≡◌, IfOk, map, slice_get};
ghost use Rattle.expressions.specs.Rows.{samples_of};
ghost use Rattle.assertions.specs.Shapes.{expression_at, is_true_at};
ghost use Rattle.report_explained.specs.Asked.{AreAsked};
ghost use Rattle.report_explained.specs.Shown.{value_of_row, is_shown, cell_at};

use crate::asked::{Asked, Attempt};
use assertions::{Assertion, Suite};
use expressions::{Rows, is_true};
use std::alloc::{AllocError, Global};

/// Where the values of a row come from.
#[derive(Clone, Copy, PartialEq, Eq, Debug)]
pub enum RowSource {
    /// A signal, by its place in the suite.
    Signal(usize),
    /// A counter, by its place in the suite.
    Counter(usize),
    /// A boolean, by its place in the assertion's list.
    Listed(usize),
}

/// What is read: by an attempt of an assertion of a suite, over rows of its signals and counters.
#[derive(Clone, Copy)]
pub struct Read<'a> {
    pub assertion: &'a Assertion,
    pub attempt: Attempt,
    pub suite: &'a Suite,
    pub rows: &'a Rows,
}

/// Whether the boolean at a place of the assertion's list is true at a clock.
fn is_listed_true(read: &Read<'_>, listed: usize, clock: usize) -> bool
    ensures { result ≡ is_true_at (samples_of read.now.rows.now)
        (expression_at read.now.suite.now.booleans.items
        (slice_get read.now.assertion.now.booleans.items listed)) clock }
{
    let Some(place) = read.assertion.booleans.get(listed) else {
        return false;
    };
    match read.suite.booleans.get(*place) {
        None => false,
        Some(expression) => is_true(expression, read.rows, clock),
    }
}

/// Whether a boolean of the assertion has another value at a clock than at the one before.
pub(crate) fn has_change(read: &Read<'_>, clock: usize) -> bool {
    for listed in 0..read.assertion.booleans.len() {
        let now = is_listed_true(read, listed, clock);
        if now != is_listed_true(read, listed, clock.saturating_sub(1)) {
            return true;
        }
    }
    false
}

/// The value of a row at a clock.
fn value_of_row(read: &Read<'_>, source: RowSource, clock: usize) -> u128
    ensures { result ≡ value_of_row read.now.suite.now read.now.assertion.now read.now.rows.now
        source clock }
{
    match source {
        RowSource::Signal(place) => read.rows.signals.cell(clock, place),
        RowSource::Counter(place) => read.rows.counters.cell(clock, place),
        RowSource::Listed(listed) => u128::from(is_listed_true(read, listed, clock)),
    }
}

/// Whether a row has a value at a clock: a boolean where it is asked, all else always.
fn is_shown(read: &Read<'_>, asked: &Asked, source: RowSource, clock: usize) -> bool
    requires { AreAsked read.now.assertion.now read.now.attempt asked.now }
    ensures { result ≡ is_shown read.now.assertion.now read.now.attempt source clock }
{
    match source {
        RowSource::Signal(_) => true,
        RowSource::Counter(_) => true,
        RowSource::Listed(listed) => asked.is_asked(listed, clock),
    }
}

/// The cell of a row at a clock.
fn cell_at(read: &Read<'_>, asked: &Asked, source: RowSource, clock: usize) -> Option<u128>
    requires { AreAsked read.now.assertion.now read.now.attempt asked.now }
    ensures { result ≡ cell_at read.now.suite.now read.now.assertion.now read.now.attempt
        read.now.rows.now source clock }
{
    if is_shown(read, asked, source, clock) {
        return Some(value_of_row(read, source, clock));
    }
    None
}

/// The cells of a row at these clocks.
pub(crate) fn cells_of(
    alloc: Global,
    read: &Read<'_>,
    asked: &Asked,
    source: RowSource,
    clocks: &[usize],
) -> Result<Vec<Option<u128>>, AllocError>
    requires { AreAsked read.now.assertion.now read.now.attempt asked.now }
    ensures { IfOk result (λ cells. cells.items ≡ map (cell_at read.now.suite.now
        read.now.assertion.now read.now.attempt read.now.rows.now source) clocks.now) }
{
    let mut cells = Vec::with_capacity(alloc, clocks.len())?;
    for clock in clocks {
        cells.push(cell_at(read, asked, source, *clock))?;
    }
    Ok(cells)
}
