//! Sheets: the values that an attempt saw.

ghost use Rattle.std.specs.Prelude.{◌≡◌, ◌++◌, ◌<◌, ◌≤◌, ◌^◌, ◌-◌, IfOk, OnOk, map, length};
ghost use Rattle.std.specs.Prelude.{string_bytes, false, slice_get};
ghost use Rattle.assertions.specs.Shapes.{expression_at};
ghost use Rattle.report_explained.specs.declared.cells.RowSource.TheVariants.{Signal, Counter};
ghost use Rattle.report_explained.specs.Shown.{IsShownRow, ShowsRows, ArePlaces, AreSources};
ghost use Rattle.report_explained.specs.Shown.{listed_below, is_at_end, AreShownIn};
ghost use Rattle.report_explained.specs.Shown.{IsCalled, IsTextAt, bits_of_row, IsSheet};
ghost use Rattle.report_explained.specs.Asked.{AreAsked};
ghost use Rattle.report_explained.specs.ExpressionText.{called, called_in};

use crate::asked::Asked;
use crate::cells::{Read, RowSource, cells_of, has_change};
use crate::expression_text::{Names, expression_text};
use crate::reach::reach;
use assertions::{marked_places, marks_of, names_read};
use expressions::{Name, Origin};
use std::alloc::{AllocError, Global};

/// A row: where its values come from, what it is called, how many bits it has, and a cell for each
/// clock of its sheet.
#[derive(Drop)]
pub struct SheetRow {
    pub source: RowSource,
    pub label: String,
    /// 1 to 128.
    pub width: u8,
    /// The clock at which the side of the assertion begins that has the boolean; of a signal or a
    /// counter 0.
    pub from: usize,
    /// The value at each clock, or none where the attempt can't ask a boolean.
    pub cells: Vec<Option<u128>>,
}

/// Clocks in rising order, and rows of values at them.
#[derive(Drop)]
pub struct Sheet {
    pub clocks: Vec<usize>,
    pub rows: Vec<SheetRow>,
}

/// How many clocks are shown at each end of a run that is cut.
const SIDE: usize = 8;

/// How many of the clocks between are shown, at most.
const BETWEEN: usize = 8;

/// Whether a clock is one of the first of a run, or of the last before its end.
fn is_at_end(first: usize, end: usize, clock: usize) -> bool
    ensures { result ≡ is_at_end first end clock }
{
    clock.saturating_sub(first) < SIDE || end.saturating_sub(clock) <= SIDE
}

/// Whether a clock is shown: each at both ends of a run, and between them the first at which a
/// boolean of the assertion changes, which are counted.
fn is_kept(read: &Read<'_>, first: usize, end: usize, clock: usize, between: &mut usize) -> bool
    ensures { result ≡ false → is_at_end first end clock ≡ false }
{
    if is_at_end(first, end, clock) {
        return true;
    }
    let is_new = *between < BETWEEN && has_change(read, clock);
    *between = between.saturating_add(usize::from(is_new));
    is_new
}

/// The clocks from so many before the attempt's first up to its last. Of a long run those at both
/// ends, and between them the first at which a boolean of the assertion changes.
fn clocks_of(alloc: Global, read: &Read<'_>, before: usize) -> Result<Vec<usize>, AllocError>
    ensures { IfOk result (λ clocks. AreShownIn (read.now.attempt.start - before)
        read.now.attempt.end clocks.items) }
{
    let attempt = read.attempt;
    let first = attempt.start.saturating_sub(before);
    let last = attempt.end.max(first);
    let mut clocks = Vec::new(alloc);
    let mut between = 0usize;
    for clock in first..last {
        if is_kept(read, first, attempt.end, clock, &mut between) {
            clocks.push(clock)?;
        }
    }
    Ok(clocks)
}

/// Adds signals as sources of rows.
fn push_signals(sources: &mut Vec<RowSource>, places: &[usize]) -> Result<(), AllocError>
    ensures { OnOk result (sources.new.items ≡ sources.old.items ++ map Signal places.now) }
{
    for place in places {
        sources.push(RowSource::Signal(*place))?;
    }
    Ok(())
}

/// Adds counters as sources of rows.
fn push_counters(sources: &mut Vec<RowSource>, places: &[usize]) -> Result<(), AllocError>
    ensures { OnOk result (sources.new.items ≡ sources.old.items ++ map Counter places.now) }
{
    for place in places {
        sources.push(RowSource::Counter(*place))?;
    }
    Ok(())
}

/// Adds the booleans of so many places as sources of rows.
fn push_listed(sources: &mut Vec<RowSource>, count: usize) -> Result<(), AllocError>
    ensures { OnOk result (sources.new.items ≡ sources.old.items ++ listed_below count) }
{
    for listed in 0..count {
        sources.push(RowSource::Listed(listed))?;
    }
    Ok(())
}

/// Where the rows of an assertion come from: the signals and the counters that it reads, and its
/// booleans.
fn sources_of(alloc: Global, read: &Read<'_>) -> Result<Vec<RowSource>, AllocError>
    ensures { IfOk result (λ sources.
        AreSources read.now.suite.now read.now.assertion.now sources.items) }
{
    let names = names_read(alloc, read.assertion, read.suite)?;
    let signals = places_of(
        alloc,
        names.as_slice(),
        Origin::Signal,
        read.suite.names.len(),
    )?;
    let counters = places_of(
        alloc,
        names.as_slice(),
        Origin::Counter,
        read.suite.counters.len(),
    )?;
    let mut sources = Vec::new(alloc);
    push_signals(&mut sources, signals.as_slice())?;
    push_counters(&mut sources, counters.as_slice())?;
    push_listed(&mut sources, read.assertion.booleans.len())?;
    Ok(sources)
}

/// The places of names of an origin, in rising order.
fn places_of(
    alloc: Global,
    names: &[Name],
    origin: Origin,
    count: usize,
) -> Result<Vec<usize>, AllocError>
    ensures { IfOk result (λ places. ArePlaces origin names.now count places.items) }
{
    let marks = marks_of(alloc, names, origin, count)?;
    marked_places(alloc, marks.as_slice())
}

/// What a row is called.
fn label_of(
    alloc: Global,
    read: &Read<'_>,
    names: Names<'_>,
    source: RowSource,
) -> Result<String, AllocError>
    ensures { IfOk result (λ label. IsCalled read.now.suite.now (called names.entry)
        read.now.assertion.now source (string_bytes label)) }
{
    match source {
        RowSource::Signal(place) => String::from_str(alloc, names.signal(place)),
        RowSource::Counter(place) => String::from_str(alloc, names.counter(place)),
        RowSource::Listed(listed) => listed_text(alloc, read, names, listed),
    }
}

/// The text of the boolean at a place of the assertion's list.
fn listed_text(
    alloc: Global,
    read: &Read<'_>,
    names: Names<'_>,
    listed: usize,
) -> Result<String, AllocError>
    ensures { IfOk result (λ text. IsTextAt (called names.entry)
        (expression_at read.now.suite.now.booleans.items
        (slice_get read.now.assertion.now.booleans.items listed)) (string_bytes text)) }
{
    let Some(place) = read.assertion.booleans.get(listed) else {
        return Ok(String::new(alloc));
    };
    match read.suite.booleans.get(*place) {
        None => Ok(String::new(alloc)),
        Some(expression) => expression_text(alloc, expression, names),
    }
}

/// How many bits a row has.
fn width_of_row(read: &Read<'_>, source: RowSource) -> u8
    ensures { result ≡ bits_of_row read.now.suite.now source }
{
    match source {
        RowSource::Signal(place) => match read.suite.names.get(place) {
            None => 1,
            Some(signal) => signal.width,
        },
        RowSource::Counter(place) => match read.suite.counters.get(place) {
            None => 1,
            Some(counter) => counter.width,
        },
        RowSource::Listed(_) => 1,
    }
}

/// The clock at which the side begins that has a boolean, 0 for all else.
fn first_clock_of(asked: &Asked, source: RowSource) -> usize {
    match source {
        RowSource::Signal(_) => 0,
        RowSource::Counter(_) => 0,
        RowSource::Listed(listed) => asked.begins(listed),
    }
}

/// The row of a source.
fn row_of(
    alloc: Global,
    read: &Read<'_>,
    asked: &Asked,
    names: Names<'_>,
    source: RowSource,
    clocks: &[usize],
) -> Result<SheetRow, AllocError>
    requires { AreAsked read.now.assertion.now read.now.attempt asked.now }
    ensures { IfOk result (IsShownRow read.now.suite.now (called names.entry) read.now.assertion.now
        read.now.attempt read.now.rows.now clocks.now source) }
{
    let label = label_of(alloc, read, names, source)?;
    let cells = cells_of(alloc, read, asked, source, clocks)?;
    Ok(SheetRow {
        source,
        label,
        width: width_of_row(read, source),
        from: first_clock_of(asked, source),
        cells,
    })
}

/// The rows of these sources.
fn rows_of(
    alloc: Global,
    read: &Read<'_>,
    asked: &Asked,
    names: Names<'_>,
    sources: &[RowSource],
    clocks: &[usize],
) -> Result<Vec<SheetRow>, AllocError>
    requires { AreAsked read.now.assertion.now read.now.attempt asked.now }
    ensures { IfOk result (λ rows. ShowsRows read.now.suite.now (called names.entry)
        read.now.assertion.now read.now.attempt read.now.rows.now clocks.now sources.now
        rows.items) }
{
    let mut rows = Vec::with_capacity(alloc, sources.len())?;
    for source in sources {
        rows.push(row_of(alloc, read, asked, names, *source, clocks)?)?;
    }
    Ok(rows)
}

/// The sheet of a failed attempt: its clocks, and a row for each signal and each counter that the
/// assertion reads and for each of its booleans. The names of the counters are those of the suite's
/// in their order.
pub fn sheet_of(alloc: Global, read: &Read<'_>, counter_names: &[&str]) -> Result<Sheet, AllocError>
    ensures { IfOk result (IsSheet read.now.suite.now
        (called_in read.now.suite.now (map (λ t. t.now) counter_names.now))
        read.now.assertion.now read.now.attempt read.now.rows.now) }
{
    let clocks = clocks_of(alloc, read, reach(read))?;
    let sources = sources_of(alloc, read)?;
    let asked = Asked::of(alloc, read.assertion, read.attempt)?;
    let names = Names {
        signals: read.suite.names.as_slice(),
        counters: counter_names,
    };
    let rows = rows_of(
        alloc,
        read,
        &asked,
        names,
        sources.as_slice(),
        clocks.as_slice(),
    )?;
    Ok(Sheet { clocks, rows })
}
