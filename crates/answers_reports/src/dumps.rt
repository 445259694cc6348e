//! What is in dumps that real simulators wrote.
//!
//! The file `data/traces.txt` has a line for each dump: its file, its clock's path, and the paths
//! whose values are printed at some ticks.
//!
//! ```text
//! fifo_arb_bug1.vcd tb.clk tb.dout tb.t0
//! ```
//!
//! Of each it prints how many paths can be bound, how many steps, changes and ticks there are, or
//! the fault of the dump or of the clock; then the values of the paths at the first two ticks, the
//! middle one and the last. `scripts/models/reference_counts.py` counted them with a reader of its
//! own; `scripts/tools/line_rows.py` and `scripts/random/mangled_dumps.py` have it read dumps of
//! theirs.

ghost use Rattle.cycle_window.specs.Held.{AreClocksOf};

use anyhow::{Context, Result, bail};
use cycle_window::{Clocks, Columns, WatchedSignal, Window, WindowSize};
use signals::Counted;
use std::alloc::Global;
use std::fs;
use std::fs::{File, Files};
use std::io::Print;
use vcd_reader::{Dump, VcdFault, read_dump};

/// A line of traces.txt.
#[derive(Clone, Copy)]
struct StoredDump<'a> {
    file: &'a str,
    clock: &'a str,
    /// With a space between two of them.
    paths: &'a str,
}

fn stored_dump(line: &str) -> Result<StoredDump<'_>> {
    let (file, rest) = line.split_once(' ').context("no clock")?;
    let (clock, paths) = rest.split_once(' ').unwrap_or((rest, ""));
    Ok(StoredDump { file, clock, paths })
}

/// How many changes a dump has.
fn changes_of(dump: &Dump) -> u64 {
    let mut changes = 0u64;
    for step in dump.steps() {
        changes = changes.saturating_add(step.changes.len() as u64);
    }
    changes
}

/// The signals of paths, each as wide as its variable.
fn signals_of<'a>(alloc: Global, dump: &Dump, paths: &'a str) -> Result<Vec<WatchedSignal<'a>>> {
    let mut signals = Vec::new(alloc);
    for path in paths.split_whitespace() {
        let Some(variable) = dump.var(path) else {
            bail!("no {path}");
        };
        let width = dump.width(variable);
        signals.push(WatchedSignal { path, width })?;
    }
    Ok(signals)
}

/// The first window of 65,536 clocks over the signals.
fn first_window<'d>(
    alloc: Global,
    dump: &'d Dump,
    clocks: &Clocks,
    signals: &[WatchedSignal<'_>],
) -> Result<Window<'d>>
    requires { AreClocksOf dump.now clocks.now }
{
    let columns = Columns::bind(alloc, dump, clocks, signals)?;
    let mut window = Window::new(alloc, WindowSize::new(65_536)?, columns)?;
    let (_, end) = window.bounds();
    if end < clocks.len() {
        window.slide(dump, clocks);
    }
    Ok(window)
}

fn print_row<R: Print>(rt: &R, stored: StoredDump<'_>, tick: u64, row: &[u128]) -> Result<()> {
    print!(rt; "{} tick {tick}", stored.file)?;
    for (path, value) in stored.paths.split_whitespace().zip(row) {
        print!(rt; " {path} {value}")?;
    }
    println!(rt; "")?;
    Ok(())
}

/// Prints the values of paths at a tick, if the window holds it.
fn print_tick<R: Print + AllocGlobal>(
    rt: &R,
    stored: StoredDump<'_>,
    window: &Window<'_>,
    tick: u64,
) -> Result<()> {
    let (first, end) = window.bounds();
    if tick < first || tick >= end {
        return Ok(());
    }
    let mut row = Vec::with_capacity(rt.alloc(), window.width())?;
    window.put_row(&mut row, tick);
    print_row(rt, stored, tick, row.as_slice())
}

/// Prints the values of paths at the first two ticks, the middle one and the last of a window's.
fn print_ticks<R: Print + AllocGlobal>(
    rt: &R,
    stored: StoredDump<'_>,
    window: &Window<'_>,
    ticks: u64,
) -> Result<()> {
    let mut next = 0;
    for tick in [0, 1, ticks / 2, ticks.saturating_sub(1)] {
        if tick >= next {
            print_tick(rt, stored, window, tick)?;
            next = tick.saturating_add(1);
        }
    }
    Ok(())
}

/// Prints the values of paths at some ticks.
fn print_rows<R: Print + AllocGlobal>(
    rt: &R,
    stored: StoredDump<'_>,
    dump: &Dump,
    clocks: &Clocks,
) -> Result<()>
    requires { AreClocksOf dump.now clocks.now }
{
    let signals = signals_of(rt.alloc(), dump, stored.paths)?;
    let window = first_window(rt.alloc(), dump, clocks, signals.as_slice())?;
    print_ticks(rt, stored, &window, clocks.len())
}

/// How many paths can be bound, how many steps and changes there are.
fn counts_of(alloc: Global, dump: &Dump) -> Result<String> {
    let names = dump.names(alloc)?.len();
    let steps = dump.steps().len();
    let changes = changes_of(dump);
    Ok(format!(in alloc; "names {names} steps {steps} changes {changes}")?)
}

fn print_dump<R: Print + AllocGlobal>(rt: &R, stored: StoredDump<'_>, dump: &Dump) -> Result<()> {
    let counts = counts_of(rt.alloc(), dump)?;
    print!(rt; "{} {counts} ", stored.file)?;
    match Clocks::of(rt.alloc(), dump, stored.clock) {
        Ok(clocks) => {
            println!(rt; "ticks {}", clocks.len())?;
            print_rows(rt, stored, dump, &clocks)
        }
        Err(fault) => Ok(println!(rt; "{fault}")?),
    }
}

/// The dump of a file, or its fault.
fn read_file<R: Files + AllocGlobal>(rt: &R, file: &str) -> Result<Result<Dump, VcdFault>> {
    let mut source = Counted::new(File::open(rt, file)?);
    Ok(read_dump(rt.alloc(), &mut source))
}

fn print_stored<R: Files + Print + AllocGlobal>(rt: &R, stored: StoredDump<'_>) -> Result<()> {
    match read_file(rt, stored.file)? {
        Ok(dump) => print_dump(rt, stored, &dump),
        Err(fault) => Ok(println!(rt; "{} {fault}", stored.file)?),
    }
}

/// Prints what is in the stored dumps.
pub(crate) fn show_cases<R: Files + Print + AllocGlobal>(rt: &R) -> Result<()> {
    let text = fs::read_to_string(rt, "traces.txt")?;
    for line in text.lines() {
        print_stored(rt, stored_dump(line)?)?;
    }
    Ok(())
}
