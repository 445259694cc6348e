//! Times the reader of dumps and the making of rows, for `bench/run`, `bench/shapes` and
//! `bench/check`.
//!
//! ```text
//! bench_reader FILE          read 139042 us steps 115849 changes 2231402
//! bench_reader FILE 4        the same, by so many threads
//! bench_reader FILE CLOCK    .. and rows 91210 us ticks 57924
//! ```
//!
//! The first line says how long `vcd_reader::read_dump`, or `read_dump_by`, took, with how many
//! steps and changes it found; the last, how long it took to go through the rows of all signals
//! whose paths are text, at the ticks of the clock, by windows of 1,024 of them. Times are in
//! microseconds of a clock on the wall. With no word it says how it is called, and that is what the
//! gate runs.
//!
//! What is read is said by the contracts of `vcd_reader` and `cycle_window`, whose definitions
//! stand in their `specs/`. The comparison with the plain C baseline is that of `bench/run`.
//!
//! Not promised: a speed. A fault of the dump or of the clock ends it with that fault's text.
#![tactic(auto)]

use anyhow::{Result, bail};
use cycle_window::{Clocks, Columns, WatchedSignal, Window, WindowSize};
use signals::Counted;
use std::alloc::Global;
use std::fs::{File, Files};
use std::thread::Threads;
use std::time::Instant;
use std::{env, str};
use vcd_reader::{Dump, Name, read_dump, read_dump_by};

/// How many changes a dump has.
fn changes_of(dump: &Dump) -> u64 {
    let mut changes = 0u64;
    for step in dump.steps() {
        changes = changes.saturating_add(step.changes.len() as u64);
    }
    changes
}

/// The signals of all names that are text.
fn signals_of(alloc: Global, names: &[Name]) -> Result<Vec<WatchedSignal<'_>>> {
    let mut signals = Vec::new(alloc);
    for name in names {
        if let Ok(path) = str::from_utf8(&name.path) {
            signals.push(WatchedSignal {
                path,
                width: name.width,
            })?;
        }
    }
    Ok(signals)
}

/// Reads the rows of all signals at the ticks of a clock, window by window, and says how many ticks
/// there are.
fn rows_of(alloc: Global, dump: &Dump, clock: &str) -> Result<u64> {
    let clocks = match Clocks::of(alloc, dump, clock) {
        Ok(clocks) => clocks,
        Err(fault) => bail!("{fault}"),
    };
    let names = dump.names(alloc)?;
    let signals = signals_of(alloc, &names)?;
    let columns = match Columns::bind(alloc, dump, &clocks, &signals) {
        Ok(columns) => columns,
        Err(fault) => bail!("{fault}"),
    };
    let mut window = Window::new(alloc, WindowSize::usual(), columns)?;
    for _ in 0..clocks.len() {
        let (_, end) = window.bounds();
        if end >= clocks.len() {
            break;
        }
        window.slide(dump, &clocks);
    }
    Ok(clocks.len())
}

/// The dump that a file holds: where the word is a number, read by so many threads.
fn dump_in<R: Files + AllocGlobal + Threads>(
    rt: &R,
    path: &str,
    word: Option<&str>,
) -> Result<Dump> {
    let mut source = Counted::new(File::open(rt, path)?);
    let threads = word.and_then(|it| it.parse::<usize>().ok());
    let read = match threads {
        Some(threads) => read_dump_by(rt, rt.alloc(), &mut source, threads),
        None => read_dump(rt.alloc(), &mut source),
    };
    match read {
        Ok(dump) => Ok(dump),
        Err(fault) => bail!("{fault}"),
    }
}

fn main(rt: HostRuntime) -> Result<()> {
    let mut args = env::args(&rt)?;
    let _name = args.next();
    let Some(path) = args.next() else {
        println!(rt; "bench_reader FILE [THREADS | CLOCK]")?;
        return Ok(());
    };
    let word = args.next();
    let start = Instant::now(&rt)?;
    let dump = dump_in(&rt, path.as_str(), word.as_deref())?;
    let took = start.elapsed(&rt)?;
    let micros = took.as_micros();
    let steps = dump.steps().len();
    let changes = changes_of(&dump);
    println!(rt; "read {micros} us steps {steps} changes {changes}")?;
    let Some(clock) = word.filter(|it| it.parse::<usize>().is_err()) else {
        return Ok(());
    };
    let start = Instant::now(&rt)?;
    let ticks = rows_of(rt.alloc(), &dump, clock.as_str())?;
    let took = start.elapsed(&rt)?;
    let micros = took.as_micros();
    println!(rt; "rows {micros} us ticks {ticks}")?;
    Ok(())
}
