//! The report on a suite over a dump.

ghost use Rattle.std.specs.Prelude.{◌≡◌, ℕ, List, Some, map, string_bytes, IfOk, IfErr};
ghost use Rattle.vcd_reader.specs.Variables.{variable_named};
ghost use Rattle.vcd_reader.specs.Dump.{Contents};
ghost use Rattle.vcd_reader.specs.Held.{HoldsContents, variables_of};
ghost use Rattle.cycle_window.specs.Bound.{IsClockFault};
ghost use Rattle.cycle_window.specs.declared.fault.WindowFault.TheVariants.{Memory};
ghost use Rattle.cycle_window.specs.Held.{AreClocksOf, code_in};
ghost use Rattle.cycle_window.specs.Signals.{wanted_of};
ghost use Rattle.cycle_window.specs.Ticks.{ticks_of, row_of};
ghost use Rattle.report_lines.specs.Shown.{data_of};
ghost use Rattle.report_suites.specs.Named.{AreNamed, wanted_in_suite};
ghost use Rattle.report_suites.specs.Reported.{OverRows, Reports};

use crate::lines::lines_of;
use crate::sampled::rows_through;
use assertions::Suite;
use cycle_window::{Clocks, Columns, WatchedSignal, WindowFault, WindowSize};
use expressions::{Table, count};
use report_lines::Report;
use std::alloc::{AllocError, Global};
use vcd_reader::Dump;

/// The report on a suite over the rows of its signals.
fn report_over(alloc: Global, suite: &Suite, signals: Table<u128>) -> Result<Report, AllocError>
    ensures { IfOk result (λ r. OverRows suite.now signals (data_of r)) }
{
    let rows = count(alloc, signals, suite.counters.as_slice())?;
    let lines = lines_of(alloc, suite, &rows)?;
    Ok(Report::new(rows.signals.len() as u64, lines))
}

/// The signals of a suite, as they are bound.
fn signals_of<'s>(
    alloc: Global,
    names: &'s [assertions::Signal],
) -> Result<Vec<WatchedSignal<'s>>, AllocError>
    ensures { IfOk result (λ ss. map wanted_of ss.items ≡ map wanted_in_suite names.entry.now) }
{
    let mut signals = Vec::with_capacity(alloc, names.len())?;
    for name in names {
        signals.push(WatchedSignal {
            path: name.path.as_str(),
            width: u32::from(name.width),
        })?;
    }
    Ok(signals)
}

/// The fault of signals that all name variables of their widths.
fn want_of_memory(fault: WindowFault) -> AllocError
    requires { fault ≡ Memory }
{
    match fault {
        WindowFault::Memory => AllocError,
        _ => unreachable!(),
    }
}

/// The rows of a suite's signals at the ticks of its clock.
pub(crate) fn rows_of(
    alloc: Global,
    dump: &Dump,
    clocks: &Clocks,
    suite: &Suite,
    size: WindowSize,
) -> Result<Table<u128>, AllocError>
    requires clocks { AreClocksOf dump.now clocks.now }
    requires named { AreNamed (variables_of dump.now) suite.now.names.items }
    ensures { (c : Contents) (signals : List ℕ) → HoldsContents dump.now c
        → map (λ s. variable_named (variables_of dump.now) (string_bytes s.path))
        suite.now.names.items ≡ map (λ v. Some v) signals
        → IfOk result (λ rows. rows ≡ map (row_of c signals) (ticks_of c (code_in clocks.now))) }
{
    let signals = signals_of(alloc, suite.names.as_slice())?;
    // An arm knows that it is want of memory, as `want_of_memory` asks; a `From` can't ask it.
    match Columns::bind(alloc, dump, clocks, signals.as_slice()) {
        Ok(columns) => rows_through(alloc, dump, clocks, columns, size),
        Err(fault) => Err(want_of_memory(fault)),
    }
}

/// The report on a suite over a dump, read through windows of a size, or why its clock is none.
pub fn report_by_judge(
    alloc: Global,
    dump: &Dump,
    suite: &Suite,
    size: WindowSize,
) -> Result<Report, WindowFault>
    requires named { AreNamed (variables_of dump.now) suite.now.names.items }
    ensures ok { (c : Contents) → HoldsContents dump.now c
        → IfOk result (λ r. Reports c suite.now (data_of r)) }
    ensures err { (c : Contents) → HoldsContents dump.now c
        → IfErr result (IsClockFault c.variables (string_bytes suite.now.clock)) }
{
    let clocks = Clocks::of(alloc, dump, suite.clock.as_str())?;
    let rows = rows_of(alloc, dump, &clocks, suite, size)?;
    Ok(report_over(alloc, suite, rows)?)
}
