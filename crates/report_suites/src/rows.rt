//! The rows that a suite is judged over, with what its counters count.

ghost use Rattle.std.specs.Prelude.{◌≡◌, ℕ, List, Some, map, string_bytes, IfOk};
ghost use Rattle.expressions.specs.Rows.{HasCounts};
ghost use Rattle.vcd_reader.specs.Variables.{variable_named};
ghost use Rattle.vcd_reader.specs.Dump.{Contents};
ghost use Rattle.vcd_reader.specs.Held.{HoldsContents, variables_of};
ghost use Rattle.cycle_window.specs.Held.{AreClocksOf, code_in};
ghost use Rattle.cycle_window.specs.Ticks.{ticks_of, row_of};
ghost use Rattle.report_suites.specs.Named.{AreNamed};

use crate::report::rows_of;
use assertions::Suite;
use cycle_window::{Clocks, WindowSize};
use expressions::{Rows, count};
use std::alloc::{AllocError, Global};
use vcd_reader::Dump;

/// The rows of a suite's signals at the ticks of its clock, and what its counters count over them.
///
/// # Errors
///
/// Want of memory alone.
pub fn suite_rows(
    alloc: Global,
    dump: &Dump,
    clocks: &Clocks,
    suite: &Suite,
    size: WindowSize,
) -> Result<Rows, AllocError>
    requires clocks { AreClocksOf dump.now clocks.now }
    requires named { AreNamed (variables_of dump.now) suite.now.names.items }
    ensures counted { IfOk result (HasCounts suite.now.counters.items) }
    ensures rows { (c : Contents) (signals : List ℕ) → HoldsContents dump.now c
        → map (λ s. variable_named (variables_of dump.now) (string_bytes s.path))
        suite.now.names.items ≡ map (λ v. Some v) signals
        → IfOk result (λ rows.
        rows.signals ≡ map (row_of c signals) (ticks_of c (code_in clocks.now))) }
{
    let signals = rows_of(alloc, dump, clocks, suite, size)?;
    Ok(count(alloc, signals, suite.counters.as_slice())?)
}
