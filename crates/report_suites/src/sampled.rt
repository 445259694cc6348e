//! The rows that a suite is judged over.

ghost use Rattle.std.specs.Prelude.{◌≡◌, ◌+◌, ◌<◌, ◌≤◌, IfOk, OnOk, map, take, length};
ghost use Rattle.vcd_reader.specs.Dump.{Contents};
ghost use Rattle.vcd_reader.specs.Held.{HoldsContents};
ghost use Rattle.cycle_window.specs.Ticks.{ticks_of, row_of};
ghost use Rattle.cycle_window.specs.Held.{ticks_in, code_in, dump_in, places_in, clock_in};
ghost use Rattle.cycle_window.specs.Held.{columns_in, first_in, end_in};
ghost use Rattle.cycle_window.specs.Held.{AreClocksOf, AreColumnsOf, IsOver};

use cycle_window::{Clocks, Columns, Window, WindowSize};
use expressions::Table;
use std::alloc::{AllocError, Global};
use vcd_reader::Dump;

/// Adds the rows of a window after those of the clocks before it.
fn push_rows(alloc: Global, rows: &mut Table<u128>, window: &Window<'_>) -> Result<(), AllocError>
    requires order { first_in window.now ≤ end_in window.now }
    requires behind { length rows.old ≡ first_in window.now }
    ensures long { OnOk result (length rows.new ≡ end_in window.now) }
    ensures rows { OnOk result ((c : Contents) → IsOver window.now c
        → rows.old ≡ map (row_of c (places_in (columns_in window.now)))
        (take (first_in window.now) (ticks_of c (clock_in (columns_in window.now))))
        → rows.new ≡ map (row_of c (places_in (columns_in window.now)))
        (take (end_in window.now) (ticks_of c (clock_in (columns_in window.now))))) }
{
    let (first, end) = window.bounds();
    for clock in first..end {
        let mut row = Vec::with_capacity(alloc, window.width())?;
        window.put_row(&mut row, clock);
        rows.push(row)?;
    }
    Ok(())
}

/// The rows of the columns at all ticks of their clock, read through windows of a size.
pub(crate) fn rows_through(
    alloc: Global,
    dump: &Dump,
    clocks: &Clocks,
    columns: Columns<'_>,
    size: WindowSize,
) -> Result<Table<u128>, AllocError>
    requires clocks { AreClocksOf dump.now clocks.now }
    requires dump { dump_in columns ≡ dump.now }
    requires clock { clock_in columns ≡ code_in clocks.now }
    requires columns { (c : Contents) → HoldsContents dump.now c → AreColumnsOf columns c }
    ensures { IfOk result (λ rows. (c : Contents) → HoldsContents dump.now c
        → rows ≡ map (row_of c (places_in columns.entry)) (ticks_of c (code_in clocks.now))) }
{
    let mut window = Window::new(alloc, size, columns)?;
    let mut rows = Table::new(alloc);
    while (rows.len() as u64) < clocks.len() {
        window.slide(dump, clocks);
        push_rows(alloc, &mut rows, &window)?;
    }
    Ok(rows)
}
