//! A run of clocks with their rows.

ghost use Rattle.std.specs.Prelude.{◌≡◌, ℕ, ◌+◌, ◌-◌, ◌*◌, ◌<◌, ◌≤◌, IfOk, length, min, get_or};
ghost use Rattle.std.specs.Prelude.{slice_index, slice_range, vec_capacity};
ghost use Rattle.vcd_reader.specs.Dump.{Contents};
ghost use Rattle.vcd_reader.specs.declared.dump.Dump.{Dump};
ghost use Rattle.vcd_reader.specs.Held.{HoldsContents, variables_of};
ghost use Rattle.cycle_window.specs.Ticks.{ticks_of, row_of};
ghost use Rattle.cycle_window.specs.Variables.{places};
ghost use Rattle.cycle_window.specs.Rows.{AreSamplesOf};
ghost use Rattle.cycle_window.specs.Samples.{Each, AreWide, IsFull};
ghost use Rattle.cycle_window.specs.Stays.{RowStays};

use crate::clocks::Clocks;
use crate::columns::Columns;
use crate::cursor::Cursor;
use crate::picks::{least_stay, push_picked};
use crate::samples::{Samples, blank_samples, clear_each, note_each};
use crate::size::WindowSize;
use crate::window_rows::fill_samples;
use std::alloc::{AllocError, Global};
use vcd_reader::Dump;

/// A run of clocks with their rows. It holds no rows but these, and the dump is read on as far as
/// they ask.
#[derive(Drop)]
pub struct Window<'d> {
    pub(crate) columns: Columns<'d>,
    pub(crate) size: usize,
    pub(crate) first: usize,
    pub(crate) end: usize,
    pub(crate) cursor: Cursor,
    /// Of each of the columns' variables its values at these clocks.
    pub(crate) samples: Vec<Samples>,
    /// Room for a value of each variable, as `slide` reads them of the dump.
    pub(crate) read_row: Vec<u128>,
    /// Room for a value of each signal, as `row` shows them.
    pub(crate) shown_row: Vec<u128>,
    ghost ordered: { first ≤ end },
    ghost inside: { end ≤ columns.count },
    ghost few: { end - first ≤ size },
    ghost small: { size ≤ 65536 },
    ghost rows: { AreSamplesOf columns.dump.now columns.code
        (places columns.shared.variables.items) first end samples.items },
    ghost many: { length samples.items ≡ length columns.shared.variables.items },
    ghost full: { Each (λ i. IsFull (min size columns.count) (end - first)) samples.items },
    ghost wide: { length columns.shared.variables.items ≤ vec_capacity read_row },
    ghost shown: { length columns.shared.picks.items ≤ vec_capacity shown_row },
    ghost fit: { AreWide (variables_of columns.dump.now) (places columns.shared.variables.items)
        samples.items },
}

impl<'d> Window<'d> {
    ghost use Rattle.cycle_window.specs.Held.{ticks_in, code_in, dump_in, places_in, clock_in};
    ghost use Rattle.cycle_window.specs.Held.{columns_in, size_in, first_in, end_in};
    ghost use Rattle.cycle_window.specs.Held.{AreClocksOf, AreColumnsOf, IsOver, IsWindowOf};
    ghost use Rattle.cycle_window.specs.Shown.{IsSameWindow, StaysAfter};
    ghost use Rattle.cycle_window.specs.declared.clocks.Clocks.{Clocks};
    ghost use Rattle.std.specs.Borrow.{sem};

    /// An empty window before the first clock, which will hold up to so many clocks.
    pub fn new(
        alloc: Global,
        size: WindowSize,
        columns: Columns<'d>,
    ) -> Result<Window<'d>, AllocError>
        ensures columns { IfOk result (λ w. columns_in w ≡ columns.entry) }
        ensures size { IfOk result (λ w. size_in w ≡ size) }
        ensures first { IfOk result (λ w. first_in w ≡ 0) }
        ensures end { IfOk result (λ w. end_in w ≡ 0) }
        ensures over { (c : Contents) → AreColumnsOf columns.entry c
            → IfOk result (λ w. IsOver w c) }
        ensures of { (d : Dump) (k : Clocks) → dump_in columns.entry ≡ d
            → code_in k ≡ clock_in columns.entry → AreClocksOf d k
            → ((c : Contents) → HoldsContents d c → AreColumnsOf columns.entry c)
            → IfOk result (λ w. IsWindowOf w d k) }
        ensures good { IfOk result (λ _. (1 ≤ size) × (size ≤ 65536)) }
    {
        let size = size.clocks();
        let variables = columns.shared.variables.as_slice();
        let cursor = Cursor::new(alloc, columns.dump, variables)?;
        let samples = blank_samples(alloc, columns.dump, variables, size.min(columns.count))?;
        let read_row = Vec::with_capacity(alloc, variables.len())?;
        let shown_row = Vec::with_capacity(alloc, columns.shared.picks.len())?;
        Ok(Window {
            columns,
            size,
            first: 0,
            end: 0,
            cursor,
            samples,
            read_row,
            shown_row,
        })
    }

    /// The next clocks: from the window's end up to its size, or up to the last clock. The dump and
    /// the clocks are those of its columns, and clocks remain.
    pub fn slide(&mut self, dump: &Dump, clocks: &Clocks)
        requires same { IsWindowOf self.old dump.now clocks.now }
        requires remain { end_in self.old < length (ticks_in clocks.now) }
        ensures same { IsWindowOf self.new dump.now clocks.now }
        ensures columns { columns_in self.new ≡ columns_in self.old }
        ensures size { size_in self.new ≡ size_in self.old }
        ensures first { first_in self.new ≡ end_in self.old }
        ensures end { end_in self.new
            ≡ min (length (ticks_in clocks.now)) (end_in self.old + size_in self.old) }
    {
        let first = self.end;
        let end = first + self.size.min(clocks.ticks.len() - first);
        let ticks = &clocks.ticks[first..end];
        let columns = &self.columns;
        fill_samples(
            &mut self.samples,
            &mut self.read_row,
            &mut self.cursor,
            dump,
            columns.shared.variables.as_slice(),
            ticks,
        );
        note_each(&mut self.samples);
        self.first = first;
        self.end = end;
    }

    /// Empties it, and puts it at the end of another window over the same dump and clocks, so that
    /// it slides to the clocks after that one's. Over the same columns nothing is read again that
    /// the other one has read of the dump; over others the dump may be read from its beginning.
    pub fn follow(&mut self, other: &Window<'_>, dump: &Dump, clocks: &Clocks)
        requires same { IsWindowOf self.old dump.now clocks.now }
        requires other { IsWindowOf other.now dump.now clocks.now }
        ensures same { IsWindowOf self.new dump.now clocks.now }
        ensures columns { columns_in self.new ≡ columns_in self.old }
        ensures size { size_in self.new ≡ size_in self.old }
        ensures first { first_in self.new ≡ end_in other.now }
        ensures end { end_in self.new ≡ end_in other.now }
    {
        let _ = dump;
        let _ = clocks;
        self.cursor.follow(&other.cursor);
        clear_each(&mut self.samples);
        self.first = other.end;
        self.end = other.end;
    }

    /// A part of the row at a tick of the window, in the place of what stood there: the values of
    /// the signals from one up to another, which is not among them. There is room for it.
    pub fn put_part(&self, part: &mut Vec<u128>, tick: u64, from: usize, to: usize)
        requires low { first_in self.now ≤ tick }
        requires high { tick < end_in self.now }
        requires order { from ≤ to }
        requires inside { to ≤ length (places_in (columns_in self.now)) }
        requires room { to - from ≤ vec_capacity part.old }
        ensures part { (c : Contents) → IsOver self.now c → part.new.items ≡ row_of c
            (slice_range (places_in (columns_in self.now)) from to)
            (slice_index (ticks_of c (clock_in (columns_in self.now))) tick) }
        ensures capacity { vec_capacity part.new ≡ vec_capacity part.old }
    {
        let picks = &self.columns.shared.picks[from..to];
        let place = tick as usize - self.first;
        part.clear();
        push_picked(part, &self.samples, picks, place);
    }

    /// At how many ticks of the window that follow a tick a part of the row is what it is there:
    /// the values of the signals from one up to another, which is not among them. At the next tick
    /// it is another, or the window ends.
    pub fn same_after(&self, tick: u64, from: usize, to: usize) -> u64
        requires low { first_in self.now ≤ tick }
        requires high { tick < end_in self.now }
        requires order { from ≤ to }
        requires inside { to ≤ length (places_in (columns_in self.now)) }
        ensures inside { tick + result < end_in self.now }
        ensures same { (c : Contents) → IsOver self.now c
            → RowStays c (clock_in (columns_in self.now))
            (slice_range (places_in (columns_in self.now)) from to) tick result }
        ensures longest { (c : Contents) (n : ℕ) → IsOver self.now c → tick + n < end_in self.now
            → RowStays c (clock_in (columns_in self.now))
            (slice_range (places_in (columns_in self.now)) from to) tick n → n ≤ result }
    {
        let picks = &self.columns.shared.picks[from..to];
        let place = tick as usize - self.first;
        let rest = (self.end - 1) as u64 - tick;
        least_stay(&self.samples, picks, place, rest)
    }

    /// The row at a tick of the window, in the place of what stood there: a value for each signal.
    /// There is room for it.
    pub fn put_row(&self, row: &mut Vec<u128>, tick: u64)
        requires low { first_in self.now ≤ tick }
        requires high { tick < end_in self.now }
        requires room { length (places_in (columns_in self.now)) ≤ vec_capacity row.old }
        ensures row { (c : Contents) → IsOver self.now c → row.new.items ≡ row_of c
            (places_in (columns_in self.now))
            (slice_index (ticks_of c (clock_in (columns_in self.now))) tick) }
        ensures capacity { vec_capacity row.new ≡ vec_capacity row.old }
    {
        let width = self.width();
        self.put_part(row, tick, 0, width);
    }

    /// The row at a tick of the window: a value for each signal. It stands in room of the window's
    /// own, up to the next call, and takes no memory. The window stays what it was.
    pub fn row<'w>(&'w mut self, tick: u64) -> &'w [u128]
        requires low { first_in self.old ≤ tick }
        requires high { tick < end_in self.old }
        ensures row { (c : Contents) → IsOver self.old c → result.now ≡ row_of c
            (places_in (columns_in self.old))
            (slice_index (ticks_of c (clock_in (columns_in self.old))) tick) }
        ensures* stays { sem 𝓛 (StaysAfter self.entry) }
    {
        self.show(tick);
        self.shown_row.as_slice()
    }

    /// Puts the row at a tick of the window into the room for it.
    fn show(&mut self, tick: u64)
        requires low { first_in self.old ≤ tick }
        requires high { tick < end_in self.old }
        ensures row { (c : Contents) → IsOver self.old c → self.new.shown_row.items ≡ row_of c
            (places_in (columns_in self.old))
            (slice_index (ticks_of c (clock_in (columns_in self.old))) tick) }
        ensures stays { IsSameWindow self.old self.new }
    {
        let place = tick as usize - self.first;
        let columns = &self.columns;
        self.shown_row.clear();
        push_picked(
            &mut self.shown_row,
            &self.samples,
            columns.shared.picks.as_slice(),
            place,
        );
    }

    /// The number of its signals, each of which has a value in a row.
    pub fn width(&self) -> usize
        ensures { result ≡ length (places_in (columns_in self.now)) }
    {
        self.columns.shared.picks.len()
    }

    /// The window's clocks: from the first up to the second, which is not in it.
    pub fn bounds(&self) -> (u64, u64)
        ensures first { result.0 ≡ first_in self.now }
        ensures end { result.1 ≡ end_in self.now }
    {
        (self.first as u64, self.end as u64)
    }
}
