//! The samples of a window.

ghost use Rattle.std.specs.Prelude.{◌≡◌, ℕ, ◌<◌, ◌≤◌, length, map, get_or, vec_capacity};
ghost use Rattle.vcd_reader.specs.Dump.{Contents};
ghost use Rattle.vcd_reader.specs.Held.{HoldsContents, steps_in, variables_of};
ghost use Rattle.cycle_window.specs.Ticks.{row_of};
ghost use Rattle.cycle_window.specs.Variables.{AreOf, places};
ghost use Rattle.cycle_window.specs.Rows.{AreAhead};
ghost use Rattle.cycle_window.specs.Cursors.{IsCursorOf};
ghost use Rattle.cycle_window.specs.Samples.{Each, EachTo, AreWide, IsRoomKept};
ghost use Rattle.cycle_window.specs.Samples.{column_of};
ghost use Rattle.cycle_window.specs.Values.{numbers, room_in};

use crate::cursor::Cursor;
use crate::samples::{Samples, clear_each, push_each};
use vcd_reader::{Dump, VarId};

/// Puts the values at the ticks in the place of others, and reads on to the last of the ticks.
/// There is room for them. What the row holds is lost: each row goes through it.
pub(crate) fn fill_samples(
    all: &mut Vec<Samples>,
    row: &mut Vec<u128>,
    cursor: &mut Cursor,
    dump: &Dump,
    variables: &[VarId],
    ticks: &[usize],
)
    requires bindable { AreOf dump.now variables.now }
    requires of { IsCursorOf dump.now variables.now cursor.old }
    requires many { length all.old.items ≡ length variables.now }
    requires wide { length variables.now ≤ vec_capacity row.old }
    requires room { Each (λ i s. length ticks.now ≤ room_in s.values) all.old.items }
    requires fit { AreWide (variables_of dump.now) (places variables.now) all.old.items }
    ensures of { IsCursorOf dump.now variables.now cursor.new }
    ensures many { length all.new.items ≡ length all.old.items }
    ensures wide { vec_capacity row.new ≡ vec_capacity row.old }
    ensures kept { EachTo (λ i. IsRoomKept) all.old.items all.new.items }
    ensures full { Each (λ i s. length (numbers s.values) ≡ length ticks.now) all.new.items }
    ensures rows { (c : Contents) → HoldsContents dump.now c
        → AreAhead cursor.old.at (length (steps_in dump.now)) ticks.now
        → Each (λ i s. numbers s.values ≡ column_of (row_of c (places variables.now)) i ticks.now)
        all.new.items }
    ensures reached { (most : ℕ) → AreAhead cursor.old.at (length (steps_in dump.now)) ticks.now
        → cursor.old.at ≤ most
        → ((n : ℕ) → n < length ticks.now → get_or ticks.now n 0 ≤ most)
        → cursor.new.at ≤ most }
{
    clear_each(all);
    for tick in ticks {
        row.clear();
        cursor.push_at(row, dump, variables, *tick);
        push_each(all, row);
    }
}
