//! The values of a variable at ticks one after the other.

ghost use Rattle.std.specs.Prelude.{◌≡◌, ◌≤◌, ◌<◌, ◌++◌, ◌∷◌, ℕ, [], Some, IfOk, length, get_or};
ghost use Rattle.std.specs.Prelude.{◌^◌};
ghost use Rattle.vcd_reader.specs.Variables.{size_of};
ghost use Rattle.vcd_reader.specs.Held.{variables_of};
ghost use Rattle.cycle_window.specs.Values.{numbers, room_in, bits_in};
ghost use Rattle.cycle_window.specs.Variables.{AreOf, places};
ghost use Rattle.cycle_window.specs.Samples.{Each, EachTo, AreWide, IsBlank, IsPushed, IsCleared};
ghost use Rattle.cycle_window.specs.Samples.{IsNoted};
ghost use Rattle.cycle_window.specs.Stays.{AreStays};

use crate::stays::note_stays;
use crate::values::Values;
use std::alloc::{AllocError, Global};
use vcd_reader::{Dump, VarId};

/// The values of a variable at the ticks of a window, and for how many ticks after its own each
/// value stays.
#[derive(Drop)]
pub(crate) struct Samples {
    pub(crate) values: Values,
    pub(crate) stays: Vec<u16>,
}

impl Samples {
    /// No values of a variable of a width, in bits, with room for those at so many ticks.
    fn new(alloc: Global, width: u32, ticks: usize) -> Result<Samples, AllocError>
        requires { width ≤ 128 }
        ensures blank { IfOk result (IsBlank ticks) }
        ensures wide { IfOk result (λ s. width ≤ bits_in s.values) }
    {
        let values = Values::new(alloc, width, ticks)?;
        let stays = Vec::from_elem(alloc, 0u16, ticks)?;
        Ok(Samples { values, stays })
    }

    /// Drops the values, and keeps the room.
    fn clear(&mut self)
        ensures { IsCleared self.old self.new }
    {
        self.values.clear();
    }

    /// Adds a value. There is room for it.
    fn push(&mut self, value: u128)
        requires room { length (numbers self.old.values) < room_in self.old.values }
        requires fits { value < 2 ^ bits_in self.old.values }
        ensures { IsPushed value self.old self.new }
    {
        self.values.push(value);
    }

    /// Notes of each value for how many ticks it stays. There is room for the notes.
    fn note(&mut self)
        requires room { length (numbers self.old.values) ≤ length self.old.stays.items }
        requires few { length (numbers self.old.values) ≤ 65536 }
        ensures { IsNoted self.old self.new }
    {
        note_stays(&mut self.stays, &self.values);
    }
}

/// A list without values for each variable, with room for those at so many ticks.
pub(crate) fn blank_samples(
    alloc: Global,
    dump: &Dump,
    variables: &[VarId],
    ticks: usize,
) -> Result<Vec<Samples>, AllocError>
    requires bindable { AreOf dump.now variables.now }
    ensures many { IfOk result (λ all. length all.items ≡ length variables.now) }
    ensures blank { IfOk result (λ all. Each (λ i. IsBlank ticks) all.items) }
    ensures wide { IfOk result (λ all.
        AreWide (variables_of dump.now) (places variables.now) all.items) }
{
    let mut all = Vec::with_capacity(alloc, variables.len())?;
    for variable in variables {
        let width = dump.width(*variable);
        let samples = Samples::new(alloc, width, ticks)?;
        all.push_reserved(samples);
    }
    Ok(all)
}

/// Drops all values, and keeps the room.
pub(crate) fn clear_each(all: &mut Vec<Samples>)
    ensures long { length all.new.items ≡ length all.old.items }
    ensures cleared { EachTo (λ i. IsCleared) all.old.items all.new.items }
{
    for place in 0..all.len() {
        all[place].clear();
    }
}

/// Adds the value at each place of a row to the samples at that place. There is room for them.
pub(crate) fn push_each(all: &mut Vec<Samples>, row: &[u128])
    requires many { length all.old.items ≡ length row.now }
    requires room { Each (λ i s. length (numbers s.values) < room_in s.values) all.old.items }
    requires fits { Each (λ i s. get_or row.now i 0 < 2 ^ bits_in s.values) all.old.items }
    ensures long { length all.new.items ≡ length all.old.items }
    ensures pushed { EachTo (λ i. IsPushed (get_or row.now i 0)) all.old.items all.new.items }
{
    for place in 0..row.len() {
        all[place].push(row[place]);
    }
}

/// Notes of each value of all for how many ticks it stays. There is room for the notes.
pub(crate) fn note_each(all: &mut Vec<Samples>)
    requires room { Each (λ i s. length (numbers s.values) ≤ length s.stays.items) all.old.items }
    requires few { Each (λ i s. length (numbers s.values) ≤ 65536) all.old.items }
    ensures long { length all.new.items ≡ length all.old.items }
    ensures noted { EachTo (λ i. IsNoted) all.old.items all.new.items }
{
    for place in 0..all.len() {
        all[place].note();
    }
}
