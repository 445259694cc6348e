//! Slots of names.

use expressions::{Name, Origin};

/// The slot of each signal and of each counter, by the place that names it.
#[derive(Drop)]
pub struct SlotTable {
    pub signals: Vec<u16>,
    pub counters: Vec<u16>,
}

impl SlotTable {
    ghost use Rattle.std.specs.Prelude.{◌≡◌};
    ghost use Rattle.expressions.specs.declared.name.Origin.TheVariants.{Counter};
    ghost use Rattle.compiler.specs.Codes.{slot_of};
    ghost use Rattle.compiler.specs.Slots.{slots_in};

    /// The slot of a name, or slot 0 where it has none.
    pub fn slot_of(&self, name: &Name) -> u16
        ensures { result ≡ slot_of (slots_in self.now) name.now }
    {
        match name.origin {
            Origin::Signal => self.signals.get(name.place).copied().unwrap_or(0),
            Origin::Counter => self.counter_slot(name.place),
        }
    }

    /// The slot of a counter by its place, or slot 0 where it has none.
    pub fn counter_slot(&self, place: usize) -> u16
        ensures { result ≡ slots_in self.now Counter place }
    {
        self.counters.get(place).copied().unwrap_or(0)
    }
}
