//! What an assertion reads.

ghost use Rattle.std.specs.Prelude.{◌≡◌, ◌+◌, length, IfOk};
ghost use Rattle.compiler.specs.Reads.{IsReadingOf};

use assertions::{Assertion, Suite, marked_places, marks_of, names_read};
use expressions::Origin;
use std::alloc::{AllocError, Global};

/// For each signal and each counter of a suite, whether an assertion reads it.
#[derive(Drop)]
pub(crate) struct Reading {
    pub signals: Vec<bool>,
    pub counters: Vec<bool>,
    /// The places of those signals that are read, in rising order.
    pub signal_places: Vec<usize>,
    /// The places of those counters.
    pub counter_places: Vec<usize>,
}

impl Reading {
    /// What the assertion reads of its suite.
    pub fn of(alloc: Global, assertion: &Assertion, suite: &Suite) -> Result<Reading, AllocError>
        ensures { IfOk result (IsReadingOf suite.now assertion.now) }
    {
        let names = names_read(alloc, assertion, suite)?;
        let signals = marks_of(alloc, names.as_slice(), Origin::Signal, suite.names.len())?;
        let counters = marks_of(
            alloc,
            names.as_slice(),
            Origin::Counter,
            suite.counters.len(),
        )?;
        let signal_places = marked_places(alloc, signals.as_slice())?;
        let counter_places = marked_places(alloc, counters.as_slice())?;
        Ok(Reading {
            signals,
            counters,
            signal_places,
            counter_places,
        })
    }

    /// How many slots its program has: the constant 1, the signals and the counters.
    pub fn slot_count(&self) -> usize
        ensures { result ≡ 1 + (length self.now.signal_places.items
            + length self.now.counter_places.items) }
    {
        1 + (self.signal_places.len() + self.counter_places.len())
    }
}
