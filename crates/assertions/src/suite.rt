//! The assertions of one text.

ghost use Rattle.std.specs.Prelude.{◌≡◌, string_bytes};

use crate::assertion::Assertion;
use crate::signal::Signal;
use expressions::{Counter, Expr};

/// The assertions of a text, with their clock and what they read.
#[derive(Drop)]
pub struct Suite {
    /// The path of the clock.
    pub clock: String,
    /// The signals that expressions name by their place, in the order in which the text names them
    /// first.
    pub names: Vec<Signal>,
    /// The counters, in the order of the text.
    pub counters: Vec<Counter>,
    /// The expressions of all assertions.
    pub booleans: Vec<Expr>,
    /// The assertions, in the order of the text.
    pub assertions: Vec<Assertion>,
}

impl Suite {
    /// The assertions, in the order of the text.
    pub fn assertions(&self) -> &[Assertion]
        ensures { result.now ≡ self.now.assertions.items }
    {
        self.assertions.as_slice()
    }

    /// The path of the clock.
    pub fn clock(&self) -> &str
        ensures { result.now ≡ string_bytes self.now.clock }
    {
        self.clock.as_str()
    }
}
