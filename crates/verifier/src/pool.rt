//! Pools of a machine.

use std::fmt::{Display, Formatter, Result, Write};

/// A pool, whose size a program declares.
#[derive(Clone, Copy, PartialEq, Eq, Debug)]
pub enum Pool {
    Attempts,
    Obligations,
}

impl Pool {
    /// Its word in a line.
    pub fn words(self) -> &'static str {
        match self {
            Pool::Attempts => "attempts",
            Pool::Obligations => "obligations",
        }
    }
}

impl Display for Pool {
    fn fmt<W: Write>(&self, f: &mut Formatter<W>) -> Result {
        f.write_str(self.words())
    }
}
