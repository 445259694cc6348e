//! What has a most that it may be.

use std::fmt::{Display, Formatter, Result, Write};

/// A field of the header or the size of a part, in the order of the file.
#[derive(Clone, Copy, PartialEq, Eq, Debug)]
pub enum Field {
    History,
    Stack,
    Attempts,
    Obligations,
    Budget,
    Atoms,
    Slots,
    Sample,
    AntecedentPositions,
    AntecedentCode,
    ConsequentPositions,
    ConsequentCode,
}

impl Field {
    /// Its words in a line.
    pub fn words(self) -> &'static str {
        match self {
            Field::History => "history",
            Field::Stack => "stack",
            Field::Attempts => "attempts",
            Field::Obligations => "obligations",
            Field::Budget => "budget",
            Field::Atoms => "atoms",
            Field::Slots => "slots",
            Field::Sample => "sample",
            Field::AntecedentPositions => "antecedent positions",
            Field::AntecedentCode => "antecedent code",
            Field::ConsequentPositions => "consequent positions",
            Field::ConsequentCode => "consequent code",
        }
    }
}

impl Display for Field {
    fn fmt<W: Write>(&self, f: &mut Formatter<W>) -> Result {
        f.write_str(self.words())
    }
}
