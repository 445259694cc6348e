//! Finding the codes of variables.

ghost use Rattle.std.specs.Prelude.{◌≡◌, ℕ, ◌<◌, ◌≤◌, length, IfOk};
ghost use Rattle.vcd_reader.specs.Index.{codes_in, IsIndex};
ghost use Rattle.vcd_reader.specs.Packed.{AreKnown};

use crate::places::Places;
use crate::variable::Variable;

/// A code of one to four bytes as a number, with the code's number; none where the first is 0.
#[derive(Clone, Copy)]
pub(crate) struct Entry {
    pub(crate) packed: u32,
    pub(crate) number: u32,
}

/// The header's codes, to be found by their text: short ones by a table of pages, in which an entry
/// stands for its code's first two bytes and its page for the others, and all of them by their
/// places.
#[derive(Drop)]
pub(crate) struct Codes<'a> {
    pub(crate) variables: &'a [Variable],
    pub(crate) places: &'a Places,
    pub(crate) pages: Vec<u32>,
    pub(crate) table: Vec<Entry>,
    ghost index: { IsIndex (codes_in variables.now) places.now },
    ghost known: { AreKnown (codes_in variables.now) table.items },
}
