//! What the names of a text may mean, and where it comes from.

use crate::unnamed::Unnamed;
use lint_notes::Turned;
use source_files::Origin;
use vcd_reader::Dump;

/// What the names of a text may mean, and the files that it was made of.
#[derive(Clone, Copy)]
pub struct Meant<'d> {
    pub dump: &'d Dump,
    /// The names of the text's sequences and counters, and the paths of the dump.
    pub names: &'d [String],
    /// The variables of the dump that no rule can name, as far as they are known.
    pub unnamed: &'d [Unnamed],
    /// The names whose declared range isn't `[n:0]`, as far as they are known.
    pub turned: &'d [Turned],
    /// Whether they are known.
    pub knows_ranges: bool,
    pub origin: Origin<'d>,
}
