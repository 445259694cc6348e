//! How files are read.

use import_text::DumpSignal;

/// How files are read, and what is known of the signals that they name.
#[derive(Clone, Copy)]
pub struct Reading<'w> {
    /// A path that stands before each name whose first word isn't the path's first.
    pub scope: Option<&'w [u8]>,
    /// How many ticks an open end stands for, from 1 to 127.
    pub bound: Option<u8>,
    /// The clock whose assertions are written; that of the first one where none is given.
    pub clock: Option<&'w [u8]>,
    /// The signals of a dump, in the order of their whole paths; none where no dump is given.
    pub widths: &'w [DumpSignal<'w>],
    /// The paths of these, in any order.
    pub names: &'w [String],
    /// Whether an assertion of two properties that is too heavy is written as two.
    pub split: bool,
}
