//! A team's own files.

/// A team's own SystemVerilog files, and how they are read.
#[derive(Drop)]
pub struct TeamFiles {
    /// The files, in the order in which they are joined.
    pub files: Vec<String>,
    /// The path of the scope in which names are looked up.
    pub scope: Option<String>,
    /// What stands for `$` in a range, from 1 to 127.
    pub bound: Option<u64>,
    /// The clock whose assertions count.
    pub clock: Option<String>,
    /// Macros, each a name, and after a `=` its text.
    pub define: Vec<String>,
    /// Whether an assertion that is too heavy may become two.
    pub split: bool,
}
