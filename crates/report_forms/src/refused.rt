//! What is told of items that are refused.

/// An item of a text that is refused: where it stands, and why.
#[derive(Clone, Copy)]
pub struct Refused<'a> {
    /// Its file, its line and its column.
    pub place: &'a str,
    /// The code of the fault, and what is told of it.
    pub reason: &'a str,
}
