//! Sequences with names in them.

/// A sequence as it is written (IEEE 1800-2017, 16.7 to 16.9), with booleans and named sequences by
/// their places. A range has its least count, and by how many its largest is more.
#[derive(Drop)]
pub enum Draft {
    /// The constant 1.
    One,
    Boolean(usize),
    /// A named sequence, by the place of its declaration.
    Name(usize),
    /// `first ##[least:least + extra] second`
    Delay(Box<Draft>, u8, u8, Box<Draft>),
    /// `##[least:least + extra] body`, with nothing before it.
    Lead(u8, u8, Box<Draft>),
    /// `body[*least:least + extra]`
    Repeat(Box<Draft>, u8, u8),
    Or(Box<Draft>, Box<Draft>),
    And(Box<Draft>, Box<Draft>),
    Intersect(Box<Draft>, Box<Draft>),
    Throughout(usize, Box<Draft>),
}
