//! Sequences of ticks, as they are written.

use crate::condition::Condition;

/// A sequence as it is written, with names written out (IEEE 1800-2017, 16.7 and 16.9).
#[derive(Drop)]
pub enum Sequence {
    /// One tick at which the boolean is true.
    Boolean(Condition),
    /// `first ##[least:most] second`.
    Delay(Box<Sequence>, u8, u8, Box<Sequence>),
    /// `##[least:most] body`, with nothing before it.
    Lead(u8, u8, Box<Sequence>),
    /// `body[*least:most]`: so many matches, each directly after the one before.
    Repeat(Box<Sequence>, u8, u8),
    /// Either of the two.
    Or(Box<Sequence>, Box<Sequence>),
    /// Both, from the same tick; it ends where the later one ends.
    And(Box<Sequence>, Box<Sequence>),
    /// Both, from the same tick to the same tick.
    Intersect(Box<Sequence>, Box<Sequence>),
    /// The boolean is true at each tick of the sequence.
    Throughout(Condition, Box<Sequence>),
}
