//! What a piece of the text looks like.

use crate::token::{Base, Symbol};

/// The shape of a token, before the value of a number is known.
#[derive(Clone, Copy)]
pub enum Shape {
    Word,
    System,
    Number,
    Symbol(Symbol),
}

/// What goes on with a word, a system name, a decimal or the digits of a base.
#[derive(Clone, Copy)]
pub enum Part {
    Word,
    System,
    Digit,
    Based(Base),
}
