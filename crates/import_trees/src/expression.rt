//! Expressions, as they are written.

use crate::operator::{Infix, Prefix};
use import_tokens::Token;

/// The place of an expression among all that were read.
#[derive(Clone, Copy, PartialEq, Eq)]
pub struct ExpressionId(pub usize);

/// Expressions in a row, among all that stand in lists.
#[derive(Clone, Copy, PartialEq, Eq)]
pub struct ExpressionList {
    pub first: usize,
    pub count: usize,
}

/// A number (IEEE 1800-2017, 5.7.1).
#[derive(Clone, Copy, PartialEq, Eq)]
pub struct Number {
    /// In bits, 1 to 128: the size that is written, or 32.
    pub width: u8,
    pub value: u128,
    /// One for each bit that is x or z; those bits of the value are 0.
    pub unknown: u128,
    pub signed: bool,
    /// Whether a size is written.
    pub sized: bool,
}

/// A name with dots in it: its tokens, the dots among them.
#[derive(Clone, Copy)]
pub struct Path<'t> {
    pub tokens: &'t [Token<'t>],
}

/// What stands between the brackets of a call, which is read once it is known what is called.
#[derive(Clone, Copy)]
pub struct Actuals<'t> {
    pub tokens: &'t [Token<'t>],
}

/// An expression. `Span`, `Missing` and `Event` stand in lists alone.
#[derive(Clone, Copy)]
pub enum Expression<'t> {
    Number(Number),
    /// `'0` and `'1`.
    Fill(bool),
    /// `$`, as a bound or an argument.
    Unbounded,
    Name(Path<'t>),
    /// What is called may be a sequence, a property, a `let` or a function.
    Call(Path<'t>, Actuals<'t>),
    /// A system function.
    System(&'t [u8], ExpressionList),
    Prefix(Prefix, ExpressionId),
    Infix(Infix, ExpressionId, ExpressionId),
    Conditional(ExpressionId, ExpressionId, ExpressionId),
    Concatenation(ExpressionList),
    /// `{count{list}}`.
    Replication(ExpressionId, ExpressionList),
    /// `value inside {list}`.
    Inside(ExpressionId, ExpressionList),
    /// `[low:high]` in a list after `inside`.
    Span(ExpressionId, ExpressionId),
    /// `base[index]`.
    Index(ExpressionId, ExpressionId),
    /// `base[high:low]`.
    Slice(ExpressionId, ExpressionId, ExpressionId),
    /// `base[start +: width]`.
    PartUp(ExpressionId, ExpressionId, ExpressionId),
    /// `base[start -: width]`.
    PartDown(ExpressionId, ExpressionId, ExpressionId),
    /// `sequence.triggered`; `ended` is the same.
    Triggered(ExpressionId),
    /// An argument that is left out.
    Missing,
    /// An argument that is a clocking event.
    Event,
}

/// An expression, and the token at which it is told of.
#[derive(Clone, Copy)]
pub struct ExpressionNode<'t> {
    pub expression: Expression<'t>,
    /// The byte of its text.
    pub at: usize,
}
