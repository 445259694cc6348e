//! Expressions of the profile.

use import_trees::Path;
use parser_grammar::{Function, Infix, Prefix};

/// The place of a term among all of an assertion.
#[derive(Clone, Copy, PartialEq, Eq)]
pub struct TermId(pub usize);

/// Terms in a row, among all that stand in lists.
#[derive(Clone, Copy, PartialEq, Eq)]
pub struct TermList {
    pub first: usize,
    pub count: usize,
}

/// An expression of the profile, by its first operator.
#[derive(Clone, Copy)]
pub enum Term<'t> {
    /// A number of so many bits.
    Number(u8, u128),
    Signal(Path<'t>),
    Bit(Path<'t>, u32),
    /// The bits from the first number down to the second one.
    Bits(Path<'t>, u32, u32),
    /// The counter of the assertion that has this number, from 1 on.
    Counter(usize),
    Concatenation(TermList),
    Prefix(Prefix, TermId),
    Infix(Infix, TermId, TermId),
    Conditional(TermId, TermId, TermId),
    Call(Function, TermId),
    /// So many ticks ago, 1 to 64.
    Past(TermId, u32),
}

/// A counter that takes its value where the gate is true.
#[derive(Clone, Copy)]
pub struct Gate {
    /// In bits, 1 to 128.
    pub width: u8,
    pub gate: TermId,
    pub value: TermId,
}

/// How loosely a term joins its operands: 0 where it is closed, 10 for `? :`.
pub fn looseness(term: Term) -> u8 {
    match term {
        Term::Infix(operator, _, _) => match operator {
            Infix::Add | Infix::Sub => 1,
            Infix::ShiftLeft | Infix::ShiftRight => 2,
            Infix::Less | Infix::LessEqual | Infix::Greater | Infix::GreaterEqual => 3,
            Infix::Equal | Infix::NotEqual => 4,
            Infix::And => 5,
            Infix::Xor | Infix::Xnor => 6,
            Infix::Or => 7,
            Infix::LogicalAnd => 8,
            Infix::LogicalOr => 9,
        },
        Term::Conditional(_, _, _) => 10,
        _ => 0,
    }
}

/// Whether an operator may be grouped either way.
pub fn is_associative(operator: Infix) -> bool {
    matches!(
        operator,
        Infix::Add | Infix::And | Infix::Xor | Infix::Or | Infix::LogicalAnd | Infix::LogicalOr
    )
}
