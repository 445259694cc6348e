//! Operators and functions of the text, by the rule for their operands' widths.

ghost use Rattle.std.specs.Prelude.{◌≡◌};
ghost use Rattle.types_names.specs.Width.{binary_of, unary_of, call_of};

use expressions::{Arithmetic, Change, Comparison, Connective, Reduction, Shift};
use parser_grammar::{Function, Infix, Prefix};

/// An operator of two operands.
#[derive(Clone, Copy)]
pub enum Binary {
    Arithmetic(Arithmetic),
    Shift(Shift),
    Comparison(Comparison),
    Connective(Connective),
}

/// An operator of one operand.
#[derive(Clone, Copy)]
pub enum Unary {
    Complement,
    Reduce(Reduction),
}

/// A function of one operand.
#[derive(Clone, Copy)]
pub enum Call {
    Change(Change),
    Reduce(Reduction),
}

/// What a left operator does.
pub fn binary_of(operator: Infix) -> Binary
    ensures { result ≡ binary_of operator }
{
    match operator {
        Infix::Add => Binary::Arithmetic(Arithmetic::Add),
        Infix::Sub => Binary::Arithmetic(Arithmetic::Sub),
        Infix::ShiftLeft => Binary::Shift(Shift::Left),
        Infix::ShiftRight => Binary::Shift(Shift::Right),
        Infix::Less => Binary::Comparison(Comparison::Less),
        Infix::LessEqual => Binary::Comparison(Comparison::AtMost),
        Infix::Greater => Binary::Comparison(Comparison::Greater),
        Infix::GreaterEqual => Binary::Comparison(Comparison::AtLeast),
        Infix::Equal => Binary::Comparison(Comparison::Equal),
        Infix::NotEqual => Binary::Comparison(Comparison::Differs),
        Infix::And => Binary::Arithmetic(Arithmetic::And),
        Infix::Xor => Binary::Arithmetic(Arithmetic::Xor),
        Infix::Xnor => Binary::Arithmetic(Arithmetic::Xnor),
        Infix::Or => Binary::Arithmetic(Arithmetic::Or),
        Infix::LogicalAnd => Binary::Connective(Connective::Both),
        Infix::LogicalOr => Binary::Connective(Connective::Either),
    }
}

/// What a unary operator does.
pub fn unary_of(operator: Prefix) -> Unary
    ensures { result ≡ unary_of operator }
{
    match operator {
        Prefix::Not => Unary::Reduce(Reduction::Zero),
        Prefix::Complement => Unary::Complement,
        Prefix::And => Unary::Reduce(Reduction::AllOnes),
        Prefix::Nand => Unary::Reduce(Reduction::NotAllOnes),
        Prefix::Or => Unary::Reduce(Reduction::NonZero),
        Prefix::Nor => Unary::Reduce(Reduction::Zero),
        Prefix::Xor => Unary::Reduce(Reduction::Odd),
        Prefix::Xnor => Unary::Reduce(Reduction::Even),
    }
}

/// What a function does.
pub fn call_of(function: Function) -> Call
    ensures { result ≡ call_of function }
{
    match function {
        Function::Rose => Call::Change(Change::Rose),
        Function::Fell => Call::Change(Change::Fell),
        Function::Stable => Call::Change(Change::Stable),
        Function::Changed => Call::Change(Change::Changed),
        Function::OneHot => Call::Reduce(Reduction::OneHot),
        Function::OneHot0 => Call::Reduce(Reduction::OneHotOrZero),
    }
}
