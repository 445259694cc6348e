//! How the term of a value is made from those of its operands.

use crate::term::{Term, TermId};
use import_elaboration::ValueId;
use import_trees::Path;
use parser_grammar::{Function, Infix, Prefix};

/// What a value's term is, over the terms of the operands that it asks for.
#[derive(Clone, Copy)]
pub(crate) enum Plan<'t> {
    /// A term without operands.
    Term(Term<'t>),
    /// A term that is there.
    Made(TermId),
    /// All bits 1.
    Ones,
    /// The operand itself.
    Same,
    /// `{operand}`.
    Braced,
    /// `0 - operand`.
    Negative,
    Prefix(Prefix),
    Infix(Infix),
    /// `!first || second`.
    Implied,
    /// `!first == !second`.
    Equivalent,
    Conditional,
    /// All operands, so many times.
    Concatenation(u32),
    /// One of the tests.
    AnyTest,
    /// The bit of the first operand at the second one.
    BitAt,
    /// So many bits of the first operand from the second one on.
    PartAt(u32),
    /// So many bits of the operand, the second number, from the first number on.
    Part(u32, u32),
    /// The operand at so many bits or more, with braces round the operand, or round all.
    Widened(u8, bool, bool),
    /// So many bits of the operand from the right, which may have braces round it.
    Cut(u8, bool),
    /// The operand times a number of so many bits.
    Product(u8, u128),
    /// The operand without so many low bits, at so many bits or more.
    Quotient(u8, u32),
    /// The bits of the operand that are 1 in a number of so many bits.
    Masked(u8, u128),
    /// 1, of so many bits, shifted by the operand.
    Power(u8),
    Call(Function),
    /// `!call`.
    NoCall(Function),
    /// So many ticks ago.
    Past(u32),
    /// So many ticks ago at which the second operand was true; the operand has so many bits.
    GatedPast(u32, u8),
    /// The sum of all bits.
    Sum,
}

/// What a plan asks for, in order.
#[derive(Clone, Copy)]
pub(crate) enum Asked<'t> {
    /// The term of an operand. Where `alone` is true, only what it is worth counts, and it may be
    /// wider than the operand is.
    Operand(ValueId, bool),
    /// A test of the next two operands.
    Compare(Infix),
    /// A test that the next operand equals the number, of so many bits, but for the bits that are 1
    /// in the last number.
    Wild(Infix, u8, u128, u128),
    /// A test that the next operand equals the number, of so many bits, in the bits that are 1 in
    /// the last number.
    Known(Infix, u8, u128, u128),
    /// A test of four operands: the first is at least the second, and the third at most the fourth.
    Within,
    /// A test that is true.
    Always,
    /// A signal of one bit.
    Signal(Path<'t>),
    /// The bits of a signal from the first number down to the second one.
    Bits(Path<'t>, u32, u32),
    /// All bits of the next operand, which are so many; in braces, where a wider context would
    /// change it.
    BitsOf(u32, bool),
}
