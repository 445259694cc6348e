//! Operators on values.

ghost use Rattle.std.specs.Prelude.{◌≡◌};
ghost use Rattle.expressions.specs.Operators.{arithmetic, shift_value, comparison_value};
ghost use Rattle.expressions.specs.Operators.{connective_value, reduction_value, change_of};

use crate::operator::{Arithmetic, Change, Comparison, Connective, Reduction, Shift};
use signals::Bits;

/// Two values of one width.
pub(crate) fn combine(op: Arithmetic, a: Bits, b: Bits) -> Bits
    requires { a.width ≡ b.width }
    ensures width { result.width ≡ a.width }
    ensures value { result.value ≡ arithmetic op a.width a.value b.value }
{
    match op {
        Arithmetic::Add => a.add(b),
        Arithmetic::Sub => a.sub(b),
        Arithmetic::And => a.and(b),
        Arithmetic::Or => a.or(b),
        Arithmetic::Xor => a.xor(b),
        Arithmetic::Xnor => a.xor(b).not(),
    }
}

/// The value moved by a count of any width.
pub(crate) fn shift(op: Shift, a: Bits, count: Bits) -> Bits
    ensures width { result.width ≡ a.width }
    ensures value { result.value ≡ shift_value op a.width a.value count.value }
{
    match op {
        Shift::Left => a.shl(count),
        Shift::Right => a.shr(count),
    }
}

/// Two values, each extended to the larger width.
pub(crate) fn compare(op: Comparison, a: Bits, b: Bits) -> Bits
    ensures width { result.width ≡ 1 }
    ensures value { result.value ≡ comparison_value op a.value b.value }
{
    match op {
        Comparison::Equal => Bits::flag(a.value == b.value),
        Comparison::Differs => Bits::flag(a.value != b.value),
        Comparison::Less => Bits::flag(a.value < b.value),
        Comparison::AtMost => Bits::flag(a.value <= b.value),
        Comparison::Greater => Bits::flag(a.value > b.value),
        Comparison::AtLeast => Bits::flag(a.value >= b.value),
    }
}

/// Two values of any widths, each true where it is not 0.
pub(crate) fn connect(op: Connective, a: Bits, b: Bits) -> Bits
    ensures width { result.width ≡ 1 }
    ensures value { result.value ≡ connective_value op a.value b.value }
{
    match op {
        Connective::Both => Bits::flag(a.value != 0 && b.value != 0),
        Connective::Either => Bits::flag(a.value != 0 || b.value != 0),
    }
}

/// A test of all bits.
pub(crate) fn reduce(op: Reduction, a: Bits) -> Bits
    ensures width { result.width ≡ 1 }
    ensures value { result.value ≡ reduction_value op a.width a.value }
{
    match op {
        Reduction::Zero => Bits::flag(a.value == 0),
        Reduction::NonZero => a.red_or(),
        Reduction::AllOnes => a.red_and(),
        Reduction::NotAllOnes => a.red_and().not(),
        Reduction::Odd => a.red_xor(),
        Reduction::Even => a.red_xor().not(),
        Reduction::OneHot => a.onehot(),
        Reduction::OneHotOrZero => a.onehot0(),
    }
}

/// A comparison of a value with an earlier one.
pub(crate) fn change(op: Change, now: Bits, before: Bits) -> Bits
    ensures width { result.width ≡ 1 }
    ensures value { result.value ≡ change_of op now.value before.value }
{
    match op {
        Change::Rose => Bits::flag(now.value % 2 == 1 && before.value % 2 == 0),
        Change::Fell => Bits::flag(now.value % 2 == 0 && before.value % 2 == 1),
        Change::Stable => Bits::flag(now.value == before.value),
        Change::Changed => Bits::flag(now.value != before.value),
    }
}
