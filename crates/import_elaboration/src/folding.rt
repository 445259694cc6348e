//! Arithmetic of constants (IEEE 1800-2017, 11.2.1), at any width of up to 128 bits, with a sign or
//! without one.

use import_trees::{Infix, Number, Prefix};

/// The width at which a constant is worked out, and whether it has a sign there (11.6.1, 11.8.1).
#[derive(Clone, Copy, PartialEq, Eq)]
pub(crate) struct Measure {
    pub width: u8,
    pub signed: bool,
}

/// What a number is by itself.
pub(crate) fn measure_of(number: Number) -> Measure {
    Measure {
        width: number.width,
        signed: number.signed,
    }
}

/// The larger width of two, with a sign where both have one.
pub(crate) fn joined_measure(first: Measure, second: Measure) -> Measure {
    Measure {
        width: first.width.max(second.width),
        signed: first.signed && second.signed,
    }
}

/// The number of so many bits.
pub(crate) fn number_at(value: u128, own: Measure) -> Number {
    Number {
        width: own.width,
        value,
        unknown: 0,
        signed: own.signed,
        sized: false,
    }
}

/// What a test gives: one bit.
pub(crate) fn bit(value: bool) -> Number {
    Number {
        width: 1,
        value: if value { 1 } else { 0 },
        unknown: 0,
        signed: false,
        sized: false,
    }
}

/// The bits of a number in a context: carried on by its sign where the context has one (11.8.2);
/// none where some aren't known.
pub(crate) fn extended(number: Number, own: Measure) -> Option<u128> {
    if number.unknown != 0 {
        return None;
    }
    let signed = own.signed;
    Some(resized(Number { signed, ..number }, own.width, signed).value)
}

/// Whether an operator's result is as wide as its left side, and its right side stands alone.
pub(crate) fn keeps_left(operator: Infix) -> bool {
    matches!(
        operator,
        Infix::Power
            | Infix::ShiftLeft
            | Infix::ShiftRight
            | Infix::ArithmeticShiftLeft
            | Infix::ArithmeticShiftRight
    )
}

/// Whether both sides of an operator take the width of its context.
pub(crate) fn is_arithmetic(operator: Infix) -> bool {
    matches!(
        operator,
        Infix::Add
            | Infix::Subtract
            | Infix::Multiply
            | Infix::Divide
            | Infix::Remainder
            | Infix::BitAnd
            | Infix::BitOr
            | Infix::BitXor
    )
}

/// Whether the low bits of an operator's result hang on high bits of its sides.
pub(crate) fn moves_down(operator: Infix) -> bool {
    matches!(
        operator,
        Infix::Divide | Infix::Remainder | Infix::ShiftRight | Infix::ArithmeticShiftRight
    )
}

/// Whether an operator compares two numbers that are known.
pub(crate) fn is_comparison(operator: Infix) -> bool {
    matches!(
        operator,
        Infix::Equal
            | Infix::NotEqual
            | Infix::CaseEqual
            | Infix::CaseNotEqual
            | Infix::Less
            | Infix::LessEqual
            | Infix::Greater
            | Infix::GreaterEqual
    )
}

/// Whether an operator joins two truths.
pub(crate) fn joins_truths(operator: Infix) -> bool {
    matches!(
        operator,
        Infix::And | Infix::Or | Infix::Implies | Infix::Equivalent
    )
}

/// Whether a number of a measure has a sign, and is below 0.
fn is_negative(value: u128, own: Measure) -> bool {
    own.signed && value > mask_of(own.width) >> 1
}

/// 0 less a number.
fn negated(value: u128, own: Measure) -> u128 {
    0u128.wrapping_sub(value) & mask_of(own.width)
}

/// A number without its sign, where it has at most 64 bits.
fn magnitude(value: u128, own: Measure) -> Option<u64> {
    let positive = if is_negative(value, own) {
        negated(value, own)
    } else {
        value
    };
    u64::try_from(positive).ok()
}

fn with_sign(value: u64, negative: bool, own: Measure) -> u128 {
    let value = u128::from(value);
    if negative { negated(value, own) } else { value }
}

fn quotient(a: u128, b: u128, own: Measure) -> Option<u128> {
    let divided = magnitude(a, own)?.checked_div(magnitude(b, own)?)?;
    let negative = is_negative(a, own) != is_negative(b, own);
    Some(with_sign(divided, negative, own))
}

fn remainder(a: u128, b: u128, own: Measure) -> Option<u128> {
    let left = magnitude(a, own)?.checked_rem(magnitude(b, own)?)?;
    Some(with_sign(left, is_negative(a, own), own))
}

/// A power, whose exponent isn't negative, and 128 at most.
fn power(base: u128, exponent: Number, own: Measure) -> Option<u128> {
    let count = counted(exponent)?;
    if count > 128 {
        return None;
    }
    let mut value = 1u128;
    for _ in 0..count {
        value = value.wrapping_mul(base);
    }
    Some(value & mask_of(own.width))
}

fn shifted_left(value: u128, places: u32, own: Measure) -> u128 {
    if places >= u32::from(own.width) {
        return 0;
    }
    value.wrapping_shl(places) & mask_of(own.width)
}

/// A number shifted to the right, with bits like its sign before it where it is negative.
fn shifted_right(value: u128, places: u32, negative: bool, own: Measure) -> u128 {
    let mask = mask_of(own.width);
    let filled = if negative { mask } else { 0 };
    let width = u32::from(own.width);
    if places >= width {
        return filled;
    }
    let high = shifted_left(filled, width.saturating_sub(places), own);
    value.wrapping_shr(places) | high
}

/// How many places a number shifts by.
fn places_of(number: Number) -> Option<u32> {
    if number.unknown != 0 {
        return None;
    }
    Some(u32::try_from(number.value).unwrap_or(u32::MAX))
}

/// What a shift or a power makes of a number of a measure.
pub(crate) fn moved(operator: Infix, value: u128, by: Number, own: Measure) -> Option<u128> {
    match operator {
        Infix::Power => power(value, by, own),
        Infix::ShiftLeft | Infix::ArithmeticShiftLeft => {
            Some(shifted_left(value, places_of(by)?, own))
        }
        Infix::ShiftRight => Some(shifted_right(value, places_of(by)?, false, own)),
        Infix::ArithmeticShiftRight => {
            let negative = is_negative(value, own);
            Some(shifted_right(value, places_of(by)?, negative, own))
        }
        _ => None,
    }
}

/// What an operator of arithmetic makes of two numbers of a measure.
pub(crate) fn arithmetic(operator: Infix, a: u128, b: u128, own: Measure) -> Option<u128> {
    let mask = mask_of(own.width);
    match operator {
        Infix::Add => Some(a.wrapping_add(b) & mask),
        Infix::Subtract => Some(a.wrapping_sub(b) & mask),
        Infix::Multiply => Some(a.wrapping_mul(b) & mask),
        Infix::Divide => quotient(a, b, own),
        Infix::Remainder => remainder(a, b, own),
        Infix::BitAnd => Some(a & b),
        Infix::BitOr => Some(a | b),
        Infix::BitXor => Some(a ^ b),
        _ => None,
    }
}

/// What an operator makes of a number of a measure.
pub(crate) fn prefixed(operator: Prefix, value: u128, own: Measure) -> Option<u128> {
    match operator {
        Prefix::Plus => Some(value),
        Prefix::Minus => Some(negated(value, own)),
        Prefix::Complement => Some(value ^ mask_of(own.width)),
        _ => None,
    }
}

/// Where a number stands among all of its measure, from the least on.
fn ordinal(value: u128, own: Measure) -> u128 {
    if !own.signed {
        return value;
    }
    let top = (mask_of(own.width) >> 1).wrapping_add(1);
    value ^ top
}

/// What a comparison says of two numbers of one measure.
pub(crate) fn compared(operator: Infix, a: u128, b: u128, own: Measure) -> Option<bool> {
    let (low, high) = (ordinal(a, own), ordinal(b, own));
    match operator {
        Infix::Equal | Infix::CaseEqual => Some(low == high),
        Infix::NotEqual | Infix::CaseNotEqual => Some(low != high),
        Infix::Less => Some(low < high),
        Infix::LessEqual => Some(low <= high),
        Infix::Greater => Some(high < low),
        Infix::GreaterEqual => Some(high <= low),
        _ => None,
    }
}

/// What `&&` and `||` say of two numbers.
pub(crate) fn both_truths(operator: Infix, first: Number, second: Number) -> Option<bool> {
    if first.unknown != 0 || second.unknown != 0 {
        return None;
    }
    match operator {
        Infix::And => Some(first.value != 0 && second.value != 0),
        Infix::Or => Some(first.value != 0 || second.value != 0),
        _ => None,
    }
}

/// The number that a constant counts; none where it is negative, or not known.
pub(crate) fn counted(number: Number) -> Option<u32> {
    if number.unknown != 0 || is_negative(number.value, measure_of(number)) {
        return None;
    }
    u32::try_from(number.value).ok()
}

/// So many bits that are 1.
fn mask_of(width: u8) -> u128 {
    if width >= 128 {
        u128::MAX
    } else {
        (1u128 << width) - 1
    }
}

/// A number cut to a width, or carried on to it by its sign, if it has one.
pub(crate) fn resized(number: Number, width: u8, signed: bool) -> Number {
    let own = mask_of(number.width);
    let negative = number.signed && number.value > own >> 1;
    let high = if negative { u128::MAX ^ own } else { 0 };
    let mask = mask_of(width);
    Number {
        width,
        value: (number.value | high) & mask,
        unknown: number.unknown & mask,
        signed,
        sized: true,
    }
}

/// How many bits the numbers below a number take.
pub(crate) fn bits_below(number: u32) -> u32 {
    let largest = number.saturating_sub(1);
    32u32.saturating_sub(largest.leading_zeros())
}

/// A number without a size.
pub(crate) fn plain(value: u32) -> Number {
    number_at(
        u128::from(value),
        Measure {
            width: 32,
            signed: true,
        },
    )
}
