//! What a number's token is worth (IEEE 1800-2017, 5.7.1).

use crate::expression::{Expression, Number};
use crate::refusal::{Expected, Refusal};

/// The bits of a digit in a base, and those of x and z.
#[derive(Clone, Copy)]
struct Digit {
    value: u128,
    unknown: bool,
}

fn digit_of(byte: u8) -> Option<Digit> {
    let value = match byte {
        b'0'..=b'9' => u128::from(byte - b'0'),
        b'a'..=b'f' => u128::from(byte - b'a') + 10,
        b'A'..=b'F' => u128::from(byte - b'A') + 10,
        b'x' | b'X' | b'z' | b'Z' | b'?' => {
            return Some(Digit {
                value: 0,
                unknown: true,
            });
        }
        _ => return None,
    };
    Some(Digit {
        value,
        unknown: false,
    })
}

/// The value of decimal digits, none above 2^128 - 1; underscores count for nothing.
fn decimal_of(text: &[u8]) -> Option<u128> {
    let mut value = 0u128;
    for byte in text {
        if let Some(digit) = digit_of(*byte) {
            if digit.unknown {
                return None;
            }
            value = value.checked_mul(10)?.checked_add(digit.value)?;
        }
    }
    Some(value)
}

/// How many values a digit has in a base, by its letter.
fn radix_of(base: u8) -> u128 {
    match base {
        b'b' | b'B' => 2,
        b'o' | b'O' => 8,
        b'h' | b'H' => 16,
        _ => 10,
    }
}

/// Whether digits take no more than 32 bits, where x and z stand for the largest digit.
fn has_32_bits(base: u8, digits: &[u8]) -> bool {
    let radix = radix_of(base);
    let mut value = 0u128;
    for byte in digits {
        if let Some(digit) = digit_of(*byte) {
            let worth = if digit.unknown {
                radix.saturating_sub(1)
            } else {
                digit.value
            };
            value = value.saturating_mul(radix).saturating_add(worth);
        }
    }
    value <= 0xffff_ffff
}

/// So many ones, from the right.
fn ones(count: u8) -> u128 {
    if count >= 128 {
        return u128::MAX;
    }
    (1u128 << count) - 1
}

/// The number of digits that are so many bits each, cut to its width on the left.
fn bits_of(digits: &[u8], each: u8, width: u8) -> Option<(u128, u128)> {
    let mut value = 0u128;
    let mut unknown = 0u128;
    let mut seen = 0u8;
    let mut first_unknown = false;
    for byte in digits {
        if let Some(digit) = digit_of(*byte) {
            if digit.value > ones(each) {
                return None;
            }
            if seen == 0 {
                first_unknown = digit.unknown;
            }
            seen = seen.saturating_add(each);
            value = value.wrapping_shl(u32::from(each)) | digit.value;
            let bits = if digit.unknown { ones(each) } else { 0 };
            unknown = unknown.wrapping_shl(u32::from(each)) | bits;
        }
    }
    if first_unknown {
        unknown |= ones(width) & !ones(seen);
    }
    Some((value & ones(width), unknown & ones(width)))
}

/// The width that is written before a quote; 32 where none is.
fn width_of(size: &[u8]) -> Option<u8> {
    let mut digits = 0usize;
    for byte in size {
        if digit_of(*byte).is_some() {
            digits = digits.saturating_add(1);
        }
    }
    if digits == 0 {
        return Some(32);
    }
    match decimal_of(size)? {
        width @ 1..=128 => u8::try_from(width).ok(),
        _ => None,
    }
}

/// The value and the unknown bits of digits in a base, by its letter.
fn valued(base: u8, digits: &[u8], width: u8) -> Option<(u128, u128)> {
    match base {
        b'b' | b'B' => bits_of(digits, 1, width),
        b'o' | b'O' => bits_of(digits, 3, width),
        b'h' | b'H' => bits_of(digits, 4, width),
        _ => match decimal_of(digits) {
            Some(value) => Some((value & ones(width), 0)),
            None => Some((0, ones(width))),
        },
    }
}

/// The number whose text after its quote is the second one.
fn based_number(size: &[u8], rest: &[u8]) -> Result<Expression<'static>, Refusal> {
    let width = width_of(size).ok_or(Refusal::WiderThan128)?;
    let signed = matches!(rest.first(), Some(b's' | b'S'));
    let from = if signed { 1usize } else { 0usize };
    let Some(base) = rest.get(from) else {
        return Err(Refusal::Expected(Expected::Expression));
    };
    if rest.len() == 1 {
        return fill_of(*base);
    }
    let digits = rest.get(from + 1..).unwrap_or(b"");
    if size.is_empty() && !has_32_bits(*base, digits) {
        return Err(Refusal::WiderThan128);
    }
    let (value, unknown) = valued(*base, digits, width).ok_or(Refusal::WiderThan128)?;
    Ok(Expression::Number(Number {
        width,
        value: value & !unknown,
        unknown,
        signed,
        sized: !size.is_empty(),
    }))
}

/// What fills all bits with one digit.
fn fill_of(digit: u8) -> Result<Expression<'static>, Refusal> {
    match digit {
        b'0' => Ok(Expression::Fill(false)),
        b'1' => Ok(Expression::Fill(true)),
        _ => Err(Refusal::UnknownDigits),
    }
}

/// The number that a token is.
pub(crate) fn number_of(text: &[u8]) -> Result<Expression<'static>, Refusal> {
    for (quote, byte) in text.iter().enumerate() {
        if *byte == b'\'' {
            return based_number(&text[..quote], &text[quote + 1..]);
        }
    }
    match decimal_of(text) {
        Some(value) if value <= 0xffff_ffff => Ok(Expression::Number(Number {
            width: 32,
            value,
            unknown: 0,
            signed: true,
            sized: false,
        })),
        _ => Err(Refusal::WiderThan128),
    }
}
