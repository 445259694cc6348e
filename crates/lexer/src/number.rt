//! What a number's text is worth.

ghost use Rattle.std.specs.Prelude.{◌≡◌, ◌+◌, ◌≤◌, ◌<◌, ◌^◌, ◌%◌, IfSome, option_map};
ghost use Rattle.lexer.specs.Lexemes.{base_of};
ghost use Rattle.lexer.specs.Numbers.{radix_of, digit_value, value_within, size_before};
ghost use Rattle.lexer.specs.Numbers.{sized_value, plain_number, number_in_base, number_of};

use crate::longest::{base_of, run_end};
use crate::piece::Part;
use crate::token::{Base, Number};

fn radix_of(base: Base) -> u128
    ensures value { result ≡ radix_of base }
    ensures low { 2 ≤ result }
    ensures high { result ≤ 16 }
{
    match base {
        Base::Binary => 2,
        Base::Octal => 8,
        Base::Decimal => 10,
        Base::Hexadecimal => 16,
    }
}

#[tactic(auto, unfolding(crate::specs::Numbers::digit_value))]
fn digit_value(byte: u8) -> Option<u128>
    ensures value { result ≡ digit_value byte }
    ensures high { IfSome result (λ d. d < 16) }
{
    if byte >= b'0' && byte <= b'9' {
        Some(u128::from(byte - b'0'))
    } else if byte >= b'a' && byte <= b'f' {
        Some(u128::from(byte - b'W'))
    } else if byte >= b'A' && byte <= b'F' {
        Some(u128::from(byte - b'7'))
    } else {
        None
    }
}

/// The value of the digits, if each has one and it is `most` at most.
fn value_within(digits: &[u8], radix: u128, width: u8, most: u128) -> Option<u128>
    requires low { 2 ≤ radix }
    requires high { radix ≤ 16 }
    requires some { 16 ≤ most }
    requires most { most + 1 ≡ 2 ^ width }
    ensures { result ≡ value_within width radix digits.now }
{
    let mut value = 0u128;
    for byte in digits {
        if *byte == b'_' {
            continue;
        }
        let Some(digit) = digit_value(*byte) else {
            return None;
        };
        let room = (most - digit) / radix;
        if value > room {
            return None;
        }
        value = radix * value + digit;
    }
    Some(value)
}

/// The low bits of a value.
fn cut(value: u128, width: u8) -> u128
    requires some { 1 ≤ width }
    requires most { width ≤ 128 }
    ensures { result ≡ value % 2 ^ width }
{
    value & (u128::MAX >> (128 - width))
}

/// The size that is written before a quote, if it is 1 to 128.
fn size_before(digits: &[u8]) -> Option<Option<u8>>
    ensures value { result ≡ size_before digits.now }
    ensures range { IfSome result (λ s. IfSome s (λ n. (1 ≤ n) × (n ≤ 128))) }
{
    if digits.is_empty() {
        return Some(None);
    }
    let Some(size) = value_within(digits, 10, 128, u128::MAX) else {
        return None;
    };
    if size < 1 || size > 128 {
        return None;
    }
    Some(Some(size as u8))
}

/// The value of the digits of a base, cut to the size.
fn sized_value(size: Option<u8>, radix: u128, digits: &[u8]) -> Option<u128>
    requires low { 2 ≤ radix }
    requires high { radix ≤ 16 }
    requires range { IfSome size (λ n. (1 ≤ n) × (n ≤ 128)) }
    ensures { result ≡ sized_value size radix digits.now }
{
    if digits.is_empty() {
        return None;
    }
    match size {
        Some(width) => {
            let Some(value) = value_within(digits, radix, 128, u128::MAX) else {
                return None;
            };
            Some(cut(value, width))
        }
        None => value_within(digits, radix, 32, u128::from(u32::MAX)),
    }
}

/// A plain decimal.
fn plain_number(digits: &[u8]) -> Option<Number>
    ensures { result ≡ option_map plain_number (value_within 32 10 digits.now) }
{
    let Some(value) = value_within(digits, 10, 32, u128::from(u32::MAX)) else {
        return None;
    };
    Some(Number {
        size: None,
        base: None,
        value,
    })
}

/// The number with the base letter, if it has a value.
fn number_in_base(size: Option<u8>, letter: u8, digits: &[u8]) -> Option<Number>
    requires range { IfSome size (λ n. (1 ≤ n) × (n ≤ 128)) }
    ensures { result ≡ number_in_base size digits.now (base_of letter) }
{
    let Some(base) = base_of(letter) else {
        return None;
    };
    let Some(value) = sized_value(size, radix_of(base), digits) else {
        return None;
    };
    Some(Number {
        size,
        base: Some(base),
        value,
    })
}

/// The number that the text of a number is, if it has a value.
pub(crate) fn number_of(text: &[u8]) -> Option<Number>
    ensures { result ≡ number_of text.now }
{
    let quote = run_end(text, 0, Part::Digit);
    if quote == text.len() {
        return plain_number(text);
    }
    if text.len() - quote == 1 {
        return None;
    }
    let Some(size) = size_before(&text[..quote]) else {
        return None;
    };
    number_in_base(size, text[quote + 1], &text[quote + 2..])
}
