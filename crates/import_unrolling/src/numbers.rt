//! Tokens of numbers, which no text has.

use import_tokens::{Kind, Symbol, Token};
use std::alloc::{AllocError, Global};

/// Numbers below this have tokens.
pub const MOST_NUMBER: usize = 2_048;

/// The last digit of a number.
fn digit_of(number: usize) -> u8 {
    match u8::try_from(number % 10) {
        Ok(digit) => digit.wrapping_add(b'0'),
        Err(_) => b'0',
    }
}

/// The digits of all numbers that have tokens, four for each.
pub fn digits_of(alloc: Global) -> Result<Vec<u8>, AllocError> {
    let mut digits = Vec::new(alloc);
    for number in 0..MOST_NUMBER {
        digits.push(digit_of(number / 1000))?;
        digits.push(digit_of(number / 100))?;
        digits.push(digit_of(number / 10))?;
        digits.push(digit_of(number))?;
    }
    Ok(digits)
}

/// A token that was made.
pub(crate) fn made_token<'t>(kind: Kind, text: &'t [u8], at: usize) -> Token<'t> {
    Token {
        kind,
        at,
        made: true,
        text,
    }
}

/// For each number a sign and the number, as tokens with these digits.
pub fn numbers_of<'t>(alloc: Global, digits: &'t [u8]) -> Result<Vec<Token<'t>>, AllocError> {
    let mut numbers = Vec::new(alloc);
    for number in 0..MOST_NUMBER {
        let first = number.saturating_mul(4);
        let text = digits.get(first..first.saturating_add(4)).unwrap_or(b"0");
        numbers.push(made_token(Kind::Symbol(Symbol::Minus), b"-", 0))?;
        numbers.push(made_token(Kind::Number, text, 0))?;
    }
    Ok(numbers)
}

/// Whether 32 bits are those of a number below 0.
pub(crate) fn is_negative(value: u32) -> bool {
    value >= 0x8000_0000
}

/// The tokens of a number of 32 bits and a sign, if it has some.
pub(crate) fn spelled<'t>(numbers: &'t [Token<'t>], value: u32) -> Option<&'t [Token<'t>]> {
    let negative = is_negative(value);
    let size = if negative {
        0u32.wrapping_sub(value)
    } else {
        value
    };
    let sign = (size as usize).saturating_mul(2);
    let digits = sign.saturating_add(1);
    let first = if negative { sign } else { digits };
    numbers.get(first..digits.saturating_add(1))
}

/// The token of a number, at a byte.
pub(crate) fn number_token<'t>(numbers: &[Token<'t>], value: u32, at: usize) -> Token<'t> {
    let place = (value as usize).saturating_mul(2).saturating_add(1);
    match numbers.get(place) {
        Some(token) => made_token(Kind::Number, token.text, at),
        None => made_token(Kind::Stray, b"", at),
    }
}
