//! Items that are a line of their own, read at once: scalars, vectors and times, as simulators
//! write them. Any other item is read by `body`.

ghost use Rattle.std.specs.Prelude.{List, ◌≡◌, ℕ, ◌+◌, ◌<◌, ◌≤◌, length, get_or, IfSome, Some};
ghost use Rattle.vcd_reader.specs.Numbers.{bit_of};
ghost use Rattle.vcd_reader.specs.Variables.{place_of};
ghost use Rattle.vcd_reader.specs.Index.{codes_in};
ghost use Rattle.vcd_reader.specs.Packed.{unpacked_code};
ghost use Rattle.vcd_reader.specs.Lines.{IsPackedAt, AreBitsAt, AreFourAt, AreDigitsAt};
ghost use Rattle.vcd_reader.specs.Readings.{IsItemAt};

use crate::codes::Codes;
use crate::item::Item;
use crate::number::{bit_value, is_bit_digit};
use crate::packed::entry_place;

/// From this number on, one more digit of a vector may be too many for 64 bits.
const HIGH: u64 = 1 << 63;

/// From this number on, one more digit of a vector may be too many for 128 bits.
const WIDE: u128 = 1 << 127;

/// From this number on, four more digits of a vector may be too many for 64 bits.
const LOW: u64 = 1 << 60;

/// From this number on, one more decimal digit may be too many.
const MANY: u64 = 1_000_000_000_000_000_000;

/// The four bytes of four digits, the first as the lowest, at the number that the digits are.
const FOUR: [u32; 16] = [
    0x3030_3030,
    0x3130_3030,
    0x3031_3030,
    0x3131_3030,
    0x3030_3130,
    0x3130_3130,
    0x3031_3130,
    0x3131_3130,
    0x3030_3031,
    0x3130_3031,
    0x3031_3031,
    0x3131_3031,
    0x3030_3131,
    0x3130_3131,
    0x3031_3131,
    0x3131_3131,
];

/// The code of one to three bytes that begins at `from` and ends before a line feed, packed, and
/// where it ends.
#[inline(always)]
fn packed_at(bytes: &[u8], from: usize) -> Option<(u32, usize)>
    requires { from + 4 ≤ length bytes.now }
    ensures { IfSome result (λ r. IsPackedAt bytes.now from r.0 r.1) }
{
    let a = bytes[from];
    let b = bytes[from + 1];
    if a <= b' ' {
        return None;
    }
    if b == b'\n' {
        return Some((u32::from(a), from + 1));
    }
    let c = bytes[from + 2];
    if b <= b' ' {
        return None;
    }
    if c == b'\n' {
        return Some((u32::from(a) + u32::from(b) * 256, from + 2));
    }
    let d = bytes[from + 3];
    if c <= b' ' || d != b'\n' {
        return None;
    }
    let packed = u32::from(a) + u32::from(b) * 256 + u32::from(c) * 65_536;
    Some((packed, from + 3))
}

/// The number of a code, if the table has it.
#[inline(always)]
fn listed(codes: &Codes, packed: u32) -> Option<u32>
    requires { 0 < packed }
    ensures { IfSome result (λ n. place_of (codes_in codes.now.variables.now) (unpacked_code packed)
        ≡ Some n) }
{
    let place = entry_place(&codes.pages, packed);
    if place < codes.table.len() {
        let entry = codes.table[place];
        if entry.packed == packed {
            return Some(entry.number);
        }
    }
    None
}

/// What a digit of a vector is worth.
#[inline(always)]
fn bit(byte: u8) -> u64
    ensures { result ≡ bit_of byte }
{
    if byte == b'1' { 1 } else { 0 }
}

/// The number of the four digits at `at`, each 0 or 1; 16 if they aren't.
#[inline(always)]
fn four_at(bytes: &[u8], at: usize) -> u64
    requires { at + 4 ≤ length bytes.now }
    ensures { result < 16 → AreFourAt bytes.now at result }
{
    let word = u32::from(bytes[at])
        + u32::from(bytes[at + 1]) * 256
        + u32::from(bytes[at + 2]) * 65_536
        + u32::from(bytes[at + 3]) * 16_777_216;
    let number = word.wrapping_sub(0x3030_3030).wrapping_mul(0x8040_2010) >> 28;
    if FOUR[number as usize] != word {
        return 16;
    }
    u64::from(number)
}

/// The number of digits from `from` on, four at a time, and where they end.
#[inline(always)]
fn fours_at(bytes: &[u8], from: usize) -> (u64, usize)
    requires { from ≤ length bytes.now }
    ensures { AreBitsAt bytes.now from result.0 result.1 }
{
    let mut number = 0u64;
    let mut at = from;
    while bytes.len() - at >= 4 && number < LOW {
        let four = four_at(bytes, at);
        if four >= 16 {
            return (number, at);
        }
        number = 16 * number + four;
        at += 4;
    }
    (number, at)
}

/// The number of the digits from `from` on, and where they end: before the first that may be too
/// many.
#[inline(always)]
fn bits_at(bytes: &[u8], from: usize) -> (u64, usize)
    requires { from ≤ length bytes.now }
    ensures { AreBitsAt bytes.now from result.0 result.1 }
{
    let (mut number, mut at) = fours_at(bytes, from);
    while at < bytes.len() && number < HIGH {
        let byte = bytes[at];
        if !is_bit_digit(byte) {
            return (number, at);
        }
        number = 2 * number + bit(byte);
        at += 1;
    }
    (number, at)
}

/// The same in 128 bits, from `stop` on, behind digits whose number is `narrow`.
#[inline(never)]
fn wide_at(bytes: &[u8], from: usize, narrow: u64, stop: usize) -> (u128, usize)
    requires { AreBitsAt bytes.now from narrow stop }
    ensures { AreBitsAt bytes.now from result.0 result.1 }
{
    let mut number = u128::from(narrow);
    let mut at = stop;
    while at < bytes.len() && number < WIDE {
        if bytes.len() - at >= 4 && number < WIDE / 8 {
            let four = four_at(bytes, at);
            if four < 16 {
                number = 16 * number + u128::from(four);
                at += 4;
                continue;
            }
        }
        let byte = bytes[at];
        if !is_bit_digit(byte) {
            return (number, at);
        }
        number = 2 * number + u128::from(bit(byte));
        at += 1;
    }
    (number, at)
}

/// The number of the digits from `from` on, and where they end: before the first that may be too
/// many for 128 bits.
#[inline(always)]
fn number_at(bytes: &[u8], from: usize) -> (u128, usize)
    requires { from ≤ length bytes.now }
    ensures { AreBitsAt bytes.now from result.0 result.1 }
{
    let (number, stop) = bits_at(bytes, from);
    if number >= HIGH {
        return wide_at(bytes, from, number, stop);
    }
    (u128::from(number), stop)
}

/// The change of a scalar whose digit is behind the line feed at `at`, and where it ends.
#[inline(always)]
fn scalar_on_line(bytes: &[u8], at: usize, codes: &Codes) -> Option<(Item, usize)>
    requires inside { at + 6 ≤ length bytes.now }
    requires feed { get_or bytes.now at 0 ≡ 10 }
    ensures high { IfSome result (λ r. at < r.1) }
    ensures item { IfSome result (λ r.
        IsItemAt (codes_in codes.now.variables.now) bytes.now at r.0 r.1) }
{
    let digit = bytes[at + 1];
    if !is_bit_digit(digit) {
        return None;
    }
    let (packed, end) = packed_at(bytes, at + 2)?;
    let code = listed(codes, packed)?;
    Some((Item::Changed(code, bit_value(digit)), end))
}

/// The change of a vector whose `b` is behind the line feed at `at`, and where it ends.
#[inline(always)]
fn vector_on_line(bytes: &[u8], at: usize, codes: &Codes) -> Option<(Item, usize)>
    requires inside { at + 2 ≤ length bytes.now }
    requires feed { get_or bytes.now at 0 ≡ 10 }
    requires begins { get_or bytes.now (at + 1) 0 ≡ 98 }
    ensures high { IfSome result (λ r. at < r.1) }
    ensures item { IfSome result (λ r.
        IsItemAt (codes_in codes.now.variables.now) bytes.now at r.0 r.1) }
{
    let (number, stop) = number_at(bytes, at + 2);
    if stop == at + 2 || bytes.len() - stop < 5 || bytes[stop] != b' ' {
        return None;
    }
    let (packed, end) = packed_at(bytes, stop + 1)?;
    let code = listed(codes, packed)?;
    Some((Item::Changed(code, number), end))
}

/// The number of the decimal digits from `from` on, and where they end: before the first that may
/// be too many.
#[inline(always)]
fn digits_at(bytes: &[u8], from: usize) -> (u64, usize)
    requires { from ≤ length bytes.now }
    ensures { AreDigitsAt bytes.now from result.0 result.1 }
{
    let mut number = 0u64;
    let mut at = from;
    while at < bytes.len() && number < MANY {
        let byte = bytes[at];
        if !byte.is_ascii_digit() {
            return (number, at);
        }
        number = 10 * number + u64::from(byte - b'0');
        at += 1;
    }
    (number, at)
}

/// The time whose `#` is behind the line feed at `at`, and where it ends.
#[inline(always)]
fn time_on_line(bytes: &[u8], at: usize) -> Option<(Item, usize)>
    requires inside { at + 2 ≤ length bytes.now }
    requires feed { get_or bytes.now at 0 ≡ 10 }
    requires begins { get_or bytes.now (at + 1) 0 ≡ 35 }
    ensures high { IfSome result (λ r. at < r.1) }
    ensures item { (declared : List (List ℕ))
        → IfSome result (λ r. IsItemAt declared bytes.now at r.0 r.1) }
{
    let (time, end) = digits_at(bytes, at + 2);
    if end == at + 2 || end >= bytes.len() || bytes[end] != b'\n' {
        return None;
    }
    Some((Item::Timed(time, at + 1), end))
}

/// The item that is the whole line behind the line feed at `at`, and where it ends, if it is one
/// that is read at once.
#[inline(always)]
pub(crate) fn line_item(bytes: &[u8], at: usize, codes: &Codes) -> Option<(Item, usize)>
    requires { at ≤ length bytes.now }
    ensures high { IfSome result (λ r. at < r.1) }
    ensures item { IfSome result (λ r.
        IsItemAt (codes_in codes.now.variables.now) bytes.now at r.0 r.1) }
{
    if bytes.len() - at < 6 || bytes[at] != b'\n' {
        return None;
    }
    match bytes[at + 1] {
        b'b' => vector_on_line(bytes, at, codes),
        b'#' => time_on_line(bytes, at),
        _ => scalar_on_line(bytes, at, codes),
    }
}
