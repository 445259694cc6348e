//! Numbers, up to their ends.

ghost use Rattle.std.specs.Prelude.{◌+◌, ◌<◌, ◌≤◌, length, IfSome};

use crate::runs::{Class, byte_at, is_digit, is_letter, is_name_part, run_end, white_end};

/// Where a number ends, and whether it is a real one or a time.
#[derive(Clone, Copy)]
pub(crate) struct NumberEnd {
    pub real: bool,
    pub end: usize,
}

/// The class of the digits after a base letter; none where the letter is no base.
fn class_of(base: u8) -> Option<Class> {
    match base {
        b'b' | b'B' => Some(Class::Binary),
        b'o' | b'O' => Some(Class::Octal),
        b'd' | b'D' => Some(Class::Digit),
        b'h' | b'H' => Some(Class::Hexadecimal),
        _ => None,
    }
}

/// Where the digits end that stand at the start; none where there are none.
fn digits_end(text: &[u8], start: usize, class: Class) -> Option<usize>
    requires { start ≤ length text.now }
    ensures { IfSome result (λ end. (start < end) × (end ≤ length text.now)) }
{
    let end = run_end(text, start, class);
    if end == start || text[start] == b'_' {
        return None;
    }
    Some(end)
}

/// Where a based number ends whose quote stands there (5.7.1).
fn based_end(text: &[u8], quote: usize) -> Option<usize>
    requires { quote < length text.now }
    ensures { IfSome result (λ end. (quote < end) × (end ≤ length text.now)) }
{
    let signed = byte_at(text, quote + 1) == b's' || byte_at(text, quote + 1) == b'S';
    let base = if signed { quote + 2 } else { quote + 1 };
    let class = class_of(byte_at(text, base))?;
    if base >= text.len() {
        return None;
    }
    let start = white_end(text, base + 1);
    match digits_end(text, start, class) {
        Some(end) => Some(end),
        None => digits_end(text, start, Class::Unknown),
    }
}

/// Where a quote and one digit end, which fill all bits (5.7.1).
fn fill_end(text: &[u8], quote: usize) -> Option<usize>
    requires { quote < length text.now }
    ensures { IfSome result (λ end. (quote < end) × (end ≤ length text.now)) }
{
    let fills = matches!(
        byte_at(text, quote + 1),
        b'0' | b'1' | b'x' | b'X' | b'z' | b'Z'
    );
    let next = byte_at(text, quote.saturating_add(2));
    if !fills || text.len() - quote < 2 || is_name_part(next) || next == b'\'' {
        return None;
    }
    Some(quote + 2)
}

/// Where the exponent of a real number ends, if one begins there.
fn exponent_end(text: &[u8], start: usize) -> usize
    requires { start ≤ length text.now }
    ensures { (start ≤ result) × (result ≤ length text.now) }
{
    if byte_at(text, start) != b'e' && byte_at(text, start) != b'E' {
        return start;
    }
    if start >= text.len() {
        return start;
    }
    let sign = byte_at(text, start + 1);
    let digits = if sign == b'+' || sign == b'-' {
        start + 2
    } else {
        start + 1
    };
    if digits > text.len() {
        return start;
    }
    digits_end(text, digits, Class::Digit).unwrap_or(start)
}

/// Where the fraction ends, the point before it: right there if there is none.
fn fraction_end(text: &[u8], start: usize) -> usize
    requires { start ≤ length text.now }
    ensures { (start ≤ result) × (result ≤ length text.now) }
{
    if byte_at(text, start) != b'.' || start >= text.len() {
        return start;
    }
    digits_end(text, start + 1, Class::Digit).unwrap_or(start)
}

/// Where a unit of time ends that stands there (5.8).
fn unit_end(text: &[u8], start: usize) -> usize
    requires { start ≤ length text.now }
    ensures { (start ≤ result) × (result ≤ length text.now) }
{
    let scaled = matches!(byte_at(text, start), b'm' | b'u' | b'n' | b'p' | b'f');
    let unit = if scaled {
        start.saturating_add(1)
    } else {
        start
    };
    if unit >= text.len() || text[unit] != b's' || is_name_part(byte_at(text, unit + 1)) {
        return start;
    }
    unit + 1
}

/// The number that begins with the digit there.
fn decimal_at(text: &[u8], at: usize) -> NumberEnd
    requires { at < length text.now }
    ensures { (at < result.end) × (result.end ≤ length text.now) }
{
    let digits = run_end(text, at + 1, Class::Digit);
    let end = unit_end(text, exponent_end(text, fraction_end(text, digits)));
    if end > digits {
        return NumberEnd { real: true, end };
    }
    let quote = white_end(text, digits);
    if quote >= text.len() || text[quote] != b'\'' {
        return NumberEnd { real: false, end };
    }
    let end = based_end(text, quote).unwrap_or(digits);
    NumberEnd { real: false, end }
}

/// The number that begins there, if one does.
pub(crate) fn number_at(text: &[u8], at: usize) -> Option<NumberEnd>
    requires { at < length text.now }
    ensures { IfSome result (λ number. (at < number.end) × (number.end ≤ length text.now)) }
{
    if is_digit(text[at]) {
        return Some(decimal_at(text, at));
    }
    if text[at] != b'\'' {
        return None;
    }
    let end = match based_end(text, at) {
        Some(end) => end,
        None => fill_end(text, at)?,
    };
    Some(NumberEnd { real: false, end })
}
