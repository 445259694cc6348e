//! Runs of bytes.

ghost use Rattle.std.specs.Prelude.{◌≡◌, ℕ, ◌+◌, ◌-◌, ◌<◌, ◌≤◌, ◌==◌, length, slice_index};
ghost use Rattle.std.specs.Prelude.{IfSome, false};
ghost use Rattle.std.specs.List.{list_any};
ghost use Rattle.std.specs.Bool.{OnTrue};
ghost use Rattle.import_tokens.specs.Gaps.{is_white, is_name_part, IsRun, StaysOnLine, HasPair};
ghost use Rattle.import_tokens.specs.Gaps.{IsLineEnd};

/// A class of bytes.
#[derive(Clone, Copy)]
pub(crate) enum Class {
    /// Not white space, as in escaped identifiers.
    Visible,
    /// Of a decimal number.
    Digit,
    Binary,
    Octal,
    Hexadecimal,
    /// A digit that stands for x or z.
    Unknown,
}

pub(crate) fn is_white(byte: u8) -> bool
    ensures { result ≡ is_white byte }
{
    byte == b' ' || byte >= b'\t' && byte <= b'\r'
}

pub(crate) fn is_letter(byte: u8) -> bool {
    byte >= b'a' && byte <= b'z' || byte >= b'A' && byte <= b'Z' || byte == b'_'
}

pub(crate) fn is_digit(byte: u8) -> bool {
    byte >= b'0' && byte <= b'9'
}

pub(crate) fn is_name_part(byte: u8) -> bool
    ensures { result ≡ is_name_part byte }
{
    byte >= b'a' && byte <= b'z'
        || byte >= b'A' && byte <= b'Z'
        || byte >= b'0' && byte <= b'9'
        || byte == b'_'
        || byte == b'$'
}

fn is_unknown(byte: u8) -> bool {
    byte == b'x' || byte == b'X' || byte == b'z' || byte == b'Z' || byte == b'?' || byte == b'_'
}

fn is_letter_digit(byte: u8) -> bool {
    byte >= b'a' && byte <= b'f' || byte >= b'A' && byte <= b'F'
}

fn is_in(class: Class, byte: u8) -> bool {
    match class {
        Class::Visible => !is_white(byte),
        Class::Digit => is_digit(byte) || byte == b'_',
        Class::Binary => byte == b'0' || byte == b'1' || is_unknown(byte),
        Class::Octal => byte >= b'0' && byte <= b'7' || is_unknown(byte),
        Class::Hexadecimal => is_digit(byte) || is_letter_digit(byte) || is_unknown(byte),
        Class::Unknown => is_unknown(byte),
    }
}

/// Where the bytes end that are of the class.
pub(crate) fn run_end(text: &[u8], start: usize, class: Class) -> usize
    requires { start ≤ length text.now }
    ensures { (start ≤ result) × (result ≤ length text.now) }
{
    for at in start..text.len() {
        if !is_in(class, text[at]) {
            return at;
        }
    }
    text.len()
}

pub(crate) fn white_end(text: &[u8], start: usize) -> usize
    requires { start ≤ length text.now }
    ensures inside { (start ≤ result) × (result ≤ length text.now) }
    ensures run { IsRun is_white text.now start result }
{
    for at in start..text.len() {
        if !is_white(text[at]) {
            return at;
        }
    }
    text.len()
}

/// Where the name ends.
pub(crate) fn name_end(text: &[u8], start: usize) -> usize
    requires { start ≤ length text.now }
    ensures inside { (start ≤ result) × (result ≤ length text.now) }
    ensures run { IsRun is_name_part text.now start result }
    ensures whole { result < length text.now → is_name_part (slice_index text.now result) ≡ false }
{
    for at in start..text.len() {
        if !is_name_part(text[at]) {
            return at;
        }
    }
    text.len()
}

/// Whether the two bytes stand there.
pub(crate) fn is_pair(text: &[u8], at: usize, first: u8, second: u8) -> bool
    requires { at < length text.now }
    ensures { OnTrue result ((at + 2 ≤ length text.now) × HasPair text.now at first second) }
{
    if text.len() - at < 2 {
        return false;
    }
    text[at] == first && text[at + 1] == second
}

/// The byte there, or 0 at the text's end.
pub(crate) fn byte_at(text: &[u8], at: usize) -> u8 {
    match text.get(at) {
        Some(byte) => *byte,
        None => 0,
    }
}

pub(crate) fn has_line_feed(text: &[u8]) -> bool
    ensures { result ≡ list_any (λ byte. byte == 10) text.now }
{
    text.iter().any(|byte| *byte == b'\n')
}

/// The end of the line, or where it goes on by a backslash.
pub(crate) fn line_end(text: &[u8], start: usize) -> usize
    requires { start ≤ length text.now }
    ensures inside { (start ≤ result) × (result ≤ length text.now) }
    ensures stays { StaysOnLine text.now start result }
{
    for at in start..text.len() {
        if text[at] == b'\n' || joint_end(text, at).is_some() {
            return at;
        }
    }
    text.len()
}

/// The byte after the end of a line that stands there.
fn after_line(text: &[u8], at: usize) -> Option<usize>
    requires { at ≤ length text.now }
    ensures inside { IfSome result (λ end. (at < end) × (end ≤ length text.now)) }
    ensures ends { IfSome result (λ end. IsLineEnd text.now at end) }
{
    if at >= text.len() {
        return None;
    }
    if text[at] == b'\n' {
        return Some(at + 1);
    }
    if is_pair(text, at, b'\r', b'\n') {
        return Some(at + 2);
    }
    None
}

/// The byte after a backslash and the end of its line, with which a macro's text goes on.
pub(crate) fn joint_end(text: &[u8], at: usize) -> Option<usize>
    requires { at < length text.now }
    ensures inside { IfSome result (λ end. (at < end) × (end ≤ length text.now)) }
    ensures backslash { IfSome result (λ end. slice_index text.now at ≡ 92) }
    ensures ends { IfSome result (λ end. IsLineEnd text.now (at + 1) end) }
{
    if text[at] != b'\\' {
        return None;
    }
    after_line(text, at + 1)
}

/// The end of the first such pair.
pub(crate) fn close_of(text: &[u8], start: usize, first: u8, second: u8) -> Option<usize>
    requires { start ≤ length text.now }
    ensures inside { IfSome result (λ end. (start + 2 ≤ end) × (end ≤ length text.now)) }
    ensures pair { IfSome result (λ end. HasPair text.now (end - 2) first second) }
{
    for at in start..text.len() {
        if is_pair(text, at, first, second) {
            return Some(at + 2);
        }
    }
    None
}
