//! The longest token at a byte.

ghost use Rattle.std.specs.Prelude.{◌≡◌, ℕ, ◌+◌, ◌-◌, ◌<◌, ◌≤◌, length, drop, take, slice_index};
ghost use Rattle.std.specs.Prelude.{Some, None, Option, MatchOption, IfSome, OnSome, ◌⊎◌, true};
ghost use Rattle.std.specs.Prelude.{false, ◌≢◌};
ghost use Rattle.lexer.specs.Lexemes.{is_digit, is_letter, is_word_part, is_system_part};
ghost use Rattle.lexer.specs.Lexemes.{is_digit_part, is_based_digit, is_based_part};
ghost use Rattle.lexer.specs.Lexemes.{is_valued_digit, is_unknown_digit, base_of, one_symbol};
ghost use Rattle.lexer.specs.Lexemes.{two_symbol, three_symbol, symbol_of, symbol_shape};
ghost use Rattle.lexer.specs.Lexemes.{or_shorter, longest_lexeme};
ghost use Rattle.std.specs.Bool.{OnTrue};
ghost use Rattle.lexer.specs.Runs.{run_length, is_part, base_len, size_len};

use crate::piece::{Part, Shape};
use crate::token::{Base, Symbol};

fn is_digit(byte: u8) -> bool
    ensures value { result ≡ is_digit byte }
    ensures ascii { OnTrue result (byte < 128) }
{
    byte >= b'0' && byte <= b'9'
}

fn is_letter(byte: u8) -> bool
    ensures value { result ≡ is_letter byte }
    ensures ascii { OnTrue result (byte < 128) }
{
    byte >= b'a' && byte <= b'z' || byte >= b'A' && byte <= b'Z' || byte == b'_'
}

fn is_word_part(byte: u8) -> bool
    ensures value { result ≡ is_word_part byte }
    ensures ascii { OnTrue result (byte < 128) }
{
    is_letter(byte) || is_digit(byte) || byte == b'$'
}

fn is_system_part(byte: u8) -> bool
    ensures value { result ≡ is_system_part byte }
    ensures ascii { OnTrue result (byte < 128) }
{
    is_letter(byte) || is_digit(byte)
}

fn is_digit_part(byte: u8) -> bool
    ensures value { result ≡ is_digit_part byte }
    ensures ascii { OnTrue result (byte < 128) }
{
    is_digit(byte) || byte == b'_'
}

/// The base that a letter names.
pub(crate) fn base_of(byte: u8) -> Option<Base>
    ensures value { result ≡ base_of byte }
    ensures ascii { OnSome result (byte < 128) }
{
    match byte {
        b'b' | b'B' => Some(Base::Binary),
        b'o' | b'O' => Some(Base::Octal),
        b'd' | b'D' => Some(Base::Decimal),
        b'h' | b'H' => Some(Base::Hexadecimal),
        _ => None,
    }
}

fn is_valued_digit(base: Base, byte: u8) -> bool
    ensures value { result ≡ is_valued_digit base byte }
    ensures ascii { OnTrue result (byte < 128) }
{
    match base {
        Base::Binary => byte >= b'0' && byte <= b'1',
        Base::Octal => byte >= b'0' && byte <= b'7',
        Base::Decimal => is_digit(byte),
        Base::Hexadecimal => {
            is_digit(byte) || byte >= b'a' && byte <= b'f' || byte >= b'A' && byte <= b'F'
        }
    }
}

fn is_unknown_digit(byte: u8) -> bool
    ensures value { result ≡ is_unknown_digit byte }
    ensures ascii { OnTrue result (byte < 128) }
{
    byte == b'x' || byte == b'X' || byte == b'z' || byte == b'Z' || byte == b'?'
}

#[tactic(auto, unfolding(crate::specs::Lexemes::is_based_digit))]
fn is_based_digit(base: Base, byte: u8) -> bool
    ensures value { result ≡ is_based_digit base byte }
    ensures ascii { OnTrue result (byte < 128) }
{
    is_valued_digit(base, byte) || is_unknown_digit(byte)
}

#[tactic(auto, unfolding(crate::specs::Lexemes::is_based_part))]
fn is_based_part(base: Base, byte: u8) -> bool
    ensures value { result ≡ is_based_part base byte }
    ensures ascii { OnTrue result (byte < 128) }
{
    is_based_digit(base, byte) || byte == b'_'
}

#[tactic(auto, unfolding(crate::specs::Lexemes::one_symbol))]
fn one_symbol(a: u8) -> Option<Symbol>
    ensures value { result ≡ one_symbol a }
    ensures ascii { OnSome result (a < 128) }
{
    match a {
        b'(' => Some(Symbol::OpenRound),
        b')' => Some(Symbol::CloseRound),
        b'{' => Some(Symbol::OpenBrace),
        b'}' => Some(Symbol::CloseBrace),
        b'[' => Some(Symbol::OpenSquare),
        b']' => Some(Symbol::CloseSquare),
        b',' => Some(Symbol::Comma),
        b';' => Some(Symbol::Semicolon),
        b':' => Some(Symbol::Colon),
        b'?' => Some(Symbol::Question),
        b'@' => Some(Symbol::AtSign),
        b'.' => Some(Symbol::Dot),
        b'#' => Some(Symbol::Hash),
        b'+' => Some(Symbol::Plus),
        b'-' => Some(Symbol::Minus),
        b'<' => Some(Symbol::Less),
        b'>' => Some(Symbol::Greater),
        b'&' => Some(Symbol::And),
        b'|' => Some(Symbol::Or),
        b'^' => Some(Symbol::Xor),
        b'~' => Some(Symbol::Tilde),
        b'!' => Some(Symbol::Bang),
        b'=' => Some(Symbol::Assign),
        b'*' => Some(Symbol::Star),
        b'/' => Some(Symbol::Slash),
        b'%' => Some(Symbol::Percent),
        _ => None,
    }
}

#[tactic(auto, unfolding(crate::specs::Lexemes::two_symbol))]
fn two_symbol(a: u8, b: u8) -> Option<Symbol>
    ensures value { result ≡ two_symbol a b }
    ensures ascii { OnSome result ((a < 128) × (b < 128)) }
{
    match (a, b) {
        (b'[', b'*') => Some(Symbol::OpenRepeat),
        (b'#', b'#') => Some(Symbol::Delay),
        (b'<', b'<') => Some(Symbol::ShiftLeft),
        (b'>', b'>') => Some(Symbol::ShiftRight),
        (b'<', b'=') => Some(Symbol::LessEqual),
        (b'>', b'=') => Some(Symbol::GreaterEqual),
        (b'=', b'=') => Some(Symbol::Equal),
        (b'!', b'=') => Some(Symbol::NotEqual),
        (b'&', b'&') => Some(Symbol::AndAnd),
        (b'|', b'|') => Some(Symbol::OrOr),
        (b'~', b'&') => Some(Symbol::Nand),
        (b'~', b'|') => Some(Symbol::Nor),
        (b'~', b'^') => Some(Symbol::Xnor),
        (b'^', b'~') => Some(Symbol::XnorCaret),
        _ => None,
    }
}

#[tactic(auto, unfolding(crate::specs::Lexemes::three_symbol))]
fn three_symbol(a: u8, b: u8, c: u8) -> Option<Symbol>
    ensures value { result ≡ three_symbol a b c }
    ensures ascii { OnSome result ((a < 128) × (c < 128)) }
{
    match (a, b, c) {
        (b'|', b'-', b'>') => Some(Symbol::Overlapped),
        (b'|', b'=', b'>') => Some(Symbol::Following),
        _ => None,
    }
}

fn is_part(part: Part, byte: u8) -> bool
    ensures value { result ≡ is_part part byte }
    ensures ascii { OnTrue result (byte < 128) }
{
    match part {
        Part::Word => is_word_part(byte),
        Part::System => is_system_part(byte),
        Part::Digit => is_digit_part(byte),
        Part::Based(base) => is_based_part(base, byte),
    }
}

/// Where the bytes stop that are such parts.
pub(crate) fn run_end(bytes: &[u8], start: usize, part: Part) -> usize
    requires { start ≤ length bytes.now }
    ensures high { result ≤ length bytes.now }
    ensures ascii { start < result → slice_index bytes.now (result - 1) < 128 }
    ensures run { result ≡ start + run_length (is_part part) (drop start bytes.now) }
{
    let mut at = start;
    while at < bytes.len() && is_part(part, bytes[at]) {
        at += 1;
    }
    at
}

/// Where the base letter and the digits end that stand after a quote: right there if no base
/// letter does.
fn base_end(bytes: &[u8], start: usize) -> usize
    requires { start ≤ length bytes.now }
    ensures high { (start ≤ result) × (result ≤ length bytes.now) }
    ensures ascii { start < result → slice_index bytes.now (result - 1) < 128 }
    ensures len { result ≡ start + base_len (drop start bytes.now) }
{
    if start == bytes.len() {
        return start;
    }
    let Some(base) = base_of(bytes[start]) else {
        return start;
    };
    let first = start + 1;
    if first == bytes.len() {
        return first;
    }
    if !is_based_digit(base, bytes[first]) {
        return first;
    }
    run_end(bytes, first + 1, Part::Based(base))
}

/// Where the number ends whose first digit stands before the start.
fn number_end(bytes: &[u8], start: usize) -> usize
    requires { start ≤ length bytes.now }
    ensures high { (start ≤ result) × (result ≤ length bytes.now) }
    ensures ascii { start < result → slice_index bytes.now (result - 1) < 128 }
    ensures len { result ≡ start + size_len (drop start bytes.now) }
{
    let quote = run_end(bytes, start, Part::Digit);
    if quote == bytes.len() {
        return quote;
    }
    if bytes[quote] != b'\'' {
        return quote;
    }
    let end = base_end(bytes, quote + 1);
    if end == quote + 1 {
        return quote;
    }
    end
}

fn up_to_one(a: u8) -> Option<(usize, Shape)>
    ensures value { result ≡ or_shorter (symbol_shape (one_symbol a)) 1 None }
    ensures ascii { IfSome result (λ r. (r.0 ≡ 1) × (a < 128)) }
{
    match one_symbol(a) {
        Some(symbol) => Some((1, Shape::Symbol(symbol))),
        None => None,
    }
}

fn up_to_two(a: u8, b: u8) -> Option<(usize, Shape)>
    ensures ascii { IfSome result (λ r. ((r.0 ≡ 1) ⊎ ((r.0 ≡ 2) × (b < 128))) × (a < 128)) }
    ensures value { result ≡ or_shorter (symbol_shape (two_symbol a b)) 2
        (or_shorter (symbol_shape (one_symbol a)) 1 None) }
{
    match two_symbol(a, b) {
        Some(symbol) => Some((2, Shape::Symbol(symbol))),
        None => up_to_one(a),
    }
}

fn up_to_three(a: u8, b: u8, c: u8) -> Option<(usize, Shape)>
    ensures ascii { IfSome result (λ r. ((r.0 ≡ 1) ⊎ ((r.0 ≡ 2) × (b < 128))
        ⊎ ((r.0 ≡ 3) × (c < 128))) × (a < 128)) }
    ensures value { result ≡ or_shorter (symbol_shape (three_symbol a b c)) 3
        (or_shorter (symbol_shape (two_symbol a b)) 2
        (or_shorter (symbol_shape (one_symbol a)) 1 None)) }
{
    match three_symbol(a, b, c) {
        Some(symbol) => Some((3, Shape::Symbol(symbol))),
        None => up_to_two(a, b),
    }
}

/// The longest symbol at a byte at which no word, name or number begins.
#[tactic(auto, using(crate::proofs::LongestLaws::symbols))]
fn symbol_at(bytes: &[u8], at: usize) -> Option<(usize, Shape)>
    requires inside { at < length bytes.now }
    requires no_letter { is_letter (slice_index bytes.now at) ≡ false }
    requires no_system { slice_index bytes.now at ≢ 36 }
    requires no_digit { is_digit (slice_index bytes.now at) ≡ false }
    requires no_quote { slice_index bytes.now at ≢ 39 }
    ensures within { IfSome result (λ r. (0 < r.0) × (at + r.0 ≤ length bytes.now)) }
    ensures ascii { IfSome result (λ r. (slice_index bytes.now at < 128)
        × (slice_index bytes.now (at + r.0 - 1) < 128)) }
    ensures value { result ≡ longest_lexeme (slice_index bytes.now at) (drop (at + 1) bytes.now) }
{
    if bytes.len() - at == 1 {
        return up_to_one(bytes[at]);
    }
    if bytes.len() - at == 2 {
        return up_to_two(bytes[at], bytes[at + 1]);
    }
    up_to_three(bytes[at], bytes[at + 1], bytes[at + 2])
}

/// The number that begins with a quote.
fn quoted_at(bytes: &[u8], at: usize) -> Option<(usize, Shape)>
    requires inside { at < length bytes.now }
    requires quote { slice_index bytes.now at ≡ 39 }
    ensures within { IfSome result (λ r. (0 < r.0) × (at + r.0 ≤ length bytes.now)) }
    ensures ascii { IfSome result (λ r. (slice_index bytes.now at < 128)
        × (slice_index bytes.now (at + r.0 - 1) < 128)) }
    ensures value { result ≡ longest_lexeme (slice_index bytes.now at) (drop (at + 1) bytes.now) }
{
    let end = base_end(bytes, at + 1);
    if end == at + 1 {
        return None;
    }
    Some((end - at, Shape::Number))
}

/// The longest token at a byte: its length, and what it is.
pub(crate) fn token_at(bytes: &[u8], at: usize) -> Option<(usize, Shape)>
    requires { at < length bytes.now }
    ensures within { IfSome result (λ r. (0 < r.0) × (at + r.0 ≤ length bytes.now)) }
    ensures ascii { IfSome result (λ r. (slice_index bytes.now at < 128)
        × (slice_index bytes.now (at + r.0 - 1) < 128)) }
    ensures value { result ≡ longest_lexeme (slice_index bytes.now at) (drop (at + 1) bytes.now) }
{
    let first = bytes[at];
    if is_letter(first) {
        return Some((run_end(bytes, at + 1, Part::Word) - at, Shape::Word));
    }
    if first == b'$' {
        return Some((run_end(bytes, at + 1, Part::System) - at, Shape::System));
    }
    if is_digit(first) {
        return Some((number_end(bytes, at + 1) - at, Shape::Number));
    }
    if first == b'\'' {
        return quoted_at(bytes, at);
    }
    symbol_at(bytes, at)
}
