//! The piece that begins at a byte.

ghost use Rattle.std.specs.Prelude.{◌≡◌, ℕ, ◌+◌, ◌<◌, ◌≤◌, length, slice_index, IfSome, IfNone};
ghost use Rattle.std.specs.Bool.{OnTrue};
ghost use Rattle.import_tokens.specs.Gaps.{IsGap, HasPair};
ghost use Rattle.import_tokens.specs.Cuts.{IsGapEnd, IsOf};

use crate::keyword::{KEYWORDS, Keyword};
use crate::number::number_at;
use crate::piece::{Mark, Shape};
use crate::runs::{
    Class, byte_at, close_of, is_letter, is_pair, is_white, joint_end, line_end, name_end, run_end,
    white_end,
};
use crate::symbol::{SYMBOLS, Symbol};
use crate::token::Kind;

/// Where a gap ends that begins at a byte.
#[derive(Clone, Copy)]
pub(crate) enum GapEnd {
    /// None begins there.
    NoGap,
    Ends(usize),
    /// A comment begins there, and has no end.
    Open,
}

/// A piece's shape, and the byte after it.
#[derive(Clone, Copy)]
pub(crate) struct Cut {
    pub shape: Shape,
    pub end: usize,
}

fn cut_to(shape: Shape, end: usize) -> Cut
    ensures { result ≡ record { shape = shape; end = end } }
{
    Cut { shape, end }
}

/// The end of an attribute (5.12): `(*`, a name and more, `*)`. So `(*)` is none.
fn attribute_at(text: &[u8], at: usize) -> GapEnd
    requires inside { at + 2 ≤ length text.now }
    requires pair { HasPair text.now at 40 42 }
    ensures { IsGapEnd text.now at result }
{
    let name = white_end(text, at + 2);
    if !is_letter(byte_at(text, name)) {
        return GapEnd::NoGap;
    }
    match close_of(text, name, b'*', b')') {
        Some(end) => GapEnd::Ends(end),
        None => GapEnd::NoGap,
    }
}

fn comment_at(text: &[u8], at: usize) -> GapEnd
    requires inside { at + 2 ≤ length text.now }
    requires pair { HasPair text.now at 47 42 }
    ensures { IsGapEnd text.now at result }
{
    match close_of(text, at + 2, b'*', b'/') {
        Some(end) => GapEnd::Ends(end),
        None => GapEnd::Open,
    }
}

/// What stands between tokens, if it begins there.
fn gap_at(text: &[u8], at: usize) -> GapEnd
    requires { at < length text.now }
    ensures { IsGapEnd text.now at result }
{
    if is_white(text[at]) {
        return GapEnd::Ends(white_end(text, at + 1));
    }
    if let Some(end) = joint_end(text, at) {
        return GapEnd::Ends(end);
    }
    if is_pair(text, at, b'/', b'/') {
        return GapEnd::Ends(line_end(text, at + 2));
    }
    if is_pair(text, at, b'/', b'*') {
        return comment_at(text, at);
    }
    if is_pair(text, at, b'(', b'*') {
        return attribute_at(text, at);
    }
    GapEnd::NoGap
}

/// Where a string ends whose opening quote stands before the start (5.9): none where its line ends
/// first.
fn string_end(text: &[u8], start: usize) -> Option<usize>
    requires { start ≤ length text.now }
    ensures { IfSome result (λ end. (start < end) × (end ≤ length text.now)) }
{
    let mut escaped = false;
    for at in start..text.len() {
        let byte = text[at];
        if byte == b'"' && !escaped {
            return Some(at + 1);
        }
        if byte == b'\n' && !escaped {
            return None;
        }
        escaped = byte == b'\\' && !escaped;
    }
    None
}

fn keyword_of(name: &[u8]) -> Option<Keyword> {
    for (word, keyword) in &KEYWORDS {
        if name == *word {
            return Some(*keyword);
        }
    }
    None
}

fn symbol_of(text: &[u8], at: usize) -> Option<(usize, Symbol)>
    requires { at ≤ length text.now }
    ensures { IfSome result (λ found. (0 < found.0) × (at + found.0 ≤ length text.now)) }
{
    let rest = &text[at..];
    for (mark, symbol) in &SYMBOLS {
        if !mark.is_empty() && rest.starts_with(*mark) {
            return Some((mark.len(), *symbol));
        }
    }
    None
}

/// The name that begins there: a keyword, or a word.
fn word_at(text: &[u8], at: usize) -> Cut
    requires { at < length text.now }
    ensures inside { (at < result.end) × (result.end ≤ length text.now) }
    ensures shape { IsOf result.shape text.now at result.end }
{
    let end = name_end(text, at + 1);
    let kind = match keyword_of(&text[at..end]) {
        Some(keyword) => Kind::Keyword(keyword),
        None => Kind::Word,
    };
    cut_to(Shape::Lexeme(kind), end)
}

/// A system name, or a dollar sign alone.
fn system_at(text: &[u8], at: usize) -> Cut
    requires { at < length text.now }
    ensures inside { (at < result.end) × (result.end ≤ length text.now) }
    ensures shape { IsOf result.shape text.now at result.end }
{
    let end = name_end(text, at + 1);
    let kind = if end == at + 1 {
        Kind::Symbol(Symbol::Dollar)
    } else {
        Kind::System
    };
    cut_to(Shape::Lexeme(kind), end)
}

/// An escaped identifier, or a backslash with which nothing begins.
fn escaped_at(text: &[u8], at: usize) -> Cut
    requires { at < length text.now }
    ensures inside { (at < result.end) × (result.end ≤ length text.now) }
    ensures shape { IsOf result.shape text.now at result.end }
{
    let end = run_end(text, at + 1, Class::Visible);
    let kind = if end == at + 1 {
        Kind::Stray
    } else {
        Kind::Escaped
    };
    cut_to(Shape::Lexeme(kind), end)
}

/// A string, or a quote with which none begins.
fn quoted_at(text: &[u8], at: usize) -> Cut
    requires { at < length text.now }
    ensures inside { (at < result.end) × (result.end ≤ length text.now) }
    ensures shape { IsOf result.shape text.now at result.end }
{
    let (kind, end) = match string_end(text, at + 1) {
        Some(end) => (Kind::Quoted, end),
        None => (Kind::Stray, at + 1),
    };
    cut_to(Shape::Lexeme(kind), end)
}

/// A directive's name, or one of the marks of a macro's text; a mark alone is neither.
fn marked_at(text: &[u8], at: usize) -> Cut
    requires inside { at < length text.now }
    requires mark { slice_index text.now at ≡ 96 }
    ensures inside { (at < result.end) × (result.end ≤ length text.now) }
    ensures shape { IsOf result.shape text.now at result.end }
{
    if is_pair(text, at, b'`', b'`') {
        return cut_to(Shape::Mark(Mark::Paste), at + 2);
    }
    if is_pair(text, at, b'`', b'"') {
        return cut_to(Shape::Mark(Mark::Quote), at + 2);
    }
    if text[at..].starts_with(b"`\\`\"") {
        return cut_to(Shape::Mark(Mark::EscapedQuote), at + 4);
    }
    if is_letter(byte_at(text, at + 1)) {
        return cut_to(Shape::Directive, name_end(text, at + 1));
    }
    cut_to(Shape::Lexeme(Kind::Stray), at + 1)
}

/// A number or a symbol, or a byte with which none begins.
fn other_at(text: &[u8], at: usize) -> Cut
    requires { at < length text.now }
    ensures inside { (at < result.end) × (result.end ≤ length text.now) }
    ensures shape { IsOf result.shape text.now at result.end }
{
    if let Some(number) = number_at(text, at) {
        return if number.real {
            cut_to(Shape::Lexeme(Kind::Real), number.end)
        } else {
            cut_to(Shape::Lexeme(Kind::Number), number.end)
        };
    }
    match symbol_of(text, at) {
        Some((len, symbol)) => cut_to(Shape::Lexeme(Kind::Symbol(symbol)), at + len),
        None => cut_to(Shape::Lexeme(Kind::Stray), at + 1),
    }
}

/// The token or the directive's name that begins at a byte where no gap does.
fn lexeme_at(text: &[u8], at: usize) -> Cut
    requires { at < length text.now }
    ensures inside { (at < result.end) × (result.end ≤ length text.now) }
    ensures shape { IsOf result.shape text.now at result.end }
{
    match text[at] {
        b'$' => system_at(text, at),
        b'\\' => escaped_at(text, at),
        b'"' => quoted_at(text, at),
        b'`' => marked_at(text, at),
        first if is_letter(first) => word_at(text, at),
        _ => other_at(text, at),
    }
}

/// The piece that begins at a byte; none where it is a comment without an end.
pub(crate) fn cut_at(text: &[u8], at: usize) -> Option<Cut>
    requires { at < length text.now }
    ensures inside { IfSome result (λ cut. (at < cut.end) × (cut.end ≤ length text.now)) }
    ensures shape { IfSome result (λ cut. IsOf cut.shape text.now at cut.end) }
    ensures open { IfNone result (HasPair text.now at 47 42) }
{
    match gap_at(text, at) {
        GapEnd::Ends(end) => Some(cut_to(Shape::Gap, end)),
        GapEnd::NoGap => Some(lexeme_at(text, at)),
        GapEnd::Open => None,
    }
}
