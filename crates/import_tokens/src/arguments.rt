//! The arguments of a macro, and of its definition (22.5.1).

ghost use Rattle.std.specs.Prelude.{◌+◌, ◌<◌, ◌≤◌, length, IfSome, OnSome, IfOk};

use crate::piece::{Piece, Shape};
use crate::symbol::Symbol;
use crate::token::Kind;
use std::alloc::{AllocError, Global};

/// Texts between brackets, cut at commas, and the place after the closing bracket.
#[derive(Drop)]
pub(crate) struct Arguments<'a> {
    pub texts: Vec<&'a [u8]>,
    pub after: usize,
}

/// The symbol that a piece is, if it is one.
pub(crate) fn symbol_at(pieces: &[Piece], index: usize) -> Option<Symbol>
    ensures { OnSome result (index < length pieces.now) }
{
    if index >= pieces.len() {
        return None;
    }
    match pieces[index].shape {
        Shape::Lexeme(Kind::Symbol(symbol)) => Some(symbol),
        _ => None,
    }
}

fn opens(symbol: Symbol) -> bool {
    matches!(
        symbol,
        Symbol::OpenRound
            | Symbol::OpenSquare
            | Symbol::OpenBrace
            | Symbol::OpenPattern
            | Symbol::OpenCast
            | Symbol::OpenRepeat
            | Symbol::OpenNonconsecutive
            | Symbol::OpenGoto
    )
}

fn closes(symbol: Symbol) -> bool {
    matches!(
        symbol,
        Symbol::CloseRound | Symbol::CloseSquare | Symbol::CloseBrace
    )
}

/// The place of the comma or the bracket that ends the argument which begins there.
fn argument_end(pieces: &[Piece], start: usize) -> Option<usize>
    ensures { IfSome result (λ end. (start ≤ end) × (end < length pieces.now)) }
{
    let mut depth = 0u64;
    for index in start..pieces.len() {
        let Some(symbol) = symbol_at(pieces, index) else {
            continue;
        };
        if depth == 0 && (closes(symbol) || symbol == Symbol::Comma) {
            return Some(index);
        }
        if opens(symbol) {
            depth = depth.saturating_add(1);
        }
        if closes(symbol) {
            depth = depth.saturating_sub(1);
        }
    }
    None
}

/// The bytes from one piece up to another, without the gaps at both ends.
pub(crate) fn text_between<'a>(
    text: &'a [u8],
    pieces: &[Piece<'a>],
    start: usize,
    end: usize,
) -> &'a [u8] {
    let mut first = end;
    let mut last = start;
    for index in start..end.min(pieces.len()) {
        if pieces[index].shape != Shape::Gap {
            first = first.min(index);
            last = index;
        }
    }
    match (pieces.get(first), pieces.get(last)) {
        (Some(from), Some(to)) if first < end => {
            let till = to.at.saturating_add(to.text.len());
            text.get(from.at..till).unwrap_or(b"")
        }
        _ => b"",
    }
}

/// The arguments whose opening bracket stands there; none where there is no bracket, or no end.
pub(crate) fn arguments_at<'a>(
    alloc: Global,
    text: &'a [u8],
    pieces: &[Piece<'a>],
    bracket: usize,
) -> Result<Option<Arguments<'a>>, AllocError>
    ensures after { IfOk result (λ found. IfSome found (λ arguments. bracket < arguments.after)) }
    ensures inside { IfOk result (λ found. IfSome found (λ arguments.
        arguments.after ≤ length pieces.now)) }
{
    let mut texts = Vec::new(alloc);
    let Some(Symbol::OpenRound) = symbol_at(pieces, bracket) else {
        return Ok(None);
    };
    let mut start = bracket + 1;
    while let Some(end) = argument_end(pieces, start) {
        texts.push(text_between(text, pieces, start, end))?;
        let after = end + 1;
        if symbol_at(pieces, end) != Some(Symbol::Comma) {
            return Ok(Some(Arguments { texts, after }));
        }
        start = after;
    }
    Ok(None)
}
