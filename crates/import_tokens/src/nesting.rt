//! Whether conditionals nest (22.6).

ghost use Rattle.std.specs.Prelude.{◌≡◌, ◌++◌, [], false, IfOk, OnOk, IfErr};
ghost use Rattle.import_tokens.specs.Conditionals.{ends_line, is_directive, is_defining, turn_in};
ghost use Rattle.import_tokens.specs.Conditionals.{with_turn, conditionals};
ghost use Rattle.import_tokens.specs.Nesting.{Nest, IsNesting, IsNestingFault};
ghost use Rattle.import_tokens.specs.Steps.{Takes, outermost_of};

use crate::conditional::Conditional;
use crate::fault::TokenFault;
use crate::piece::{Piece, Shape};
use crate::runs::{has_line_feed, is_white};
use crate::turn::{Turn, turn_of};
use std::alloc::{AllocError, Global};

/// Whether the directives of conditionals nest.
#[derive(Clone, Copy, PartialEq, Eq)]
pub(crate) enum Nesting {
    Whole,
    /// The directive at this byte has no conditional to stand in.
    Stray(usize),
    /// The conditional that begins with this byte has no end.
    Unclosed(usize),
}

/// Whether a piece is white space in which a line ends.
pub(crate) fn ends_line(piece: &Piece) -> bool
    ensures { result ≡ ends_line piece.now.text.now }
{
    match piece.text.first() {
        Some(byte) => is_white(*byte) && has_line_feed(piece.text),
        None => false,
    }
}

/// Whether a piece is a directive.
fn is_directive(piece: &Piece) -> bool
    ensures { result ≡ is_directive piece.now.shape }
{
    piece.shape == Shape::Directive
}

/// Whether a piece stands in a macro's definition, which goes to the end of its line, where the
/// piece before it does or doesn't.
fn is_defining(before: bool, piece: &Piece) -> bool
    ensures { result ≡ is_defining before piece.now }
{
    if ends_line(piece) {
        return false;
    }
    before || is_directive(piece) && piece.text == b"`define".as_slice()
}

/// What a piece does in a conditional; none in a macro's definition.
fn turn_in(defining: bool, piece: &Piece) -> Option<Turn>
    ensures { result ≡ turn_in defining piece.now }
{
    if defining || !is_directive(piece) {
        return None;
    }
    turn_of(piece.text)
}

/// Adds what does something in a conditional.
fn add_turn(found: &mut Vec<Conditional>, turn: Option<Turn>, at: usize) -> Result<(), AllocError>
    ensures { OnOk result (found.new.items ≡ found.old.items ++ with_turn turn at []) }
{
    if let Some(turn) = turn {
        found.push(Conditional { turn, at })?;
    }
    Ok(())
}

/// The directives of conditionals among pieces, but for those in a macro's definition.
fn conditionals_of(alloc: Global, pieces: &[Piece]) -> Result<Vec<Conditional>, AllocError>
    ensures { IfOk result (λ found. found.items ≡ conditionals false pieces.now) }
{
    let mut found = Vec::new(alloc);
    let mut defining = false;
    for piece in pieces {
        defining = is_defining(defining, piece);
        add_turn(&mut found, turn_in(defining, piece), piece.at)?;
    }
    Ok(found)
}

/// Where the outermost conditional begins that is open: the next directive, if none is.
fn outermost(around: &[bool], next: usize, before: usize) -> usize
    ensures { result ≡ outermost_of around.now next before }
{
    if around.is_empty() {
        return next;
    }
    before
}

/// Takes up a directive, where of each conditional that is open, the outermost first, is known
/// whether its `else` was there; whether it may stand there.
fn takes(around: &mut Vec<bool>, turn: Turn) -> Result<bool, AllocError>
    ensures { IfOk result (λ taken. Takes around.old.items turn taken around.new.items) }
{
    if turn == Turn::If {
        around.push(false)?;
        return Ok(true);
    }
    let Some(had_else) = around.pop() else {
        return Ok(false);
    };
    if turn == Turn::EndIf {
        return Ok(true);
    }
    if had_else {
        return Ok(false);
    }
    around.push(turn == Turn::Else)?;
    Ok(true)
}

/// Whether directives nest: the first that can't stand where it does, or else the first that has
/// no end.
fn nesting_among(alloc: Global, found: &[Conditional]) -> Result<Nesting, AllocError>
    ensures { IfOk result (IsNesting found.now) }
{
    let mut around = Vec::new(alloc);
    let mut first = 0;
    for one in found {
        first = outermost(around.as_slice(), one.at, first);
        if !takes(&mut around, one.turn)? {
            return Ok(Nesting::Stray(one.at));
        }
    }
    if around.is_empty() {
        return Ok(Nesting::Whole);
    }
    Ok(Nesting::Unclosed(first))
}

/// Whether the conditionals of pieces nest.
pub(crate) fn nesting_of(alloc: Global, pieces: &[Piece]) -> Result<Nesting, AllocError>
    ensures { IfOk result (IsNesting (conditionals false pieces.now)) }
{
    let found = conditionals_of(alloc, pieces)?;
    nesting_among(alloc, found.as_slice())
}

/// Refuses pieces whose conditionals don't nest.
pub(crate) fn check_nesting(alloc: Global, pieces: &[Piece]) -> Result<(), TokenFault>
    ensures nest { OnOk result (Nest (conditionals false pieces.now)) }
    ensures fault { IfErr result (IsNestingFault (conditionals false pieces.now)) }
{
    match nesting_of(alloc, pieces)? {
        Nesting::Whole => Ok(()),
        Nesting::Stray(at) => Err(TokenFault::StrayConditional(at)),
        Nesting::Unclosed(at) => Err(TokenFault::UnclosedConditional(at)),
    }
}
