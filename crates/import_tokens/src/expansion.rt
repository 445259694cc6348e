//! What the use of a macro stands for (22.5.1).

ghost use Rattle.std.specs.Prelude.{◌+◌, ◌<◌, ◌≤◌, length, IfOk, IfSome};

use crate::arguments::arguments_at;
use crate::condition::{after_condition, after_name, next_piece};
use crate::defining::{line_end_from, rest_end};
use crate::definition::{Definition, Formal};
use crate::directive::{Directive, directive_at};
use crate::macros::Macros;
use crate::nesting::{Nesting, nesting_of};
use crate::piece::{Mark, Piece, Shape};
use crate::pieces::closed_pieces;
use crate::token::MacroFault;
use std::alloc::{AllocError, Global};

/// How deep macros may use one another.
pub const MOST_NESTED: usize = 24;

/// How many bytes the macros of one text may make on the way to their last text.
pub const MOST_MADE: usize = 4_194_304;

/// What macros make: the text, how much was made on the way to it, and why the use stays as it is,
/// if it does.
#[derive(Drop)]
pub(crate) struct Output {
    pub made: Vec<u8>,
    pub spent: usize,
    pub fault: Option<MacroFault>,
}

impl Output {
    pub(crate) fn new(alloc: Global) -> Output {
        Output {
            made: Vec::new(alloc),
            spent: 0,
            fault: None,
        }
    }

    /// All that was made.
    pub(crate) fn into_made(self) -> Vec<u8> {
        self.made
    }

    fn push(&mut self, text: &[u8]) -> Result<(), AllocError> {
        self.made.extend_from_slice(text)?;
        Ok(())
    }

    fn refuse(&mut self, fault: MacroFault) {
        if self.fault.is_none() {
            self.fault = Some(fault);
        }
    }

    /// Counts so many bytes; whether there were too many.
    fn spend(&mut self, count: usize) -> bool {
        self.spent = self.spent.saturating_add(count).saturating_add(1);
        if self.spent > MOST_MADE {
            self.refuse(MacroFault::TooLong);
        }
        self.fault.is_some()
    }
}

/// What stands for a formal argument where a text is given, or none.
fn actual_of<'a>(formal: &Formal<'a>, given: Option<&&'a [u8]>) -> Option<&'a [u8]> {
    match given {
        Some(text) if !text.is_empty() => Some(*text),
        Some(_) => Some(formal.default.unwrap_or(b"")),
        None => formal.default,
    }
}

/// What stands for each formal argument, in order; none where one is missing, or there are more
/// than the macro takes.
fn actuals_of<'s>(
    alloc: Global,
    formals: &[Formal<'s>],
    given: &[&'s [u8]],
) -> Result<Option<Vec<&'s [u8]>>, AllocError> {
    let mut actuals = Vec::new(alloc);
    for (place, formal) in formals.iter().enumerate() {
        let Some(actual) = actual_of(formal, given.get(place)) else {
            return Ok(None);
        };
        actuals.push(actual)?;
    }
    let nothing = formals.is_empty() && given.len() == 1;
    if given.len() > formals.len() && !nothing {
        return Ok(None);
    }
    Ok(Some(actuals))
}

/// What a piece of a macro's text becomes: an argument, a quote, a space, or what it is.
fn written<'s>(piece: &Piece<'s>, formals: &[Formal<'s>], actuals: &[&'s [u8]]) -> &'s [u8] {
    match piece.shape {
        Shape::Gap => return b" ",
        Shape::Mark(Mark::Paste) => return b"",
        Shape::Mark(Mark::Quote) => return b"\"",
        Shape::Mark(Mark::EscapedQuote) => return b"\\\"",
        Shape::Directive | Shape::Lexeme(_) => {}
    }
    for (place, formal) in formals.iter().enumerate() {
        if formal.name == piece.text {
            return match actuals.get(place) {
                Some(actual) => *actual,
                None => piece.text,
            };
        }
    }
    piece.text
}

/// A macro's text with its arguments in it.
fn substituted<'s>(
    alloc: Global,
    body: &'s [u8],
    formals: &[Formal<'s>],
    actuals: &[&'s [u8]],
    output: &mut Output,
) -> Result<Vec<u8>, AllocError> {
    let mut text = Vec::new(alloc);
    let Some(pieces) = closed_pieces(alloc, body)? else {
        output.refuse(MacroFault::Arguments);
        return Ok(text);
    };
    for piece in pieces.iter() {
        let part = written(piece, formals, actuals);
        if output.spend(part.len()) {
            return Ok(text);
        }
        text.extend_from_slice(part)?;
    }
    Ok(text)
}

/// The use of a macro, with its arguments in its text, and the place after it.
#[derive(Drop)]
struct Call {
    text: Vec<u8>,
    after: usize,
}

/// The use of a macro that is defined; none where it has other arguments than its definition.
fn call_at<'s>(
    alloc: Global,
    definition: &Definition<'s>,
    text: &'s [u8],
    pieces: &[Piece<'s>],
    index: usize,
    output: &mut Output,
) -> Result<Option<Call>, AllocError>
    requires { index < length pieces.now }
    ensures { IfOk result (λ found. IfSome found (λ call.
        (index < call.after) × (call.after ≤ length pieces.now))) }
{
    let Some(formals) = &definition.formals else {
        let text = substituted(alloc, definition.body, &[], &[], output)?;
        let after = index + 1;
        return Ok(Some(Call { text, after }));
    };
    let Some(bracket) = next_piece(pieces, index + 1) else {
        return Ok(None);
    };
    let Some(given) = arguments_at(alloc, text, pieces, bracket)? else {
        return Ok(None);
    };
    if nesting_of(alloc, &pieces[bracket..given.after])? != Nesting::Whole {
        output.refuse(MacroFault::Conditional);
        return Ok(None);
    }
    let formals = formals.as_slice();
    let Some(actuals) = actuals_of(alloc, formals, given.texts.as_slice())? else {
        return Ok(None);
    };
    let text = substituted(alloc, definition.body, formals, actuals.as_slice(), output)?;
    let after = given.after;
    Ok(Some(Call { text, after }))
}

/// Where the text goes on after a directive that is no use of a macro.
pub(crate) fn after_directive(
    pieces: &[Piece],
    index: usize,
    directive: Directive,
    macros: &Macros,
) -> usize
    requires { index < length pieces.now }
    ensures { (index < result) × (result ≤ length pieces.now) }
{
    match directive {
        Directive::Alone => index + 1,
        Directive::Define => line_end_from(pieces, index + 1),
        Directive::Undefine | Directive::Word => after_name(pieces, index),
        Directive::Include | Directive::Line => rest_end(pieces, index + 1),
        _ => after_condition(pieces, index, directive, macros),
    }
}

/// The name that stands after a mark.
pub(crate) fn name_of<'a>(piece: &Piece<'a>) -> &'a [u8] {
    piece.text.get(1..).unwrap_or(b"")
}

/// Writes what the use of a macro stands for, with the macros in it; the place after the use.
#[cycle(expand)]
pub(crate) fn expand_use(
    alloc: Global,
    macros: &Macros,
    text: &[u8],
    pieces: &[Piece],
    index: usize,
    depth: usize,
    output: &mut Output,
) -> Result<usize, AllocError>
    requires { index < length pieces.now }
    ensures { IfOk result (λ after. (index < after) × (after ≤ length pieces.now)) }
{
    let Some(definition) = macros.find(name_of(&pieces[index])) else {
        output.push(pieces[index].text)?;
        return Ok(index + 1);
    };
    if depth == 0 {
        output.refuse(MacroFault::TooDeep);
        return Ok(index + 1);
    }
    let Some(call) = call_at(alloc, &*definition, &*text, &*pieces, index, output)? else {
        output.refuse(MacroFault::Arguments);
        return Ok(index + 1);
    };
    expand_text(alloc, macros, call.text.as_slice(), depth - 1, output)?;
    Ok(call.after)
}

/// Writes a macro's text, with the macros in it.
#[cycle(expand)]
fn expand_text(
    alloc: Global,
    macros: &Macros,
    text: &[u8],
    depth: usize,
    output: &mut Output,
) -> Result<(), AllocError> {
    let Some(pieces) = closed_pieces(alloc, text)? else {
        output.refuse(MacroFault::Arguments);
        return Ok(());
    };
    let pieces = pieces.as_slice();
    if nesting_of(alloc, pieces)? != Nesting::Whole {
        output.refuse(MacroFault::Conditional);
        return Ok(());
    }
    let mut index = 0;
    while index < pieces.len() {
        if output.fault.is_some() {
            return Ok(());
        }
        index = match directive_at(pieces, index) {
            None => {
                output.push(pieces[index].text)?;
                index + 1
            }
            Some(Directive::Use) => {
                expand_use(alloc, macros, text, pieces, index, depth, output)?
            }
            Some(directive) => after_directive(pieces, index, directive, macros),
        };
    }
    Ok(())
}
