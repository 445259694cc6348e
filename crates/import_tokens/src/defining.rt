//! How a macro is defined (22.5.1).

ghost use Rattle.std.specs.Prelude.{◌+◌, ◌<◌, ◌≤◌, length, IfOk};

use crate::arguments::{arguments_at, symbol_at, text_between};
use crate::condition::{next_piece, plain_name};
use crate::definition::{Definition, Formal};
use crate::macros::Macros;
use crate::nesting::ends_line;
use crate::piece::Piece;
use crate::pieces::closed_pieces;
use crate::symbol::Symbol;
use crate::turn::turn_of;
use std::alloc::{AllocError, Global};

/// The place of the piece with which the line ends, that goes on after a backslash.
pub(crate) fn line_end_from(pieces: &[Piece], start: usize) -> usize
    requires { start ≤ length pieces.now }
    ensures { (start ≤ result) × (result ≤ length pieces.now) }
{
    for index in start..pieces.len() {
        if ends_line(&pieces[index]) {
            return index;
        }
    }
    pieces.len()
}

/// The place of the piece with which a directive's line ends, or of a conditional's on that line.
pub(crate) fn rest_end(pieces: &[Piece], start: usize) -> usize
    requires { start ≤ length pieces.now }
    ensures { (start ≤ result) × (result ≤ length pieces.now) }
{
    for index in start..pieces.len() {
        if ends_line(&pieces[index]) || turn_of(pieces[index].text).is_some() {
            return index;
        }
    }
    pieces.len()
}

/// A formal argument: a name, and after `=` what stands for it where nothing is given.
fn formal_of<'a>(alloc: Global, text: &'a [u8]) -> Result<Formal<'a>, AllocError> {
    let pieces = match closed_pieces(alloc, text)? {
        Some(pieces) => pieces,
        None => Vec::new(alloc),
    };
    let name = match pieces.first() {
        Some(piece) => piece.text,
        None => text,
    };
    let sign = next_piece(pieces.as_slice(), 1);
    let default = match sign {
        Some(sign) if symbol_at(pieces.as_slice(), sign) == Some(Symbol::Assign) => Some(
            text_between(
                text,
                pieces.as_slice(),
                sign.saturating_add(1),
                pieces.len(),
            ),
        ),
        _ => None,
    };
    Ok(Formal { name, default })
}

fn formals_of<'a>(alloc: Global, texts: &[&'a [u8]]) -> Result<Vec<Formal<'a>>, AllocError> {
    let mut formals = Vec::new(alloc);
    for text in texts {
        if !text.is_empty() {
            formals.push(formal_of(alloc, *text)?)?;
        }
    }
    Ok(formals)
}

/// The definition whose name and text stand between the two places; a bracket right at the name
/// begins its arguments.
fn definition_between<'a>(
    alloc: Global,
    text: &'a [u8],
    pieces: &[Piece<'a>],
    name: usize,
    end: usize,
) -> Result<Option<Definition<'a>>, AllocError> {
    let Some(named) = pieces.get(name) else {
        return Ok(None);
    };
    let open = name.saturating_add(1);
    if symbol_at(pieces, open) != Some(Symbol::OpenRound) {
        return Ok(Some(Definition {
            name: plain_name(named.text),
            body: text_between(text, pieces, open, end),
            formals: None,
        }));
    }
    let Some(arguments) = arguments_at(alloc, text, pieces, open)? else {
        return Ok(None);
    };
    Ok(Some(Definition {
        name: plain_name(named.text),
        body: text_between(text, pieces, arguments.after, end),
        formals: Some(formals_of(alloc, arguments.texts.as_slice())?),
    }))
}

/// Takes up the definition that begins there, and says where the text goes on.
pub(crate) fn define_at<'a>(
    alloc: Global,
    text: &'a [u8],
    pieces: &[Piece<'a>],
    index: usize,
    macros: &mut Macros<'a>,
) -> Result<usize, AllocError>
    requires { index < length pieces.now }
    ensures { IfOk result (λ after. (index < after) × (after ≤ length pieces.now)) }
{
    let end = line_end_from(pieces, index + 1);
    if let Some(name) = next_piece(pieces, index + 1) {
        if name < end {
            if let Some(definition) = definition_between(alloc, text, pieces, name, end)? {
                macros.add(definition)?;
            }
        }
    }
    Ok(end)
}

/// Forgets the macro whose name stands after the directive.
pub(crate) fn undefine_at(pieces: &[Piece], index: usize, macros: &mut Macros) {
    if let Some(name) = next_piece(pieces, index.saturating_add(1)) {
        macros.remove(plain_name(pieces[name].text));
    }
}
