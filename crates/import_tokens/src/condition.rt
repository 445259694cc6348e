//! What conditional directives leave out (22.6).

ghost use Rattle.std.specs.Prelude.{◌+◌, ◌<◌, ◌≤◌, length, IfSome};

use crate::directive::{Directive, directive_at};
use crate::macros::Macros;
use crate::nesting::ends_line;
use crate::piece::{Piece, Shape};

/// The place of the first piece from there on that is no gap.
pub(crate) fn next_piece(pieces: &[Piece], start: usize) -> Option<usize>
    ensures { IfSome result (λ index. (start ≤ index) × (index < length pieces.now)) }
{
    for index in start..pieces.len() {
        if pieces[index].shape != Shape::Gap {
            return Some(index);
        }
    }
    None
}

/// The name that a token spells: that of an escaped identifier has no backslash (5.6.1).
pub(crate) fn plain_name(text: &[u8]) -> &[u8] {
    if text.first() == Some(&b'\\') {
        return text.get(1..).unwrap_or(b"");
    }
    text
}

/// The place of the name that stands after a directive, if one does.
fn name_after(pieces: &[Piece], index: usize) -> Option<usize>
    ensures { IfSome result (λ name. (index < name) × (name < length pieces.now)) }
{
    if index >= pieces.len() {
        return None;
    }
    let name = next_piece(pieces, index + 1)?;
    match pieces[name].shape {
        Shape::Lexeme(_) => Some(name),
        _ => None,
    }
}

/// Whether the macro is defined whose name stands after a directive.
fn is_defined(pieces: &[Piece], index: usize, macros: &Macros) -> bool {
    match name_after(pieces, index) {
        Some(name) => macros.has(plain_name(pieces[name].text)),
        None => false,
    }
}

/// The place after the name or the word that stands after a directive.
pub(crate) fn after_name(pieces: &[Piece], index: usize) -> usize
    requires { index < length pieces.now }
    ensures { (index < result) × (result ≤ length pieces.now) }
{
    match name_after(pieces, index) {
        Some(name) => name + 1,
        None => index + 1,
    }
}

/// The place after what is left out from there on: at the branch that is taken, if one still may
/// be, or after the end of the condition. What stands in a macro's definition is no directive.
fn left_out_end(pieces: &[Piece], start: usize, macros: &Macros, may_take: bool) -> usize
    requires { start ≤ length pieces.now }
    ensures { (start ≤ result) × (result ≤ length pieces.now) }
{
    let mut depth = 0u64;
    let mut defining = false;
    for index in start..pieces.len() {
        let Some(directive) = directive_at(pieces, index) else {
            defining = defining && !ends_line(&pieces[index]);
            continue;
        };
        if defining {
            continue;
        }
        match directive {
            Directive::Define => defining = true,
            Directive::IfDefined | Directive::IfNotDefined => depth = depth.saturating_add(1),
            Directive::EndIf if depth == 0 => return index + 1,
            Directive::EndIf => depth -= 1,
            Directive::Else if depth == 0 && may_take => return index + 1,
            Directive::ElseIf if depth == 0 && may_take && is_defined(pieces, index, macros) => {
                return after_name(pieces, index);
            }
            _ => {}
        }
    }
    pieces.len()
}

/// Where the text goes on after a conditional directive that stands in text which is read.
pub(crate) fn after_condition(
    pieces: &[Piece],
    index: usize,
    directive: Directive,
    macros: &Macros,
) -> usize
    requires { index < length pieces.now }
    ensures { (index < result) × (result ≤ length pieces.now) }
{
    let holds = match directive {
        Directive::IfDefined => is_defined(pieces, index, macros),
        Directive::IfNotDefined => !is_defined(pieces, index, macros),
        Directive::ElseIf | Directive::Else => {
            return left_out_end(pieces, index + 1, macros, false);
        }
        _ => return index + 1,
    };
    let start = after_name(pieces, index);
    if holds {
        return start;
    }
    left_out_end(pieces, start, macros, true)
}
