//! What the directives of a text stand for.

ghost use Rattle.std.specs.Prelude.{◌+◌, ◌<◌, ◌≤◌, length, IfOk, IfErr, OnOk};
ghost use Rattle.import_tokens.specs.Faults.{IsNested, IsFaultOf};

use crate::defining::{define_at, undefine_at};
use crate::directive::{Directive, directive_at};
use crate::expansion::{MOST_NESTED, Output, after_directive, expand_use, name_of};
use crate::fault::TokenFault;
use crate::macros::Macros;
use crate::nesting::check_nesting;
use crate::piece::Piece;
use crate::pieces::pieces_of;
use crate::token::MacroFault;
use std::alloc::{AllocError, Global};

/// What a directive leaves in the text.
#[derive(Clone, Copy)]
pub(crate) enum Remains {
    Nothing,
    Include,
    /// The use of a macro, as it is.
    Refused(MacroFault),
    /// What a macro made, from one byte of all that macros made up to another.
    Made(usize, usize),
}

/// A directive that stands in text which is read: what it leaves, and the place of the piece with
/// which the text goes on.
#[derive(Clone, Copy)]
pub(crate) struct Step {
    pub remains: Remains,
    pub after: usize,
}

/// A text, and what each of its directives stands for, in order.
#[derive(Drop)]
pub struct Expansions<'a> {
    pub(crate) text: &'a [u8],
    pub(crate) steps: Vec<Step>,
    pub(crate) made: Vec<u8>,
}

/// What the use of a macro leaves.
fn use_at(
    alloc: Global,
    text: &[u8],
    pieces: &[Piece],
    index: usize,
    macros: &Macros,
    output: &mut Output,
) -> Result<Step, AllocError>
    requires { index < length pieces.now }
    ensures { IfOk result (λ step. (index < step.after) × (step.after ≤ length pieces.now)) }
{
    if !macros.has(name_of(&pieces[index])) {
        let remains = Remains::Refused(MacroFault::Unknown);
        let after = index + 1;
        return Ok(Step { remains, after });
    }
    let start = output.made.len();
    let after = expand_use(alloc, macros, text, pieces, index, MOST_NESTED, output)?;
    let remains = match output.fault.take() {
        Some(fault) => Remains::Refused(fault),
        None => Remains::Made(start, output.made.len()),
    };
    Ok(Step { remains, after })
}

/// What the directive there leaves; definitions are taken up.
fn step_at<'a>(
    alloc: Global,
    text: &'a [u8],
    pieces: &[Piece<'a>],
    index: usize,
    directive: Directive,
    macros: &mut Macros<'a>,
    output: &mut Output,
) -> Result<Step, AllocError>
    requires { index < length pieces.now }
    ensures { IfOk result (λ step. (index < step.after) × (step.after ≤ length pieces.now)) }
{
    match directive {
        Directive::Use => return use_at(alloc, text, pieces, index, macros, output),
        Directive::Define => {
            let after = define_at(alloc, text, pieces, index, macros)?;
            let remains = Remains::Nothing;
            return Ok(Step { remains, after });
        }
        Directive::Undefine => undefine_at(pieces, index, macros),
        Directive::UndefineAll => macros.clear(),
        _ => {}
    }
    let after = after_directive(pieces, index, directive, macros);
    let remains = match directive {
        Directive::Include => Remains::Include,
        _ => Remains::Nothing,
    };
    Ok(Step { remains, after })
}

/// The steps of all directives, in order.
fn steps_of<'a>(
    alloc: Global,
    text: &'a [u8],
    pieces: &[Piece<'a>],
    macros: &mut Macros<'a>,
    output: &mut Output,
) -> Result<Vec<Step>, AllocError> {
    let mut steps = Vec::new(alloc);
    let mut index = 0;
    while index < pieces.len() {
        match directive_at(pieces, index) {
            Some(directive) => {
                let step = step_at(alloc, text, pieces, index, directive, macros, output)?;
                index = step.after;
                steps.push(step)?;
            }
            None => index += 1,
        }
    }
    Ok(steps)
}

impl<'a> Expansions<'a> {
    ghost use Rattle.std.specs.Prelude.{◌≡◌};
    ghost use Rattle.import_tokens.specs.Texts.{text_of};

    /// Goes through the directives of a text: takes up its definitions, and writes out the macros
    /// that it uses. Refused where its conditionals don't nest.
    pub fn of(
        alloc: Global,
        text: &'a [u8],
        macros: &mut Macros<'a>,
    ) -> Result<Expansions<'a>, TokenFault>
        ensures text { IfOk result (λ all. text_of all ≡ text.now) }
        ensures nested { OnOk result (IsNested text.now) }
        ensures fault { IfErr result (IsFaultOf text.now) }
    {
        let pieces = pieces_of(alloc, text)?;
        check_nesting(alloc, pieces.as_slice())?;
        let mut output = Output::new(alloc);
        let steps = steps_of(alloc, text, pieces.as_slice(), macros, &mut output)?;
        let made = output.into_made();
        Ok(Expansions { text, steps, made })
    }
}
