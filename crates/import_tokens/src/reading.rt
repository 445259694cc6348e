//! The tokens of a text whose directives are known.

ghost use Rattle.std.specs.Prelude.{◌≡◌, ◌+◌, ◌<◌, ◌≤◌, length, IfOk, IfErr, IfSome, OnOk, false};
ghost use Rattle.import_tokens.specs.Readings.{Adds, Reads};
ghost use Rattle.import_tokens.specs.Pieces.{IsOpenIn};

use crate::expansions::{Expansions, Remains, Step};
use crate::fault::TokenFault;
use crate::piece::{Piece, Shape};
use crate::pieces::{closed_pieces, pieces_of};
use crate::token::{Kind, MacroFault, Token};
use std::alloc::{AllocError, Global};

/// The token that a piece of a macro's text is; none where it is a gap.
fn made_token<'a>(at: usize, piece: &Piece<'a>) -> Option<Token<'a>>
    ensures { IfSome result (λ token. token.at ≡ at) }
{
    let kind = match piece.shape {
        Shape::Gap => return None,
        Shape::Lexeme(kind) => kind,
        Shape::Directive => Kind::Macro(MacroFault::Unknown),
        Shape::Mark(_) => Kind::Stray,
    };
    Some(Token {
        kind,
        at,
        made: true,
        text: piece.text,
    })
}

/// Adds the tokens of a text that a macro made, each at the place of its use.
fn add_made<'a>(
    alloc: Global,
    tokens: &mut Vec<Token<'a>>,
    at: usize,
    made: &'a [u8],
) -> Result<(), AllocError>
    ensures { OnOk result (Adds at tokens.old.items tokens.new.items) }
{
    let Some(pieces) = closed_pieces(alloc, made)? else {
        tokens.push(Token {
            kind: Kind::Macro(MacroFault::Arguments),
            at,
            made: true,
            text: b"",
        })?;
        return Ok(());
    };
    for piece in pieces.iter() {
        if let Some(token) = made_token(at, piece) {
            tokens.push(token)?;
        }
    }
    Ok(())
}

/// Adds what a directive leaves, at its place.
fn add_remains<'a>(
    alloc: Global,
    tokens: &mut Vec<Token<'a>>,
    piece: &Piece<'a>,
    remains: Remains,
    made: &'a [u8],
) -> Result<(), AllocError>
    ensures { OnOk result (Adds piece.now.at tokens.old.items tokens.new.items) }
{
    let kind = match remains {
        Remains::Nothing => return Ok(()),
        Remains::Include => Kind::Include,
        Remains::Refused(fault) => Kind::Macro(fault),
        Remains::Made(start, end) => {
            return add_made(alloc, tokens, piece.at, made.get(start..end).unwrap_or(b""));
        }
    };
    tokens.push(Token {
        kind,
        at: piece.at,
        made: false,
        text: piece.text,
    })?;
    Ok(())
}

fn written_token<'a>(kind: Kind, piece: &Piece<'a>) -> Token<'a>
    ensures { result ≡ record {
      kind = kind;
      at = piece.now.at;
      made = false;
      text = piece.now.text;
    } }
{
    Token {
        kind,
        at: piece.at,
        made: false,
        text: piece.text,
    }
}

/// The directive's step; with no step, it leaves nothing.
fn step_in(steps: &[Step], turn: usize, index: usize, count: usize) -> Step
    requires { index < count }
    ensures { (index < result.after) × (result.after ≤ count) }
{
    let next = index + 1;
    match steps.get(turn) {
        Some(step) => Step {
            remains: step.remains,
            after: step.after.max(next).min(count),
        },
        None => Step {
            remains: Remains::Nothing,
            after: next,
        },
    }
}

impl<'a> Expansions<'a> {
    ghost use Rattle.import_tokens.specs.Texts.{text_of};

    /// The tokens of the text, and its end.
    pub fn tokens<'s>(&'s self, alloc: Global) -> Result<Vec<Token<'s>>, TokenFault>
        ensures tokens { IfOk result (λ tokens. Reads (text_of self.now) 0 tokens.items) }
        ensures fault { IfErr result (IsOpenIn (text_of self.now)) }
    {
        let pieces = pieces_of(alloc, self.text)?;
        let mut tokens = Vec::new(alloc);
        let mut index = 0;
        let mut turn = 0;
        while index < pieces.len() {
            let piece = pieces[index];
            match piece.shape {
                Shape::Gap => index += 1,
                Shape::Lexeme(kind) => {
                    tokens.push(written_token(kind, &piece))?;
                    index += 1;
                }
                Shape::Mark(_) => {
                    tokens.push(written_token(Kind::Stray, &piece))?;
                    index += 1;
                }
                Shape::Directive => {
                    let step = step_in(self.steps.as_slice(), turn, index, pieces.len());
                    add_remains(
                        alloc,
                        &mut tokens,
                        &piece,
                        step.remains,
                        self.made.as_slice(),
                    )?;
                    index = step.after;
                    turn = turn.saturating_add(1);
                }
            }
        }
        tokens.push(Token {
            kind: Kind::End,
            at: self.text.len(),
            made: false,
            text: b"",
        })?;
        Ok(tokens)
    }
}
