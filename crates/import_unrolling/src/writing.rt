//! Tokens with blocks in place of generate constructs.

use crate::edits::{Edit, Edits, Mark, Piece};
use crate::numbers::{made_token, number_token};
use import_tokens::{Keyword, Kind, Symbol, Token};
use std::alloc::{AllocError, Global};

/// Adds the tokens from one place up to another.
fn push_all<'t>(
    out: &mut Vec<Token<'t>>,
    tokens: &[Token<'t>],
    from: usize,
    to: usize,
) -> Result<(), AllocError> {
    for token in tokens.get(from..to).unwrap_or(&[]) {
        out.push(*token)?;
    }
    Ok(())
}

/// Adds `localparam name = value;`.
fn push_constant<'t>(
    out: &mut Vec<Token<'t>>,
    name: Option<&Token<'t>>,
    value: Token<'t>,
) -> Result<(), AllocError> {
    let Some(name) = name else {
        return Ok(());
    };
    let at = value.at;
    out.push(made_token(Kind::Keyword(Keyword::LocalParam), b"localparam", at))?;
    out.push(*name)?;
    out.push(made_token(Kind::Symbol(Symbol::Assign), b"=", at))?;
    out.push(value)?;
    out.push(made_token(Kind::Symbol(Symbol::Semicolon), b";", at))?;
    Ok(())
}

/// Adds `begin`, and what a block says of itself.
fn push_mark<'t>(
    out: &mut Vec<Token<'t>>,
    tokens: &[Token<'t>],
    numbers: &[Token<'t>],
    piece: Piece,
    at: usize,
) -> Result<(), AllocError> {
    out.push(made_token(Kind::Keyword(Keyword::Begin), b"begin", at))?;
    out.push(made_token(Kind::Symbol(Symbol::Colon), b":", at))?;
    match piece.mark {
        Mark::Turn(value) => {
            let number = number_token(numbers, value, at);
            out.push(number)?;
            push_constant(out, tokens.get(piece.name), number)
        }
        Mark::Chosen => {
            out.push(made_token(Kind::Keyword(Keyword::If), b"if", at))?;
            Ok(())
        }
        Mark::Left => {
            out.push(made_token(Kind::Keyword(Keyword::Else), b"else", at))?;
            Ok(())
        }
    }
}

/// Adds the blocks that stand in place of a construct.
fn push_edit<'t>(
    out: &mut Vec<Token<'t>>,
    tokens: &[Token<'t>],
    numbers: &[Token<'t>],
    pieces: &[Piece],
    edit: Edit,
) -> Result<(), AllocError> {
    let at = match tokens.get(edit.at) {
        Some(token) => token.at,
        None => 0,
    };
    let end = edit.first.saturating_add(edit.count);
    for piece in pieces.get(edit.first..end).unwrap_or(&[]) {
        push_mark(out, tokens, numbers, *piece, at)?;
        push_all(out, tokens, piece.from, piece.to)?;
        out.push(made_token(Kind::Keyword(Keyword::End), b"end", at))?;
    }
    Ok(())
}

/// The tokens with all that is planned.
pub(crate) fn written<'t>(
    alloc: Global,
    tokens: &[Token<'t>],
    numbers: &[Token<'t>],
    edits: &Edits,
) -> Result<Vec<Token<'t>>, AllocError> {
    let mut out = Vec::new(alloc);
    let mut from = 0;
    for edit in edits.edits.as_slice() {
        push_all(&mut out, tokens, from, edit.at)?;
        push_edit(&mut out, tokens, numbers, edits.pieces.as_slice(), *edit)?;
        from = edit.end;
    }
    push_all(&mut out, tokens, from, tokens.len())?;
    Ok(out)
}
