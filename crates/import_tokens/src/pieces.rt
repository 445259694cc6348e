//! A text in pieces.

ghost use Rattle.std.specs.Prelude.{◌≡◌, ℕ, ◌+◌, ◌≤◌, length, IfOk, IfErr};
ghost use Rattle.import_tokens.specs.Pieces.{AreFrom, IsOpenIn};

use crate::cut::cut_at;
use crate::fault::TokenFault;
use crate::piece::Piece;
use std::alloc::{AllocError, Global};

/// The pieces of a text, each next to the one before it; refused where a comment has no end.
pub(crate) fn pieces_of<'a>(alloc: Global, text: &'a [u8]) -> Result<Vec<Piece<'a>>, TokenFault>
    ensures pieces { IfOk result (λ pieces. AreFrom text.now 0 pieces.items) }
    ensures fault { IfErr result (IsOpenIn text.now) }
{
    let mut pieces = Vec::new(alloc);
    let mut at = 0;
    while at < text.len() {
        let Some(cut) = cut_at(text, at) else {
            return Err(TokenFault::UnclosedComment(at));
        };
        pieces.push(Piece {
            shape: cut.shape,
            at,
            text: &text[at..cut.end],
        })?;
        at = cut.end;
    }
    Ok(pieces)
}

/// The pieces of what a macro made; none where a comment in it has no end.
pub(crate) fn closed_pieces<'a>(
    alloc: Global,
    text: &'a [u8],
) -> Result<Option<Vec<Piece<'a>>>, AllocError> {
    match pieces_of(alloc, text) {
        Ok(pieces) => Ok(Some(pieces)),
        Err(TokenFault::Memory) => Err(AllocError),
        Err(_) => Ok(None),
    }
}
