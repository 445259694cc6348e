//! Generate constructs, and the blocks that are written for them.

use crate::passing::{is_keyword, is_symbol, kind_at};
use crate::scope::ScopeId;
use import_tokens::{Keyword, Kind, Symbol, Token};

/// A generate loop or a condition that is not written out (IEEE 1800-2017, 27.4 and 27.5): the
/// places of its first token, and of the one after it, and the scope in which it stands.
#[derive(Clone, Copy, PartialEq, Eq)]
pub struct Construct {
    pub at: usize,
    pub end: usize,
    pub scope: ScopeId,
}

/// A block that was written for a generate construct. In place of a name, a number, `if` or `else`
/// stands there, which no text of the language has.
#[derive(Clone, Copy, PartialEq, Eq)]
pub enum Block {
    /// A turn of a loop, `begin : 7 .. end`: its first item declares the loop's name.
    Turn,
    /// What a condition chooses, `begin : if .. end`.
    Chosen,
    /// What is not generated, `begin : else .. end`.
    Left,
}

/// The block that was written there, if one was.
pub fn block_at(tokens: &[Token], at: usize) -> Option<Block> {
    let sign = at.saturating_add(1);
    let begins = is_keyword(tokens, at, Keyword::Begin);
    if !begins || !is_symbol(tokens, sign, Symbol::Colon) {
        return None;
    }
    match kind_at(tokens, sign.saturating_add(1)) {
        Kind::Number => Some(Block::Turn),
        Kind::Keyword(Keyword::If) => Some(Block::Chosen),
        Kind::Keyword(Keyword::Else) => Some(Block::Left),
        _ => None,
    }
}
