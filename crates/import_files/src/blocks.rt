//! The turns of generate loops in which a token stands.

use import_scopes::{Block, block_at};
use import_tokens::{Keyword, Kind, Token};
use std::alloc::{AllocError, Global};

/// The blocks that are open at a place of the tokens: for each of them, the digits of its turn,
/// where it is one.
#[derive(Drop)]
pub(crate) struct Blocks<'t> {
    open: Vec<Option<&'t [u8]>>,
    at: usize,
}

/// Digits without the noughts before them.
fn short(digits: &[u8]) -> &[u8] {
    let last = digits.len().saturating_sub(1);
    for (place, digit) in digits.iter().enumerate() {
        if *digit != b'0' {
            return digits.get(place..).unwrap_or(digits);
        }
    }
    digits.get(last..).unwrap_or(digits)
}

impl<'t> Blocks<'t> {
    /// No blocks, at the front of the tokens.
    pub(crate) fn new(alloc: Global) -> Blocks<'t> {
        Blocks {
            open: Vec::new(alloc),
            at: 0,
        }
    }

    /// Goes on to a place, over the words that begin and end blocks.
    pub(crate) fn pass(&mut self, tokens: &[Token<'t>], to: usize) -> Result<(), AllocError> {
        for index in self.at..to.min(tokens.len()) {
            match tokens[index].kind {
                Kind::Keyword(Keyword::Begin) => self.open.push(turn_at(tokens, index))?,
                Kind::Keyword(Keyword::End) => {
                    let _turn = self.open.pop();
                }
                _ => {}
            }
        }
        self.at = self.at.max(to);
        Ok(())
    }

    /// A label as it is in these turns: after it a mark and the number of each, from the outside.
    pub(crate) fn labelled(&self, alloc: Global, label: &str) -> Result<String, AllocError> {
        let mut name = String::from_str(alloc, label)?;
        for turn in self.open.as_slice() {
            if let Some(digits) = turn {
                name.push_str("_")?;
                name.push_str(str::from_utf8(short(*digits)).unwrap_or(""))?;
            }
        }
        Ok(name)
    }
}

/// The digits of the turn that begins at a place, if one does.
fn turn_at<'t>(tokens: &[Token<'t>], index: usize) -> Option<&'t [u8]> {
    match block_at(tokens, index)? {
        Block::Turn => Some(tokens.get(index.saturating_add(2))?.text),
        Block::Chosen | Block::Left => None,
    }
}
