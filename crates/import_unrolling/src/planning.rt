//! What is written for the generate constructs of a file.

use crate::bodies::{Body, body_at, loop_body_at};
use crate::edits::{Edit, Edits, Mark, Piece};
use crate::headers::header_at;
use crate::turns::{Turn, condition_in, turns_of};
use import_scopes::{Construct, File, is_keyword, is_symbol, kind_at, past_brackets};
use import_tokens::{Keyword, Kind, Symbol, Token};
use std::alloc::{AllocError, Global};

/// How many tokens a block has beside its body, at most.
const ROUND: usize = 9;

/// What plans a pass.
#[derive(Drop)]
pub(crate) struct Planner<'f, 't> {
    alloc: Global,
    file: &'f File<'t>,
    tokens: &'t [Token<'t>],
    numbers: &'t [Token<'t>],
    edits: Edits,
}

impl<'f, 't> Planner<'f, 't> {
    pub(crate) fn new(
        alloc: Global,
        file: &'f File<'t>,
        tokens: &'t [Token<'t>],
        numbers: &'t [Token<'t>],
        left: usize,
    ) -> Planner<'f, 't> {
        Planner {
            alloc,
            file,
            tokens,
            numbers,
            edits: Edits::new(alloc, left),
        }
    }

    /// All that was planned.
    pub(crate) fn into_edits(self) -> Edits {
        self.edits
    }

    /// Plans a construct; one that can't be written out stays as it is.
    pub(crate) fn construct(&mut self, construct: Construct) -> Result<(), AllocError> {
        match kind_at(self.tokens, construct.at) {
            Kind::Keyword(Keyword::For) => self.unroll(construct),
            _ => self.choose(construct),
        }
    }

    /// Whether so many blocks of a body may be added; they are, if so.
    fn spend(&mut self, body: Body, count: usize) -> bool {
        let each = body.to.saturating_sub(body.from).saturating_add(ROUND);
        match self.edits.left.checked_sub(each.saturating_mul(count)) {
            Some(left) => {
                self.edits.left = left;
                true
            }
            None => false,
        }
    }

    /// Plans a block.
    fn piece(&mut self, mark: Mark, name: usize, body: Body) -> Result<(), AllocError> {
        self.edits.pieces.push(Piece {
            mark,
            name,
            from: body.from,
            to: body.to,
        })?;
        Ok(())
    }

    /// Ends the plan of a construct whose blocks are those from one on.
    fn end(&mut self, construct: Construct, first: usize) -> Result<(), AllocError> {
        let count = self.edits.pieces.len().saturating_sub(first);
        self.edits.edits.push(Edit {
            at: construct.at,
            end: construct.end,
            first,
            count,
        })?;
        Ok(())
    }

    /// Plans the turns of a loop.
    fn unroll(&mut self, construct: Construct) -> Result<(), AllocError> {
        let Some(header) = header_at(self.tokens, construct.at) else {
            return Ok(());
        };
        let Some(body) = loop_body_at(self.tokens, header.body) else {
            return Ok(());
        };
        if body.after != construct.end {
            return Ok(());
        }
        let scope = construct.scope;
        let found = turns_of(self.alloc, self.file, self.numbers, scope, header)?;
        let Some(turns) = found else {
            return Ok(());
        };
        if self.spend(body, turns.len().max(1)) {
            return self.turned(construct, header.place, body, turns.as_slice());
        }
        Ok(())
    }

    /// Plans a block for each turn of a loop; what has none is left.
    fn turned(
        &mut self,
        construct: Construct,
        name: usize,
        body: Body,
        turns: &[u32],
    ) -> Result<(), AllocError> {
        let first = self.edits.pieces.len();
        for value in turns {
            self.piece(Mark::Turn(*value), name, body)?;
        }
        if turns.is_empty() {
            self.piece(Mark::Left, name, body)?;
        }
        self.end(construct, first)
    }

    /// What a condition says whose brackets open at a place.
    fn condition(&mut self, construct: Construct, open: usize) -> Result<Option<bool>, AllocError> {
        let close = past_brackets(self.tokens, open).saturating_sub(1);
        let inside = self.tokens.get(open.saturating_add(1)..close);
        let none = self.tokens.get(..0);
        match (inside, none) {
            (Some(tokens), Some(none)) if is_symbol(self.tokens, open, Symbol::OpenRound) => {
                let turn = Turn {
                    alloc: self.alloc,
                    file: self.file,
                    scope: construct.scope,
                    name: none,
                    value: none,
                };
                condition_in(turn, tokens)
            }
            _ => Ok(None),
        }
    }

    /// Plans what a condition chooses.
    fn choose(&mut self, construct: Construct) -> Result<(), AllocError> {
        let open = construct.at.saturating_add(1);
        let Some(said) = self.condition(construct, open)? else {
            return Ok(());
        };
        let Some(first) = body_at(self.tokens, past_brackets(self.tokens, open)) else {
            return Ok(());
        };
        if !is_keyword(self.tokens, first.after, Keyword::Else) {
            return self.chosen(construct, said, first, None);
        }
        match body_at(self.tokens, first.after.saturating_add(1)) {
            Some(second) => self.chosen(construct, said, first, Some(second)),
            None => Ok(()),
        }
    }

    /// Plans the block of a condition that holds or not, and that of its `else`.
    fn chosen(
        &mut self,
        construct: Construct,
        said: bool,
        first: Body,
        second: Option<Body>,
    ) -> Result<(), AllocError> {
        let last = second.unwrap_or(first);
        if last.after != construct.end || !self.spend(first, 1) || !self.spend(last, 1) {
            return Ok(());
        }
        let (mark, other) = if said {
            (Mark::Chosen, Mark::Left)
        } else {
            (Mark::Left, Mark::Chosen)
        };
        let place = self.edits.pieces.len();
        self.piece(mark, construct.at, first)?;
        if let Some(second) = second {
            self.piece(other, construct.at, second)?;
        }
        self.end(construct, place)
    }
}
