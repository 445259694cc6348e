//! Where reading stands, and what was read.

ghost use Rattle.std.specs.Prelude.{◌<◌};
ghost use Rattle.std.specs.Bool.{OnTrue};

use crate::expression::{Expression, ExpressionId, ExpressionList, ExpressionNode};
use crate::fault::TreeFault;
use crate::form::{Form, FormId, FormNode};
use crate::refusal::{Expected, Refusal};
use crate::trees::Trees;
use import_tokens::{Keyword, Kind, Symbol, Token};
use std::alloc::{AllocError, Global};

/// How deep the parts of a tree may lie in one another, in steps of the grammar.
pub const MOST_DEPTH: usize = 1_000;

/// How often a token may be read again, at most, where a bracket may begin two things.
const MOST_READINGS: usize = 64;

/// Reads tokens into trees, all of which it keeps.
#[derive(Drop)]
pub struct Parser<'t> {
    pub(crate) tokens: &'t [Token<'t>],
    /// The place of the next token.
    pub(crate) at: usize,
    /// How many more steps may be taken.
    steps: usize,
    /// The clocking event at the front, with its `@`; nothing where none stands there.
    pub(crate) clock: &'t [Token<'t>],
    pub(crate) trees: Trees<'t>,
    /// What stands in lists that are not at their end.
    pub(crate) pending: Vec<ExpressionId>,
}

impl<'t> Parser<'t> {
    /// A parser that has read nothing.
    pub fn new(alloc: Global) -> Parser<'t> {
        Parser {
            tokens: &[],
            at: 0,
            steps: 0,
            clock: &[],
            trees: Trees::new(alloc),
            pending: Vec::new(alloc),
        }
    }

    /// All trees that were read so far.
    pub fn trees(&self) -> &Trees<'t> {
        &self.trees
    }

    /// Goes to the front of other tokens.
    pub(crate) fn begin(&mut self, tokens: &'t [Token<'t>]) {
        self.tokens = tokens;
        self.at = 0;
        self.clock = &[];
        self.steps = tokens
            .len()
            .saturating_add(16)
            .saturating_mul(MOST_READINGS);
        self.pending.clear();
    }

    /// The kind of the token so many ahead; the end after the last one.
    pub(crate) fn ahead(&self, count: usize) -> Kind {
        match self.tokens.get(self.at.saturating_add(count)) {
            Some(token) => token.kind,
            None => Kind::End,
        }
    }

    /// The kind of the next token.
    pub(crate) fn kind(&self) -> Kind {
        self.ahead(0)
    }

    /// The text of the next token.
    pub(crate) fn text(&self) -> &'t [u8] {
        match self.tokens.get(self.at) {
            Some(token) => token.text,
            None => b"",
        }
    }

    /// The byte of the next token's text, or of the last one's.
    pub(crate) fn place(&self) -> usize {
        match self.tokens.get(self.at) {
            Some(token) => token.at,
            None => match self.tokens.last() {
                Some(token) => token.at,
                None => 0,
            },
        }
    }

    /// Goes over the next token.
    pub(crate) fn step(&mut self) {
        self.at = self.at.saturating_add(1);
        self.steps = self.steps.saturating_sub(1);
    }

    pub(crate) fn is(&self, symbol: Symbol) -> bool {
        match self.kind() {
            Kind::Symbol(own) => own == symbol,
            _ => false,
        }
    }

    pub(crate) fn is_word(&self, keyword: Keyword) -> bool {
        match self.kind() {
            Kind::Keyword(own) => own == keyword,
            _ => false,
        }
    }

    /// Goes over the symbol, if it is next.
    pub(crate) fn take(&mut self, symbol: Symbol) -> bool {
        let found = self.is(symbol);
        if found {
            self.step();
        }
        found
    }

    /// Goes over the keyword, if it is next.
    pub(crate) fn take_word(&mut self, keyword: Keyword) -> bool {
        let found = self.is_word(keyword);
        if found {
            self.step();
        }
        found
    }

    /// A refusal at the next token.
    pub(crate) fn fault(&self, refusal: Refusal) -> TreeFault {
        TreeFault {
            refusal,
            token: self.at,
        }
    }

    /// Something else stands at the next token.
    pub(crate) fn missing(&self, expected: Expected) -> TreeFault {
        self.fault(Refusal::Expected(expected))
    }

    pub(crate) fn expect(&mut self, symbol: Symbol) -> Result<(), TreeFault> {
        if self.take(symbol) {
            return Ok(());
        }
        Err(self.missing(Expected::Symbol(symbol)))
    }

    pub(crate) fn expect_word(&mut self, keyword: Keyword) -> Result<(), TreeFault> {
        if self.take_word(keyword) {
            return Ok(());
        }
        Err(self.missing(Expected::Keyword(keyword)))
    }

    /// Whether reading may go so deep, and further.
    pub(crate) fn may_go_on(&self, depth: usize) -> bool
        ensures { OnTrue result (0 < depth) }
    {
        depth > 0 && self.steps > 0
    }

    /// Keeps an expression.
    pub(crate) fn keep(
        &mut self,
        expression: Expression<'t>,
        at: usize,
    ) -> Result<ExpressionId, TreeFault> {
        let place = self.trees.expressions.len();
        self.trees
            .expressions
            .push(ExpressionNode { expression, at })?;
        Ok(ExpressionId(place))
    }

    /// Keeps a sequence or a property.
    pub(crate) fn keep_form(
        &mut self,
        form: Form,
        is_sequence: bool,
        at: usize,
    ) -> Result<FormId, TreeFault> {
        let place = self.trees.forms.len();
        self.trees.forms.push(FormNode {
            form,
            is_sequence,
            at,
        })?;
        Ok(FormId(place))
    }

    /// Ends the list whose members are those that are pending from a place on.
    pub(crate) fn close_list(&mut self, start: usize) -> Result<ExpressionList, TreeFault> {
        let first = self.trees.listed.len();
        move_end(&mut self.pending, start, &mut self.trees.listed)?;
        let count = self.trees.listed.len().saturating_sub(first);
        Ok(ExpressionList { first, count })
    }
}

/// Moves all from a place on to the end of another list.
fn move_end(
    from: &mut Vec<ExpressionId>,
    start: usize,
    to: &mut Vec<ExpressionId>,
) -> Result<(), AllocError> {
    for place in start..from.len() {
        to.push(from[place])?;
    }
    from.truncate(start);
    Ok(())
}
