//! Expressions (IEEE 1800-2017, 11.3 and annex A.8).

use crate::expression::{Expression, ExpressionId, ExpressionList};
use crate::fault::TreeFault;
use crate::number::number_of;
use crate::operator::{Infix, left_joint_of, prefix_of, right_joint_of};
use crate::parser::Parser;
use crate::refusal::{Expected, Refusal};
use crate::types::is_type;
use import_tokens::{Keyword, Kind, Symbol};

impl<'t> Parser<'t> {
    /// An expression, with `->` and `<->`, which group to the right.
    #[cycle(expressions)]
    pub(crate) fn expression(&mut self, depth: usize) -> Result<ExpressionId, TreeFault> {
        if !self.may_go_on(depth) {
            return Err(self.fault(Refusal::TooHeavy));
        }
        let at = self.place();
        let left = self.conditional(depth - 1)?;
        let Some(operator) = right_joint_of(self.kind()) else {
            return Ok(left);
        };
        self.step();
        let right = self.expression(depth - 1)?;
        self.keep(Expression::Infix(operator, left, right), at)
    }

    /// A conditional expression, or one without a condition.
    #[cycle(expressions)]
    fn conditional(&mut self, depth: usize) -> Result<ExpressionId, TreeFault> {
        if !self.may_go_on(depth) {
            return Err(self.fault(Refusal::TooHeavy));
        }
        let at = self.place();
        let condition = self.joined(1, depth - 1)?;
        if !self.take(Symbol::Question) {
            return Ok(condition);
        }
        let first = self.expression(depth - 1)?;
        self.expect(Symbol::Colon)?;
        let second = self.conditional(depth - 1)?;
        self.keep(Expression::Conditional(condition, first, second), at)
    }

    /// Operands joined by operators of a level, or tighter ones.
    #[cycle(expressions)]
    fn joined(&mut self, level: u8, depth: usize) -> Result<ExpressionId, TreeFault> {
        if !self.may_go_on(depth) {
            return Err(self.fault(Refusal::TooHeavy));
        }
        let at = self.place();
        let mut left = self.prefixed(depth - 1)?;
        for _ in 0..self.tokens.len() {
            let Some(joint) = left_joint_of(self.kind()) else {
                return Ok(left);
            };
            if joint.level < level {
                return Ok(left);
            }
            self.step();
            left = if joint.operator == Infix::Inside {
                self.inside(left, at, depth - 1)?
            } else {
                let right = self.joined(joint.level.saturating_add(1), depth - 1)?;
                self.keep(Expression::Infix(joint.operator, left, right), at)?
            };
        }
        Ok(left)
    }

    /// The list after `inside` (11.4.13).
    #[cycle(expressions)]
    fn inside(
        &mut self,
        value: ExpressionId,
        at: usize,
        depth: usize,
    ) -> Result<ExpressionId, TreeFault> {
        if !self.may_go_on(depth) {
            return Err(self.fault(Refusal::TooHeavy));
        }
        self.expect(Symbol::OpenBrace)?;
        let list = self.list(Symbol::CloseBrace, depth - 1)?;
        self.keep(Expression::Inside(value, list), at)
    }

    /// Operators before an operand.
    #[cycle(expressions)]
    fn prefixed(&mut self, depth: usize) -> Result<ExpressionId, TreeFault> {
        if !self.may_go_on(depth) {
            return Err(self.fault(Refusal::TooHeavy));
        }
        let at = self.place();
        let Some(operator) = prefix_of(self.kind()) else {
            return self.selected(depth - 1);
        };
        self.step();
        let operand = self.prefixed(depth - 1)?;
        self.keep(Expression::Prefix(operator, operand), at)
    }

    /// An operand with selects after it (11.5).
    #[cycle(expressions)]
    fn selected(&mut self, depth: usize) -> Result<ExpressionId, TreeFault> {
        if !self.may_go_on(depth) {
            return Err(self.fault(Refusal::TooHeavy));
        }
        let at = self.place();
        let mut base = self.primary(depth - 1)?;
        if self.is(Symbol::OpenCast) {
            return Err(self.fault(Refusal::Cast));
        }
        for _ in 0..self.tokens.len() {
            if !self.take(Symbol::OpenSquare) {
                return Ok(base);
            }
            base = self.select(base, at, depth - 1)?;
            if self.is(Symbol::Dot) {
                return Err(self.fault(Refusal::NoWord));
            }
        }
        Ok(base)
    }

    /// What stands in the brackets of a select.
    #[cycle(expressions)]
    fn select(
        &mut self,
        base: ExpressionId,
        at: usize,
        depth: usize,
    ) -> Result<ExpressionId, TreeFault> {
        if !self.may_go_on(depth) {
            return Err(self.fault(Refusal::TooHeavy));
        }
        let first = self.expression(depth - 1)?;
        let expression = match self.kind() {
            Kind::Symbol(Symbol::Colon) => {
                self.step();
                Expression::Slice(base, first, self.expression(depth - 1)?)
            }
            Kind::Symbol(Symbol::PlusColon) => {
                self.step();
                Expression::PartUp(base, first, self.expression(depth - 1)?)
            }
            Kind::Symbol(Symbol::MinusColon) => {
                self.step();
                Expression::PartDown(base, first, self.expression(depth - 1)?)
            }
            _ => Expression::Index(base, first),
        };
        self.expect(Symbol::CloseSquare)?;
        self.keep(expression, at)
    }

    /// A primary (annex A.8.4).
    #[cycle(expressions)]
    fn primary(&mut self, depth: usize) -> Result<ExpressionId, TreeFault> {
        if !self.may_go_on(depth) {
            return Err(self.fault(Refusal::TooHeavy));
        }
        match self.kind() {
            Kind::Symbol(Symbol::OpenRound) => {
                self.step();
                let inner = self.expression(depth - 1)?;
                self.expect(Symbol::CloseRound)?;
                Ok(inner)
            }
            Kind::Symbol(Symbol::OpenBrace) => self.braces(depth - 1),
            Kind::System => self.system(depth - 1),
            _ => self.leaf(),
        }
    }

    /// A concatenation or a replication (11.4.12).
    #[cycle(expressions)]
    fn braces(&mut self, depth: usize) -> Result<ExpressionId, TreeFault> {
        if !self.may_go_on(depth) {
            return Err(self.fault(Refusal::TooHeavy));
        }
        let at = self.place();
        let start = self.pending.len();
        self.step();
        let first = self.expression(depth - 1)?;
        if self.take(Symbol::OpenBrace) {
            let list = self.list(Symbol::CloseBrace, depth - 1)?;
            self.expect(Symbol::CloseBrace)?;
            return self.keep(Expression::Replication(first, list), at);
        }
        self.pending.push(first)?;
        if self.take(Symbol::CloseBrace) {
            let list = self.close_list(start)?;
            return self.keep(Expression::Concatenation(list), at);
        }
        self.expect(Symbol::Comma)?;
        let list = self.list_from(start, Symbol::CloseBrace, depth - 1)?;
        self.keep(Expression::Concatenation(list), at)
    }

    /// A list up to its closing bracket.
    #[cycle(expressions)]
    fn list(&mut self, close: Symbol, depth: usize) -> Result<ExpressionList, TreeFault> {
        if !self.may_go_on(depth) {
            return Err(self.fault(Refusal::TooHeavy));
        }
        let start = self.pending.len();
        self.list_from(start, close, depth - 1)
    }

    /// The rest of a list whose members before are pending from a place on.
    #[cycle(expressions)]
    pub(crate) fn list_from(
        &mut self,
        start: usize,
        close: Symbol,
        depth: usize,
    ) -> Result<ExpressionList, TreeFault> {
        if !self.may_go_on(depth) {
            return Err(self.fault(Refusal::TooHeavy));
        }
        for _ in 0..self.tokens.len() {
            let member = self.member(depth - 1)?;
            self.pending.push(member)?;
            if self.take(close) {
                return self.close_list(start);
            }
            self.expect(Symbol::Comma)?;
        }
        Err(self.missing(Expected::Symbol(close)))
    }

    /// A member of a list: an expression, a range of values, a clocking event, or nothing.
    #[cycle(expressions)]
    fn member(&mut self, depth: usize) -> Result<ExpressionId, TreeFault> {
        if !self.may_go_on(depth) {
            return Err(self.fault(Refusal::TooHeavy));
        }
        let at = self.place();
        match self.kind() {
            Kind::Symbol(Symbol::OpenSquare) => {
                self.step();
                let low = self.expression(depth - 1)?;
                self.expect(Symbol::Colon)?;
                let high = self.expression(depth - 1)?;
                self.expect(Symbol::CloseSquare)?;
                self.keep(Expression::Span(low, high), at)
            }
            Kind::Symbol(Symbol::AtSign) => {
                self.step();
                self.skip_brackets()?;
                self.keep(Expression::Event, at)
            }
            Kind::Symbol(Symbol::Comma | Symbol::CloseRound) => {
                self.keep(Expression::Missing, at)
            }
            _ => self.expression(depth - 1),
        }
    }

    /// A system function with its arguments (20.9 and 16.9.3).
    #[cycle(expressions)]
    fn system(&mut self, depth: usize) -> Result<ExpressionId, TreeFault> {
        if !self.may_go_on(depth) {
            return Err(self.fault(Refusal::TooHeavy));
        }
        let at = self.place();
        let name = self.text();
        if name == b"$root".as_slice() {
            return self.name();
        }
        if name == b"$unit".as_slice() {
            return Err(self.fault(Refusal::Outside));
        }
        self.step();
        let list = if self.take(Symbol::OpenRound) {
            self.list(Symbol::CloseRound, depth - 1)?
        } else {
            ExpressionList { first: 0, count: 0 }
        };
        self.keep(Expression::System(name, list), at)
    }

    /// A number, a name, `$`, or what no expression begins with.
    pub(crate) fn leaf(&mut self) -> Result<ExpressionId, TreeFault> {
        let at = self.place();
        match self.kind() {
            Kind::Number => match number_of(self.text()) {
                Ok(number) => {
                    self.step();
                    self.keep(number, at)
                }
                Err(refusal) => Err(self.fault(refusal)),
            },
            Kind::Word | Kind::Escaped => self.name(),
            Kind::Symbol(Symbol::Dollar) => {
                self.step();
                self.keep(Expression::Unbounded, at)
            }
            kind => Err(self.fault(no_expression(kind))),
        }
    }
}

/// Why no expression begins with a token.
fn no_expression(kind: Kind) -> Refusal {
    match kind {
        Kind::Real => Refusal::Real,
        Kind::Quoted => Refusal::Quoted,
        Kind::Macro(fault) => Refusal::UnknownMacro(fault),
        Kind::Symbol(Symbol::OpenCast | Symbol::OpenPattern) => Refusal::Outside,
        Kind::Keyword(Keyword::Dist) => Refusal::Outside,
        Kind::Keyword(Keyword::Signed | Keyword::Unsigned) => Refusal::Cast,
        kind if is_type(kind) => Refusal::Cast,
        _ => Refusal::Expected(Expected::Expression),
    }
}
