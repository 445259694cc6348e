//! Expressions, opened.

use crate::environment::EnvironmentId;
use crate::folding::{bits_below, counted, plain};
use crate::opener::{Opener, refused};
use crate::refused::Refused;
use crate::value::{Value, ValueId, ValueList};
use import_trees::{Expression, ExpressionId, ExpressionList, ExpressionNode, Refusal};

impl<'f, 't> Opener<'f, 't> {
    /// An expression that was read, by its place.
    pub(crate) fn expression_at(&self, id: ExpressionId) -> ExpressionNode<'t> {
        match self.parser.trees().expressions.get(id.0) {
            Some(node) => *node,
            None => ExpressionNode {
                expression: Expression::Missing,
                at: 0,
            },
        }
    }

    /// An expression with all declared names in it written out.
    #[cycle(opened)]
    pub(crate) fn value(
        &mut self,
        id: ExpressionId,
        environment: EnvironmentId,
        depth: usize,
    ) -> Result<ValueId, Refused> {
        let node = self.expression_at(id);
        let at = node.at;
        if !self.may_go_on(depth) {
            return Err(refused(Refusal::TooHeavy, at));
        }
        match node.expression {
            Expression::Number(number) => self.keep(Value::Number(number), at),
            Expression::Fill(bit) => self.keep(Value::Fill(bit), at),
            Expression::Unbounded => self.keep(Value::Unbounded, at),
            Expression::Missing => self.keep(Value::Missing, at),
            Expression::Event => self.keep(Value::Event, at),
            Expression::Name(path) => self.named(path, None, environment, at, depth - 1),
            Expression::Call(path, actuals) => {
                self.named(path, Some(actuals), environment, at, depth - 1)
            }
            Expression::Prefix(operator, operand) => {
                let operand = self.value(operand, environment, depth - 1)?;
                self.keep_prefix(operator, operand, at)
            }
            Expression::Infix(operator, first, second) => {
                let first = self.value(first, environment, depth - 1)?;
                let second = self.value(second, environment, depth - 1)?;
                self.keep_infix(operator, first, second, at)
            }
            other => self.other_value(other, environment, at, depth - 1),
        }
    }

    /// The other forms of expressions.
    #[cycle(opened)]
    fn other_value(
        &mut self,
        expression: Expression<'t>,
        environment: EnvironmentId,
        at: usize,
        depth: usize,
    ) -> Result<ValueId, Refused> {
        if !self.may_go_on(depth) {
            return Err(refused(Refusal::TooHeavy, at));
        }
        match expression {
            Expression::Conditional(condition, first, second) => {
                let condition = self.value(condition, environment, depth - 1)?;
                let first = self.value(first, environment, depth - 1)?;
                let second = self.value(second, environment, depth - 1)?;
                self.keep_conditional(condition, first, second, at)
            }
            Expression::System(name, list) => {
                let list = self.lone_values(list, environment, at, depth - 1)?;
                self.keep_system(name, list, at)
            }
            Expression::Concatenation(list) => {
                let list = self.lone_values(list, environment, at, depth - 1)?;
                self.keep(Value::Concatenation(list), at)
            }
            Expression::Replication(count, list) => {
                let count = self.constant(count, environment, depth - 1)?;
                let list = self.lone_values(list, environment, at, depth - 1)?;
                self.keep(Value::Replication(count, list), at)
            }
            Expression::Inside(value, list) => {
                let value = self.value(value, environment, depth - 1)?;
                let list = self.values(list, environment, at, depth - 1)?;
                self.keep(Value::Inside(value, list), at)
            }
            Expression::Triggered(sequence) => {
                let sequence = self.boolean(sequence, environment, false, depth - 1)?;
                self.want_sequence(sequence, at)?;
                self.keep(Value::Triggered(sequence), at)
            }
            other => self.selected(other, environment, at, depth - 1),
        }
    }

    /// A select, or a range of values.
    #[cycle(opened)]
    fn selected(
        &mut self,
        expression: Expression<'t>,
        environment: EnvironmentId,
        at: usize,
        depth: usize,
    ) -> Result<ValueId, Refused> {
        if !self.may_go_on(depth) {
            return Err(refused(Refusal::TooHeavy, at));
        }
        let value = match expression {
            Expression::Span(low, high) => {
                let low = self.value(low, environment, depth - 1)?;
                Value::Span(low, self.value(high, environment, depth - 1)?)
            }
            Expression::Index(base, index) => {
                let base = self.base(base, environment, depth - 1)?;
                Value::Index(base, self.lone_value(index, environment, depth - 1)?)
            }
            Expression::Slice(base, high, low) => {
                let base = self.base(base, environment, depth - 1)?;
                let high = self.constant(high, environment, depth - 1)?;
                Value::Slice(base, high, self.constant(low, environment, depth - 1)?)
            }
            Expression::PartUp(base, start, width) => {
                let base = self.base(base, environment, depth - 1)?;
                let start = self.lone_value(start, environment, depth - 1)?;
                Value::PartUp(base, start, self.constant(width, environment, depth - 1)?)
            }
            Expression::PartDown(base, start, width) => {
                let base = self.base(base, environment, depth - 1)?;
                let start = self.lone_value(start, environment, depth - 1)?;
                Value::PartDown(base, start, self.constant(width, environment, depth - 1)?)
            }
            _ => return Err(refused(Refusal::Outside, at)),
        };
        self.keep(value, at)
    }

    /// What bits are taken of: refused where it is a constant whose bits aren't counted from 0 at
    /// the right.
    #[cycle(opened)]
    fn base(
        &mut self,
        id: ExpressionId,
        environment: EnvironmentId,
        depth: usize,
    ) -> Result<ValueId, Refused> {
        let at = self.expression_at(id).at;
        if !self.may_go_on(depth) {
            return Err(refused(Refusal::TooHeavy, at));
        }
        let base = self.value(id, environment, depth - 1)?;
        if self.ranged_constant == Some(base) {
            return Err(refused(Refusal::Outside, at));
        }
        Ok(base)
    }

    /// A value that stands alone (11.6.1).
    #[cycle(opened)]
    fn lone_value(
        &mut self,
        id: ExpressionId,
        environment: EnvironmentId,
        depth: usize,
    ) -> Result<ValueId, Refused> {
        if !self.may_go_on(depth) {
            return Err(refused(Refusal::TooHeavy, self.expression_at(id).at));
        }
        let value = self.value(id, environment, depth - 1)?;
        self.settled(value)
    }

    /// The members of a list, of which each stands alone.
    #[cycle(opened)]
    fn lone_values(
        &mut self,
        list: ExpressionList,
        environment: EnvironmentId,
        at: usize,
        depth: usize,
    ) -> Result<ValueList, Refused> {
        if !self.may_go_on(depth) {
            return Err(refused(Refusal::TooHeavy, at));
        }
        let list = self.values(list, environment, at, depth - 1)?;
        self.settle_list(list)?;
        Ok(list)
    }

    /// The members of a list.
    #[cycle(opened)]
    pub(crate) fn values(
        &mut self,
        list: ExpressionList,
        environment: EnvironmentId,
        at: usize,
        depth: usize,
    ) -> Result<ValueList, Refused> {
        if !self.may_go_on(depth) {
            return Err(refused(Refusal::TooHeavy, at));
        }
        let start = self.pending.len();
        for place in 0..list.count {
            let member = self.listed_at(list.first.saturating_add(place));
            let value = self.value(member, environment, depth - 1)?;
            self.pending.push(value)?;
        }
        self.close_list(start)
    }

    /// A member of a list that was read.
    fn listed_at(&self, place: usize) -> ExpressionId {
        match self.parser.trees().listed.get(place) {
            Some(id) => *id,
            None => ExpressionId(usize::MAX),
        }
    }

    /// A constant that counts.
    #[cycle(opened)]
    pub(crate) fn constant(
        &mut self,
        id: ExpressionId,
        environment: EnvironmentId,
        depth: usize,
    ) -> Result<u32, Refused> {
        let at = self.expression_at(id).at;
        if !self.may_go_on(depth) {
            return Err(refused(Refusal::TooHeavy, at));
        }
        let value = self.value(id, environment, depth - 1)?;
        match self.number_alone(value) {
            Some(number) => counted(number).ok_or(refused(Refusal::BadBound, at)),
            None => Err(refused(Refusal::NotConstant, at)),
        }
    }

    /// A system function; `$clog2` of a number is a number (20.8.1).
    fn keep_system(
        &mut self,
        name: &'t [u8],
        list: ValueList,
        at: usize,
    ) -> Result<ValueId, Refused> {
        if name == b"$clog2".as_slice() && list.count == 1 {
            if let Some(member) = self.made.listed.get(list.first) {
                if let Some(number) = self.number_of(*member) {
                    if let Some(count) = counted(number) {
                        return self.keep(Value::Number(plain(bits_below(count))), at);
                    }
                }
            }
        }
        self.keep(Value::System(name, list), at)
    }
}
