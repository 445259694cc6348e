//! What becomes of each form of value.

use crate::measures::MOST_DEPTH;
use crate::plan::{Asked, Plan};
use crate::reason::Reason;
use crate::term::Term;
use crate::terms::Terms;
use import_elaboration::{Value, ValueId, ValueList};
use import_trees::{Infix, Number, Prefix, Refusal};
use parser_grammar::{Infix as Operator, Prefix as Sign};

/// What stands for a number.
fn number_plan<'t>(number: Number) -> Result<Plan<'t>, Reason> {
    if number.unknown != 0 {
        return Err(Reason::Known(Refusal::UnknownDigits));
    }
    Ok(Plan::Term(Term::Number(number.width, number.value)))
}

/// The operator that stands for one that needs nothing else.
fn operator_of(operator: Infix) -> Option<Operator> {
    match operator {
        Infix::Add => Some(Operator::Add),
        Infix::Subtract => Some(Operator::Sub),
        Infix::BitAnd => Some(Operator::And),
        Infix::BitXor => Some(Operator::Xor),
        Infix::BitXnor => Some(Operator::Xnor),
        Infix::BitOr => Some(Operator::Or),
        Infix::And => Some(Operator::LogicalAnd),
        Infix::Or => Some(Operator::LogicalOr),
        Infix::ShiftLeft | Infix::ArithmeticShiftLeft => Some(Operator::ShiftLeft),
        Infix::ShiftRight | Infix::ArithmeticShiftRight => Some(Operator::ShiftRight),
        _ => None,
    }
}

/// The operator of a comparison. `x` and `z` are 0, so `===` and `==?` are `==`.
pub(crate) fn comparison_of(operator: Infix) -> Option<Operator> {
    match operator {
        Infix::Equal | Infix::CaseEqual | Infix::WildEqual => Some(Operator::Equal),
        Infix::NotEqual | Infix::CaseNotEqual | Infix::WildNotEqual => Some(Operator::NotEqual),
        Infix::Less => Some(Operator::Less),
        Infix::LessEqual => Some(Operator::LessEqual),
        Infix::Greater => Some(Operator::Greater),
        Infix::GreaterEqual => Some(Operator::GreaterEqual),
        _ => None,
    }
}

impl<'p, 't> Terms<'p, 't> {
    /// Plans the term of a value, and asks for its operands. Where `alone` is true, only what the
    /// value is worth counts; else its term has the value's width, too, and is worth the same in
    /// each wider context.
    pub(crate) fn plan(&mut self, id: ValueId, alone: bool) -> Result<Plan<'t>, Reason> {
        self.take_one()?;
        match self.node(id).value {
            Value::Number(number) => number_plan(number),
            Value::Fill(false) => Ok(Plan::Term(Term::Number(1, 0))),
            Value::Fill(true) => Ok(Plan::Ones),
            Value::Signal(path) => Ok(Plan::Term(Term::Signal(self.spelled(path)?))),
            Value::System(name, list) => self.plan_system(id, name, list, alone),
            Value::Prefix(operator, operand) => self.plan_prefix(operator, operand, alone),
            Value::Infix(operator, first, second) => {
                self.plan_infix(operator, first, second, alone)
            }
            Value::Conditional(condition, first, second) => {
                self.plan_choice(condition, first, second, alone)
            }
            Value::Concatenation(list) => self.plan_concatenation(1, list),
            Value::Replication(count, list) => self.plan_concatenation(count, list),
            Value::Inside(value, list) => self.plan_inside(value, list),
            Value::Index(base, index) => self.plan_index(base, index),
            Value::Slice(base, high, low) => self.plan_slice(base, high, low, alone),
            Value::PartUp(base, start, width) => self.plan_part_up(base, start, width, alone),
            Value::PartDown(base, start, width) => self.plan_part_down(base, start, width, alone),
            Value::Cast(own, operand) => self.plan_cast(own, operand, alone),
            Value::Assigned(own, operand) => self.plan_assigned(own, operand, alone),
            Value::Local(_) => Err(Reason::LocalVariable),
            Value::Span(_, _)
            | Value::Triggered(_)
            | Value::Unbounded
            | Value::Missing
            | Value::Event => Err(Reason::OUTSIDE),
        }
    }

    fn plan_prefix(
        &mut self,
        operator: Prefix,
        operand: ValueId,
        alone: bool,
    ) -> Result<Plan<'t>, Reason> {
        let (plan, alone) = match operator {
            Prefix::Plus => (Plan::Same, alone),
            Prefix::Minus => (Plan::Negative, false),
            Prefix::Complement => (Plan::Prefix(Sign::Complement), false),
            Prefix::All => (Plan::Prefix(Sign::And), false),
            Prefix::NotAll => (Plan::Prefix(Sign::Nand), false),
            Prefix::Not => (Plan::Prefix(Sign::Not), true),
            Prefix::Any => (Plan::Prefix(Sign::Or), true),
            Prefix::NotAny => (Plan::Prefix(Sign::Nor), true),
            Prefix::Parity => (Plan::Prefix(Sign::Xor), true),
            Prefix::EvenParity => (Plan::Prefix(Sign::Xnor), true),
        };
        self.ask(operand, alone)?;
        Ok(plan)
    }

    /// Asks for two operands.
    fn ask_both(
        &mut self,
        first: ValueId,
        first_alone: bool,
        second: ValueId,
        second_alone: bool,
    ) -> Result<(), Reason> {
        self.ask(first, first_alone)?;
        self.ask(second, second_alone)
    }

    fn plan_infix(
        &mut self,
        operator: Infix,
        first: ValueId,
        second: ValueId,
        alone: bool,
    ) -> Result<Plan<'t>, Reason> {
        if let Some(comparison) = comparison_of(operator) {
            return self.plan_comparison(operator, comparison, first, second);
        }
        match operator {
            Infix::Implies => {
                self.ask_both(first, true, second, true)?;
                return Ok(Plan::Implied);
            }
            Infix::Equivalent => {
                self.ask_both(first, true, second, true)?;
                return Ok(Plan::Equivalent);
            }
            Infix::Multiply => return self.plan_product(first, second),
            Infix::Divide | Infix::Remainder => {
                return self.plan_quotient(operator, first, second, alone);
            }
            Infix::Power => return self.plan_power(first, second),
            Infix::ArithmeticShiftRight => self.want_unsigned(first, first)?,
            _ => {}
        }
        let (first_alone, second_alone) = self.are_alone(operator, first, second, alone)?;
        self.ask_both(first, first_alone, second, second_alone)?;
        match operator_of(operator) {
            Some(operator) => Ok(Plan::Infix(operator)),
            None => Err(Reason::OUTSIDE),
        }
    }

    /// Of which operands only what they are worth counts.
    fn are_alone(
        &self,
        operator: Infix,
        first: ValueId,
        second: ValueId,
        alone: bool,
    ) -> Result<(bool, bool), Reason> {
        match operator {
            Infix::And | Infix::Or => Ok((true, true)),
            Infix::ShiftLeft | Infix::ArithmeticShiftLeft => Ok((false, true)),
            Infix::ShiftRight | Infix::ArithmeticShiftRight => Ok((alone, true)),
            Infix::BitAnd | Infix::BitOr | Infix::BitXor => {
                self.want_same_width(first, second)?;
                let both = alone && self.are_still(first, second);
                Ok((both, both))
            }
            _ => {
                self.want_same_width(first, second)?;
                Ok((false, false))
            }
        }
    }

    fn are_still(&self, first: ValueId, second: ValueId) -> bool {
        self.is_still(first, MOST_DEPTH) && self.is_still(second, MOST_DEPTH)
    }

    fn plan_choice(
        &mut self,
        condition: ValueId,
        first: ValueId,
        second: ValueId,
        alone: bool,
    ) -> Result<Plan<'t>, Reason> {
        self.want_same_width(first, second)?;
        let alone = alone && self.are_still(first, second);
        self.ask(condition, true)?;
        self.ask_both(first, alone, second, alone)?;
        Ok(Plan::Conditional)
    }

    /// Plans a list of bits, of which each member has one at least.
    fn plan_concatenation(&mut self, count: u32, list: ValueList) -> Result<Plan<'t>, Reason> {
        if count == 0 || count > 128 {
            return Err(Reason::Known(Refusal::BadBound));
        }
        match list.count.checked_mul(count as usize) {
            Some(members) if members <= 128 => {}
            _ => return Err(Reason::Known(Refusal::WiderThan128)),
        }
        match self.total(list, MOST_DEPTH)? {
            Some(width) if width.saturating_mul(count) > 128 => {
                return Err(Reason::Known(Refusal::WiderThan128));
            }
            _ => {}
        }
        for place in 0..list.count {
            let member = self.member(list, place);
            self.ask(member, false)?;
        }
        Ok(Plan::Concatenation(count))
    }

    /// Plans a product with a constant: a sum of shifts.
    fn plan_product(&mut self, first: ValueId, second: ValueId) -> Result<Plan<'t>, Reason> {
        self.want_unsigned(first, second)?;
        let (operand, factor) = match self.number_of(first) {
            Some(number) => (second, number),
            None => match self.number_of(second) {
                Some(number) => (first, number),
                None => return Err(Reason::Multiply),
            },
        };
        if factor.unknown != 0 {
            return Err(Reason::Known(Refusal::UnknownDigits));
        }
        if factor.value.count_ones() > 8 {
            return Err(Reason::Multiply);
        }
        self.ask(operand, false)?;
        Ok(Plan::Product(factor.width, factor.value))
    }

    /// Plans a quotient or a remainder by a constant power of two.
    fn plan_quotient(
        &mut self,
        operator: Infix,
        first: ValueId,
        second: ValueId,
        alone: bool,
    ) -> Result<Plan<'t>, Reason> {
        self.want_unsigned(first, second)?;
        let refusal = if operator == Infix::Divide {
            Reason::Divide
        } else {
            Reason::Remainder
        };
        let number = self.number_of(second).ok_or(refusal)?;
        if number.unknown != 0 || number.value.count_ones() != 1 {
            return Err(refusal);
        }
        let alone = alone && self.is_still(first, MOST_DEPTH);
        self.ask(first, alone)?;
        if operator == Infix::Divide {
            return Ok(Plan::Quotient(number.width, number.value.trailing_zeros()));
        }
        Ok(Plan::Masked(number.width, number.value.saturating_sub(1)))
    }

    /// Plans `2 ** exponent`.
    fn plan_power(&mut self, base: ValueId, exponent: ValueId) -> Result<Plan<'t>, Reason> {
        match self.number_of(base) {
            Some(number) if number.unknown == 0 && number.value == 2 => {
                self.ask(exponent, true)?;
                Ok(Plan::Power(number.width))
            }
            _ => Err(Reason::Power),
        }
    }
}
