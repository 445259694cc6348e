//! Comparisons, each at the larger width of its two sides.

use crate::functions::{SystemFunction, function_of};
use crate::measures::MOST_DEPTH;
use crate::plan::{Asked, Plan};
use crate::planning::comparison_of;
use crate::reason::Reason;
use crate::terms::Terms;
use import_elaboration::{Value, ValueId, ValueList};
use import_trees::{Infix, Number, Refusal};
use parser_grammar::{Function, Infix as Operator, Prefix as Sign};

/// The comparison that says the same of its sides the other way round.
fn turned(operator: Operator) -> Operator {
    match operator {
        Operator::Less => Operator::Greater,
        Operator::LessEqual => Operator::GreaterEqual,
        Operator::Greater => Operator::Less,
        Operator::GreaterEqual => Operator::LessEqual,
        other => other,
    }
}

/// What says that a count of ones compares so with a number, if something shorter does.
fn count_plan<'t>(operator: Operator, number: u128) -> Option<Plan<'t>> {
    match (operator, number) {
        (Operator::Equal, 1) => Some(Plan::Call(Function::OneHot)),
        (Operator::NotEqual, 1) => Some(Plan::NoCall(Function::OneHot)),
        (Operator::LessEqual, 1) | (Operator::Less, 2) => Some(Plan::Call(Function::OneHot0)),
        (Operator::Greater, 1) | (Operator::GreaterEqual, 2) => {
            Some(Plan::NoCall(Function::OneHot0))
        }
        (Operator::Equal, 0) | (Operator::Less, 1) | (Operator::LessEqual, 0) => {
            Some(Plan::Prefix(Sign::Nor))
        }
        (Operator::NotEqual, 0) | (Operator::Greater, 0) | (Operator::GreaterEqual, 1) => {
            Some(Plan::Prefix(Sign::Or))
        }
        _ => None,
    }
}

/// Whether the highest bit of a number is x or z, and no width is written: the bits above are x or
/// z in each wider context, too (IEEE 1800-2017, 5.7.1).
fn is_unknown_above(number: Number) -> bool {
    let high = u32::from(number.width).saturating_sub(1);
    !number.sized && number.unknown.wrapping_shr(high) & 1 == 1
}

/// The test that an operand equals a number but for its unknown bits.
fn wild_test<'t>(comparison: Operator, number: Number) -> Asked<'t> {
    let width = number.width;
    if is_unknown_above(number) {
        let below = u128::MAX.wrapping_shr(128u32.saturating_sub(u32::from(width)));
        return Asked::Known(comparison, width, number.value, !number.unknown & below);
    }
    Asked::Wild(comparison, width, number.value, number.unknown)
}

impl<'p, 't> Terms<'p, 't> {
    /// Plans a comparison. A side whose width differs from that of its term needs another side that
    /// is worth the same in each context.
    pub(crate) fn plan_comparison(
        &mut self,
        operator: Infix,
        comparison: Operator,
        first: ValueId,
        second: ValueId,
    ) -> Result<Plan<'t>, Reason> {
        if matches!(operator, Infix::WildEqual | Infix::WildNotEqual) {
            self.ask_wild(comparison, first, second)?;
            return Ok(Plan::AnyTest);
        }
        if let Some(plan) = self.plan_count(comparison, first, second)? {
            return Ok(plan);
        }
        if let Some(plan) = self.plan_count(turned(comparison), second, first)? {
            return Ok(plan);
        }
        self.ask_sides(comparison, first, second)?;
        Ok(Plan::Infix(comparison))
    }

    /// Asks for the two sides of a comparison.
    fn ask_sides(
        &mut self,
        comparison: Operator,
        first: ValueId,
        second: ValueId,
    ) -> Result<(), Reason> {
        if matches!(comparison, Operator::Equal | Operator::NotEqual) {
            self.want_same_width(first, second)?;
        } else {
            self.want_unsigned(first, second)?;
        }
        let first_alone = self.is_still(second, MOST_DEPTH);
        let second_alone = self.is_still(first, MOST_DEPTH);
        self.ask(first, first_alone)?;
        self.ask(second, second_alone)
    }

    /// Asks for a test whether one value equals another, but for the bits that are x, z or ? there.
    fn ask_wild(
        &mut self,
        comparison: Operator,
        first: ValueId,
        second: ValueId,
    ) -> Result<(), Reason> {
        if let Some(number) = self.number_of(second) {
            if number.unknown != 0 {
                self.want_same_width(first, second)?;
                self.ask(first, true)?;
                self.asked.push(wild_test(comparison, number))?;
                return Ok(());
            }
        }
        self.ask_sides(comparison, first, second)?;
        self.asked.push(Asked::Compare(comparison))?;
        Ok(())
    }

    /// Plans the comparison of a count of ones with 0, 1 or 2.
    fn plan_count(
        &mut self,
        comparison: Operator,
        first: ValueId,
        second: ValueId,
    ) -> Result<Option<Plan<'t>>, Reason> {
        let Value::System(name, list) = self.node(first).value else {
            return Ok(None);
        };
        let Some(number) = self.number_of(second) else {
            return Ok(None);
        };
        let counts = function_of(name) == SystemFunction::CountOnes && list.count == 1;
        if !counts || number.unknown != 0 {
            return Ok(None);
        }
        let plan = count_plan(comparison, number.value);
        if plan.is_some() {
            let counted = self.member(list, 0);
            self.ask(counted, true)?;
        }
        Ok(plan)
    }

    /// Plans `value inside {list}`: one test a member.
    pub(crate) fn plan_inside(
        &mut self,
        value: ValueId,
        list: ValueList,
    ) -> Result<Plan<'t>, Reason> {
        for place in 0..list.count {
            let member = self.member(list, place);
            match self.node(member).value {
                Value::Span(low, high) => self.ask_span(value, low, high)?,
                Value::Missing => return Err(Reason::OUTSIDE),
                _ => self.ask_wild(Operator::Equal, value, member)?,
            }
        }
        Ok(Plan::AnyTest)
    }

    /// Asks for a test whether a value lies within bounds, of which each may be `$`.
    fn ask_span(&mut self, value: ValueId, low: ValueId, high: ValueId) -> Result<(), Reason> {
        let from_zero = self.is_unbounded(low) || self.is_zero(low);
        if self.is_zero(low) {
            self.want_unsigned(value, low)?;
        }
        if !from_zero {
            self.ask_sides(Operator::GreaterEqual, value, low)?;
        }
        if !self.is_unbounded(high) {
            self.ask_sides(Operator::LessEqual, value, high)?;
        }
        let test = match (from_zero, self.is_unbounded(high)) {
            (false, false) => Asked::Within,
            (false, true) => Asked::Compare(Operator::GreaterEqual),
            (true, false) => Asked::Compare(Operator::LessEqual),
            (true, true) => Asked::Always,
        };
        self.asked.push(test)?;
        Ok(())
    }

    fn is_unbounded(&self, id: ValueId) -> bool {
        matches!(self.node(id).value, Value::Unbounded)
    }

    fn is_zero(&self, id: ValueId) -> bool {
        match self.number_of(id) {
            Some(number) => number.unknown == 0 && number.value == 0,
            None => false,
        }
    }
}
