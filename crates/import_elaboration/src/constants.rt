//! Expressions of constants, worked out at a width (IEEE 1800-2017, 11.6.1, 11.8.2).
//!
//! An operator's sides take the width and the sign of what stands round it before it works. So an
//! operator is folded only where its number is the same in each context; else it stays as it is,
//! and its number is worked out where a context is known.

use crate::folding::{
    Measure, arithmetic, bit, both_truths, compared, extended, is_arithmetic, is_comparison,
    joined_measure, joins_truths, keeps_left, measure_of, moved, moves_down, number_at, prefixed,
};
use crate::opener::Opener;
use crate::refused::Refused;
use crate::value::{Value, ValueId, ValueList};
use import_trees::{Infix, Number, Prefix};

/// How deep constants may lie in one another.
const MOST_DEPTH: usize = 2_000;

/// The width of the widest context.
const WIDEST: u8 = 128;

/// How a constant is worked out.
#[derive(Clone, Copy)]
struct Setting {
    own: Measure,
    /// Whether operators whose low bits hang on high ones have no number, so that what is worked
    /// out has the same low bits at each width.
    by_low_bits: bool,
}

impl<'f, 't> Opener<'f, 't> {
    /// The width and the sign of a constant where it stands alone; none of what is no constant.
    fn measured(&self, id: ValueId, depth: usize) -> Option<Measure> {
        if depth == 0 {
            return None;
        }
        match self.made.values.get(id.0)?.value {
            Value::Number(number) => Some(measure_of(number)),
            Value::Prefix(Prefix::Plus | Prefix::Minus | Prefix::Complement, operand) => {
                self.measured(operand, depth - 1)
            }
            Value::Infix(operator, first, _) if keeps_left(operator) => {
                self.measured(first, depth - 1)
            }
            Value::Infix(operator, first, second) if is_arithmetic(operator) => {
                let first = self.measured(first, depth - 1)?;
                Some(joined_measure(first, self.measured(second, depth - 1)?))
            }
            Value::Conditional(_, first, second) => {
                let first = self.measured(first, depth - 1)?;
                Some(joined_measure(first, self.measured(second, depth - 1)?))
            }
            _ => None,
        }
    }

    /// The bits of a constant in a context.
    fn worked_out(&self, id: ValueId, how: Setting, depth: usize) -> Option<u128> {
        if depth == 0 {
            return None;
        }
        match self.made.values.get(id.0)?.value {
            Value::Number(number) => extended(number, how.own),
            Value::Infix(operator, _, _) if how.by_low_bits && moves_down(operator) => None,
            Value::Prefix(operator, operand) => {
                prefixed(operator, self.worked_out(operand, how, depth - 1)?, how.own)
            }
            Value::Infix(operator, first, second) if keeps_left(operator) => {
                let by = self.number_of(second)?;
                moved(
                    operator,
                    self.worked_out(first, how, depth - 1)?,
                    by,
                    how.own,
                )
            }
            Value::Infix(operator, first, second) if is_arithmetic(operator) => {
                let first = self.worked_out(first, how, depth - 1)?;
                let second = self.worked_out(second, how, depth - 1)?;
                arithmetic(operator, first, second, how.own)
            }
            Value::Conditional(condition, first, second) => {
                let test = self.number_of(condition)?;
                if test.unknown != 0 {
                    return None;
                }
                let chosen = if test.value != 0 { first } else { second };
                self.worked_out(chosen, how, depth - 1)
            }
            _ => None,
        }
    }

    /// The number that a constant is where what takes it has so many bits, or its own width where
    /// that is larger (10.7).
    pub(crate) fn number_within(&self, id: ValueId, width: u8) -> Option<Number> {
        if let Some(number) = self.number_of(id) {
            return Some(number);
        }
        let alone = self.measured(id, MOST_DEPTH)?;
        let own = Measure {
            width: alone.width.max(width),
            signed: alone.signed,
        };
        let how = Setting {
            own,
            by_low_bits: false,
        };
        Some(number_at(self.worked_out(id, how, MOST_DEPTH)?, own))
    }

    /// The number that a constant is where it stands alone.
    pub(crate) fn number_alone(&self, id: ValueId) -> Option<Number> {
        self.number_within(id, 0)
    }

    /// A value that stands alone, as a number where it is a constant.
    pub(crate) fn settled(&mut self, id: ValueId) -> Result<ValueId, Refused> {
        if self.number_of(id).is_some() {
            return Ok(id);
        }
        let at = self.at_of(id);
        match self.number_alone(id) {
            Some(number) => self.keep(Value::Number(number), at),
            None => Ok(id),
        }
    }

    /// The byte of a value.
    fn at_of(&self, id: ValueId) -> usize {
        match self.made.values.get(id.0) {
            Some(node) => node.at,
            None => 0,
        }
    }

    /// A member of a list.
    fn member_at(&self, place: usize) -> Option<ValueId> {
        match self.made.listed.get(place) {
            Some(member) => Some(*member),
            None => None,
        }
    }

    /// Settles all members of a list, of which each stands alone.
    pub(crate) fn settle_list(&mut self, list: ValueList) -> Result<(), Refused> {
        for more in 0..list.count {
            let place = list.first.saturating_add(more);
            if let Some(member) = self.member_at(place) {
                let settled = self.settled(member)?;
                if let Some(kept) = self.made.listed.get_mut(place) {
                    *kept = settled;
                }
            }
        }
        Ok(())
    }

    /// Whether an operator of a value may be folded by the low bits of its sides; none where it
    /// may not be folded, as where a side hasn't 32 bits.
    fn by_low_bits(&self, id: ValueId) -> Option<bool> {
        match self.made.values.get(id.0)?.value {
            Value::Infix(operator, first, second) if moves_down(operator) => {
                let first = self.number_of(first)?;
                let second = self.number_of(second)?;
                if first.width == 32 && second.width == 32 {
                    return Some(false);
                }
                None
            }
            Value::Infix(_, first, second) => {
                let first = self.measured(first, MOST_DEPTH)?;
                let second = self.measured(second, MOST_DEPTH)?;
                if first.width == 32 && second.width == 32 {
                    return Some(true);
                }
                None
            }
            _ => Some(true),
        }
    }

    /// The number of 32 bits that an operator makes of constants, where it is that number in each
    /// context: at 32 bits and at the widest, with a sign, if it has one, and without.
    fn same_anywhere(&self, id: ValueId) -> Option<Number> {
        let by_low_bits = self.by_low_bits(id)?;
        let own = self.measured(id, MOST_DEPTH)?;
        if own.width != 32 {
            return None;
        }
        let alone = Setting { own, by_low_bits };
        let number = number_at(self.worked_out(id, alone, MOST_DEPTH)?, own);
        for (width, signed) in [(WIDEST, own.signed), (own.width, false), (WIDEST, false)] {
            let context = Setting {
                own: Measure { width, signed },
                by_low_bits,
            };
            if self.worked_out(id, context, MOST_DEPTH) != extended(number, context.own) {
                return None;
            }
        }
        Some(number)
    }

    /// A value that was kept last, as a number where it is the same one in each context.
    fn folded(&mut self, id: ValueId) -> ValueId {
        if let Some(number) = self.same_anywhere(id) {
            if let Some(node) = self.made.values.get_mut(id.0) {
                node.value = Value::Number(number);
            }
        }
        id
    }

    /// Keeps an operator before its operand.
    pub(crate) fn keep_prefix(
        &mut self,
        operator: Prefix,
        operand: ValueId,
        at: usize,
    ) -> Result<ValueId, Refused> {
        if matches!(operator, Prefix::Plus | Prefix::Minus | Prefix::Complement) {
            let kept = self.keep(Value::Prefix(operator, operand), at)?;
            return Ok(self.folded(kept));
        }
        let operand = self.settled(operand)?;
        match self.number_of(operand) {
            Some(number) if operator == Prefix::Not && number.unknown == 0 => {
                self.keep(Value::Number(bit(number.value == 0)), at)
            }
            _ => self.keep(Value::Prefix(operator, operand), at),
        }
    }

    /// Keeps an operator between two operands.
    pub(crate) fn keep_infix(
        &mut self,
        operator: Infix,
        first: ValueId,
        second: ValueId,
        at: usize,
    ) -> Result<ValueId, Refused> {
        if joins_truths(operator) {
            return self.keep_truths(operator, first, second, at);
        }
        if let Some(value) = self.comparison(operator, first, second) {
            return self.keep(Value::Number(bit(value)), at);
        }
        let second = if keeps_left(operator) {
            self.settled(second)?
        } else {
            second
        };
        let kept = self.keep(Value::Infix(operator, first, second), at)?;
        Ok(self.folded(kept))
    }

    /// Keeps an operator between two truths, of which each stands alone.
    fn keep_truths(
        &mut self,
        operator: Infix,
        first: ValueId,
        second: ValueId,
        at: usize,
    ) -> Result<ValueId, Refused> {
        let first = self.settled(first)?;
        let second = self.settled(second)?;
        if let (Some(a), Some(b)) = (self.number_of(first), self.number_of(second)) {
            if let Some(value) = both_truths(operator, a, b) {
                return self.keep(Value::Number(bit(value)), at);
            }
        }
        self.keep(Value::Infix(operator, first, second), at)
    }

    /// What a comparison says of two constants, each worked out at the larger width of the two.
    fn comparison(&self, operator: Infix, first: ValueId, second: ValueId) -> Option<bool> {
        if !is_comparison(operator) {
            return None;
        }
        let left = self.measured(first, MOST_DEPTH)?;
        let own = joined_measure(left, self.measured(second, MOST_DEPTH)?);
        let how = Setting {
            own,
            by_low_bits: false,
        };
        let a = self.worked_out(first, how, MOST_DEPTH)?;
        let b = self.worked_out(second, how, MOST_DEPTH)?;
        compared(operator, a, b, own)
    }

    /// `condition ? first : second`; one of two constants of one width and sign, where the
    /// condition is known.
    pub(crate) fn keep_conditional(
        &mut self,
        condition: ValueId,
        first: ValueId,
        second: ValueId,
        at: usize,
    ) -> Result<ValueId, Refused> {
        let condition = self.settled(condition)?;
        if let Some(test) = self.number_of(condition) {
            let one = self.measured(first, MOST_DEPTH);
            let other = self.measured(second, MOST_DEPTH);
            if test.unknown == 0 && one.is_some() && one == other {
                return Ok(if test.value != 0 { first } else { second });
            }
        }
        self.keep(Value::Conditional(condition, first, second), at)
    }
}
