//! Widths of values, their signs, and whether a wider context changes what they are worth.

use crate::functions::{SystemFunction, function_of};
use crate::reason::Reason;
use crate::terms::Terms;
use import_elaboration::{Value, ValueId, ValueList};
use import_trees::{Infix, Number, Prefix};

/// How deep values may lie in one another.
pub(crate) const MOST_DEPTH: usize = 2_000;

/// Whether the highest bit of a number is 1.
fn has_high_bit(number: Number) -> bool {
    if number.width == 0 {
        return false;
    }
    let high = u32::from(number.width - 1);
    number.value.wrapping_shr(high) & 1 == 1
}

fn is_test(operator: Infix) -> bool {
    matches!(
        operator,
        Infix::Less
            | Infix::LessEqual
            | Infix::Greater
            | Infix::GreaterEqual
            | Infix::Inside
            | Infix::Equal
            | Infix::NotEqual
            | Infix::CaseEqual
            | Infix::CaseNotEqual
            | Infix::WildEqual
            | Infix::WildNotEqual
            | Infix::And
            | Infix::Or
            | Infix::Implies
            | Infix::Equivalent
    )
}

/// Whether the width of a result is that of the left operand alone.
fn keeps_left(operator: Infix) -> bool {
    matches!(
        operator,
        Infix::ShiftLeft
            | Infix::ShiftRight
            | Infix::ArithmeticShiftLeft
            | Infix::ArithmeticShiftRight
            | Infix::Power
    )
}

impl<'p, 't> Terms<'p, 't> {
    /// Whether a value is worth the same in each context, however wide. Where it isn't known, it
    /// isn't.
    pub(crate) fn is_still(&self, id: ValueId, depth: usize) -> bool {
        if depth == 0 {
            return false;
        }
        match self.node(id).value {
            Value::Fill(bit) => !bit,
            Value::Prefix(Prefix::Complement | Prefix::Minus, _) => false,
            Value::Prefix(Prefix::Plus, operand) => self.is_still(operand, depth - 1),
            Value::Infix(Infix::BitAnd | Infix::BitOr | Infix::BitXor, first, second)
            | Value::Conditional(_, first, second) => {
                self.is_still(first, depth - 1) && self.is_still(second, depth - 1)
            }
            Value::Infix(
                Infix::ShiftRight | Infix::ArithmeticShiftRight | Infix::Divide | Infix::Remainder,
                first,
                _,
            ) => self.is_still(first, depth - 1),
            Value::Infix(operator, _, _) => is_test(operator),
            _ => true,
        }
    }

    /// Whether a value has a sign, by its form (IEEE 1800-2017, 11.8.1). A signal has one where the
    /// file declares it.
    pub(crate) fn is_signed(&self, id: ValueId, depth: usize) -> bool {
        if depth == 0 {
            return true;
        }
        match self.node(id).value {
            Value::Number(number) => number.signed,
            Value::Signal(_) => self.is_signed_signal(id),
            Value::Cast(own, _) | Value::Assigned(own, _) => own.signed,
            Value::Prefix(Prefix::Complement | Prefix::Minus | Prefix::Plus, operand) => {
                self.is_signed(operand, depth - 1)
            }
            Value::Infix(operator, _, _) if is_test(operator) => false,
            Value::Infix(operator, first, second) => {
                self.is_signed(first, depth - 1)
                    && (keeps_left(operator) || self.is_signed(second, depth - 1))
            }
            Value::Conditional(_, first, second) => {
                self.is_signed(first, depth - 1) && self.is_signed(second, depth - 1)
            }
            Value::System(name, list) => match function_of(name) {
                SystemFunction::CountOnes
                | SystemFunction::Bits
                | SystemFunction::Clog2
                | SystemFunction::Signed => true,
                SystemFunction::Past | SystemFunction::Sampled => {
                    self.is_signed(self.member(list, 0), depth - 1)
                }
                _ => false,
            },
            _ => false,
        }
    }

    /// Whether a value with a sign is known to be 0 or more.
    pub(crate) fn is_natural(&self, id: ValueId) -> bool {
        match self.node(id).value {
            Value::Number(number) => !has_high_bit(number),
            Value::Cast(own, operand) | Value::Assigned(own, operand) => {
                self.is_widened(own, operand)
            }
            Value::System(name, _) => matches!(
                function_of(name),
                SystemFunction::CountOnes | SystemFunction::Bits | SystemFunction::Clog2
            ),
            _ => false,
        }
    }

    /// Refuses two operands whose signs count, as in an order or a quotient.
    pub(crate) fn want_unsigned(&self, first: ValueId, second: ValueId) -> Result<(), Reason> {
        let signed = self.is_signed(first, MOST_DEPTH) && self.is_signed(second, MOST_DEPTH);
        if signed && !(self.is_natural(first) && self.is_natural(second)) {
            return Err(Reason::Signed);
        }
        Ok(())
    }

    /// Refuses two operands of which the narrower one would be carried on by its sign.
    pub(crate) fn want_same_width(&self, first: ValueId, second: ValueId) -> Result<(), Reason> {
        if self.want_unsigned(first, second).is_ok() {
            return Ok(());
        }
        let width = self.width(first, MOST_DEPTH)?;
        if width.is_some() && width == self.width(second, MOST_DEPTH)? {
            return Ok(());
        }
        Err(Reason::Signed)
    }

    /// The width of a value where it stands alone (11.6.1), where it is known.
    #[cycle(widths)]
    pub(crate) fn width(&self, id: ValueId, depth: usize) -> Result<Option<u32>, Reason> {
        if depth == 0 {
            return Ok(None);
        }
        match self.node(id).value {
            Value::Number(number) => Ok(Some(u32::from(number.width))),
            Value::Signal(path) => self.signal_width(path),
            Value::Prefix(Prefix::Complement | Prefix::Minus | Prefix::Plus, operand) => {
                self.width(operand, depth - 1)
            }
            Value::Infix(operator, _, _) if is_test(operator) => Ok(Some(1)),
            Value::Infix(operator, first, _) if keeps_left(operator) => {
                self.width(first, depth - 1)
            }
            Value::Infix(_, first, second) | Value::Conditional(_, first, second) => {
                let first = self.width(first, depth - 1)?;
                Ok(larger(first, self.width(second, depth - 1)?))
            }
            Value::Concatenation(list) => self.total(list, depth - 1),
            Value::Replication(count, list) => match self.total(list, depth - 1)? {
                Some(width) => Ok(Some(width.saturating_mul(count))),
                None => Ok(None),
            },
            Value::Slice(_, high, low) => Ok(Some(high.abs_diff(low).saturating_add(1))),
            Value::PartUp(_, _, width) | Value::PartDown(_, _, width) => Ok(Some(width)),
            Value::System(name, list) => match function_of(name) {
                SystemFunction::Past
                | SystemFunction::Sampled
                | SystemFunction::Unsigned
                | SystemFunction::Signed => { self.width(self.member(list, 0), depth - 1) }
                SystemFunction::CountOnes | SystemFunction::Bits | SystemFunction::Clog2 => {
                    Ok(Some(32))
                }
                _ => Ok(Some(1)),
            },
            Value::Cast(own, _) | Value::Assigned(own, _) => Ok(Some(own.width)),
            Value::Local(_) => Ok(None),
            _ => Ok(Some(1)),
        }
    }

    /// The sum of the widths of a list.
    #[cycle(widths)]
    pub(crate) fn total(&self, list: ValueList, depth: usize) -> Result<Option<u32>, Reason> {
        let mut total = 0u32;
        for place in 0..list.count {
            if depth == 0 {
                return Ok(None);
            }
            match self.width(self.member(list, place), depth - 1)? {
                Some(width) => total = total.saturating_add(width),
                None => return Ok(None),
            }
        }
        Ok(Some(total))
    }
}

/// The larger of two widths.
fn larger(first: Option<u32>, second: Option<u32>) -> Option<u32> {
    match (first, second) {
        (Some(first), Some(second)) => Some(first.max(second)),
        _ => None,
    }
}
