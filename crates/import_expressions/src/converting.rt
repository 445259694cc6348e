//! Values as those of a type: of arguments, and of local variables.

use crate::measures::MOST_DEPTH;
use crate::plan::Plan;
use crate::reason::Reason;
use crate::term::Term;
use crate::terms::Terms;
use import_elaboration::{Shape, Type, ValueId};
use import_trees::Refusal;

/// The width of a type, as that of a number.
fn width_of(own: Type) -> Result<u8, Reason> {
    match u8::try_from(own.width) {
        Ok(width) if width >= 1 && width <= 128 => Ok(width),
        _ => Err(Reason::Known(Refusal::WiderThan128)),
    }
}

impl<'p, 't> Terms<'p, 't> {
    /// Plans a value as one of a type, as a cast gives it: what it is alone, with zeros before it,
    /// or without its highest bits (IEEE 1800-2017, 6.24.1).
    pub(crate) fn plan_cast(
        &mut self,
        own: Type,
        operand: ValueId,
        alone: bool,
    ) -> Result<Plan<'t>, Reason> {
        let still = self.is_still(operand, MOST_DEPTH);
        self.plan_converted(own, operand, alone, !still, false)
    }

    /// Plans a value as an assignment gives it to a variable of a type: it is worked out at the
    /// width of the larger of the two (10.7, 11.8.2).
    pub(crate) fn plan_assigned(
        &mut self,
        own: Type,
        operand: ValueId,
        alone: bool,
    ) -> Result<Plan<'t>, Reason> {
        let still = self.is_still(operand, MOST_DEPTH);
        self.plan_converted(own, operand, alone, false, !still)
    }

    /// Plans either; where the type is the wider one, with braces round the operand, or round all.
    fn plan_converted(
        &mut self,
        own: Type,
        operand: ValueId,
        alone: bool,
        inside: bool,
        outside: bool,
    ) -> Result<Plan<'t>, Reason> {
        let width = width_of(own)?;
        match self.width(operand, MOST_DEPTH)? {
            Some(bits) if bits > own.width => self.plan_cut(width, operand, alone),
            Some(bits) if bits < own.width => {
                if self.is_signed(operand, MOST_DEPTH) && !self.is_natural(operand) {
                    return Err(Reason::Signed);
                }
                if alone && !inside && !outside {
                    self.ask(operand, true)?;
                    return Ok(Plan::Same);
                }
                self.ask(operand, false)?;
                Ok(Plan::Widened(width, inside, outside))
            }
            Some(_) => self.plan_sampled(operand, alone),
            None => {
                self.has_unknown_width = true;
                self.plan_sampled(operand, alone)
            }
        }
    }

    /// Plans the lowest bits of a value. Those of an expression are as wide as it is, so they stand
    /// only where what they are worth counts alone.
    fn plan_cut(&mut self, width: u8, operand: ValueId, alone: bool) -> Result<Plan<'t>, Reason> {
        if let Some(path) = self.signal_of(operand) {
            let path = self.spelled(path)?;
            return Ok(Plan::Term(match width {
                0 | 1 => Term::Bit(path, 0),
                _ => Term::Bits(path, u32::from(width).saturating_sub(1), 0),
            }));
        }
        if !alone {
            return Err(Reason::Width);
        }
        let still = self.is_still(operand, MOST_DEPTH);
        self.ask(operand, still)?;
        Ok(Plan::Cut(width, !still))
    }

    /// Whether a value of a type with a sign is known to be 0 or more: it has fewer bits, none of
    /// which is a sign, and is worth the same at each width.
    pub(crate) fn is_widened(&self, own: Type, operand: ValueId) -> bool {
        match self.width(operand, MOST_DEPTH) {
            Ok(Some(bits)) => {
                bits < own.width
                    && !self.is_signed(operand, MOST_DEPTH)
                    && self.is_still(operand, MOST_DEPTH)
            }
            _ => false,
        }
    }

    /// Whether a signal is declared with a sign in the file.
    pub(crate) fn is_signed_signal(&self, id: ValueId) -> bool {
        let variables = self.parts.variables.as_slice();
        let place = variables.partition_point(|variable| variable.value.0 < id.0);
        match variables.get(place) {
            Some(variable) if variable.value == id => match variable.shape {
                Shape::Vector(own, _) => own.signed,
                Shape::Unranged(signed) => signed,
                Shape::Array | Shape::Unknown => false,
            },
            _ => false,
        }
    }

    /// Whether a type was not looked at since the last assertion began, because the width of what
    /// was given isn't known.
    pub fn has_unknown_width(&self) -> bool {
        self.has_unknown_width
    }
}
