//! Terms over those of their operands.

use crate::plan::{Asked, Plan};
use crate::reason::Reason;
use crate::term::{Gate, Term, TermId, TermList};
use crate::terms::Terms;
use import_trees::Path;
use parser_grammar::{Infix, Prefix};

/// So many ones, from the right.
fn ones(count: u32) -> u128 {
    if count >= 128 {
        return u128::MAX;
    }
    (1u128 << count) - 1
}

/// A width as a number's; the widest one for all above.
fn small(width: u32) -> u8 {
    if width >= 128 {
        return 128;
    }
    width as u8
}

impl<'p, 't> Terms<'p, 't> {
    /// The term of a plan: what it asked for begins at the first place, and its operands' terms at
    /// the second one.
    pub(crate) fn assembled(
        &mut self,
        plan: Plan<'t>,
        first: usize,
        start: usize,
    ) -> Result<TermId, Reason> {
        let operand = self.pending_at(start);
        let second = self.pending_at(start.saturating_add(1));
        match plan {
            Plan::Term(term) => self.keep(term),
            Plan::Made(term) => Ok(term),
            Plan::Same => Ok(operand),
            Plan::Braced => self.keep_braces(operand),
            Plan::Prefix(operator) => self.keep_prefix(operator, operand),
            Plan::Infix(operator) => self.keep_infix(operator, operand, second),
            Plan::Call(function) => self.keep(Term::Call(function, operand)),
            Plan::NoCall(function) => {
                let call = self.keep(Term::Call(function, operand))?;
                self.keep_prefix(Prefix::Not, call)
            }
            Plan::Conditional => {
                let third = self.pending_at(start.saturating_add(2));
                self.keep(Term::Conditional(operand, second, third))
            }
            Plan::Concatenation(count) => self.concatenation(count, start),
            Plan::AnyTest => self.any_test(first, start),
            Plan::Sum => self.sum(first, start),
            other => self.derived(other, operand, second),
        }
    }

    /// The terms of forms that rules don't have.
    fn derived(
        &mut self,
        plan: Plan<'t>,
        operand: TermId,
        second: TermId,
    ) -> Result<TermId, Reason> {
        match plan {
            Plan::Ones => {
                let zero = self.keep_number(1, 0)?;
                self.keep_prefix(Prefix::Complement, zero)
            }
            Plan::Negative => {
                let zero = self.keep_number(1, 0)?;
                self.keep_infix(Infix::Sub, zero, operand)
            }
            Plan::Implied => {
                let fails = self.keep_prefix(Prefix::Not, operand)?;
                self.keep_infix(Infix::LogicalOr, fails, second)
            }
            Plan::Equivalent => {
                let first = self.keep_prefix(Prefix::Not, operand)?;
                let second = self.keep_prefix(Prefix::Not, second)?;
                self.keep_infix(Infix::Equal, first, second)
            }
            Plan::BitAt => self.bits_at(operand, second, 1),
            Plan::PartAt(width) => self.bits_at(operand, second, width),
            Plan::Part(low, width) => {
                let place = self.keep_number(32, u128::from(low))?;
                self.bits_at(operand, place, width)
            }
            Plan::Past(ticks) => self.past(operand, ticks),
            Plan::GatedPast(ticks, width) => self.gated_past(operand, second, ticks, width),
            other => self.arithmetic(other, operand),
        }
    }

    /// The terms of arithmetic with constants.
    fn arithmetic(&mut self, plan: Plan<'t>, operand: TermId) -> Result<TermId, Reason> {
        match plan {
            Plan::Product(width, factor) => self.product(operand, width, factor),
            Plan::Quotient(width, places) => {
                let wide = self.widened(operand, width)?;
                let places = self.keep_number(32, u128::from(places))?;
                self.keep_infix(Infix::ShiftRight, wide, places)
            }
            Plan::Masked(width, mask) => {
                let mask = self.keep_number(width, mask)?;
                self.keep_infix(Infix::And, operand, mask)
            }
            Plan::Widened(width, inside, outside) => {
                let operand = self.keep_closed(operand, inside)?;
                let wide = self.widened(operand, width)?;
                self.keep_closed(wide, outside)
            }
            Plan::Cut(width, inside) => {
                let operand = self.keep_closed(operand, inside)?;
                let mask = self.keep_number(width, ones(u32::from(width)))?;
                self.keep_infix(Infix::And, operand, mask)
            }
            Plan::Power(width) => {
                let one = self.keep_number(width, 1)?;
                self.keep_infix(Infix::ShiftLeft, one, operand)
            }
            _ => Err(Reason::OUTSIDE),
        }
    }

    /// A term, with braces round it where that is asked for.
    fn keep_closed(&mut self, term: TermId, braced: bool) -> Result<TermId, Reason> {
        if braced {
            return self.keep_braces(term);
        }
        Ok(term)
    }

    /// `0 + operand`, with a 0 of so many bits: the operand at that width or more.
    fn widened(&mut self, operand: TermId, width: u8) -> Result<TermId, Reason> {
        let zero = self.keep_number(width, 0)?;
        self.keep_infix(Infix::Add, zero, operand)
    }

    /// So many bits of a base, from a place on; a single bit as a test.
    fn bits_at(&mut self, base: TermId, place: TermId, width: u32) -> Result<TermId, Reason> {
        let shifted = self.keep_infix(Infix::ShiftRight, base, place)?;
        let mask = self.keep_number(small(width), ones(width))?;
        let part = self.keep_infix(Infix::And, shifted, mask)?;
        if width != 1 {
            return Ok(part);
        }
        let zero = self.keep_number(1, 0)?;
        self.keep_infix(Infix::NotEqual, part, zero)
    }

    /// A value so many ticks ago, in steps of 64 at most.
    fn past(&mut self, operand: TermId, ticks: u32) -> Result<TermId, Reason> {
        let mut term = operand;
        for _ in 0..ticks / 64 {
            term = self.keep(Term::Past(term, 64))?;
        }
        match ticks % 64 {
            0 => Ok(term),
            rest => self.keep(Term::Past(term, rest)),
        }
    }

    /// A value so many ticks ago of those at which a gate was true: counters, one after another.
    fn gated_past(
        &mut self,
        operand: TermId,
        gate: TermId,
        ticks: u32,
        width: u8,
    ) -> Result<TermId, Reason> {
        let mut value = self.keep_braces(operand)?;
        for _ in 0..ticks {
            value = self.keep_gate(Gate { width, gate, value })?;
        }
        Ok(value)
    }

    /// A product: for each bit of the factor that is 1, the operand shifted to its place.
    fn product(&mut self, operand: TermId, width: u8, factor: u128) -> Result<TermId, Reason> {
        if factor == 0 {
            let zero = self.keep_number(width, 0)?;
            return self.keep_infix(Infix::And, zero, operand);
        }
        let wide = self.widened(operand, width)?;
        let mut sum = None;
        for place in 0..128u32 {
            if (factor >> place) & 1 == 1 {
                let term = self.shifted(wide, place)?;
                sum = Some(self.joined(Infix::Add, sum, term)?);
            }
        }
        sum.ok_or(Reason::OUTSIDE)
    }

    fn shifted(&mut self, operand: TermId, places: u32) -> Result<TermId, Reason> {
        if places == 0 {
            return Ok(operand);
        }
        let places = self.keep_number(32, u128::from(places))?;
        self.keep_infix(Infix::ShiftLeft, operand, places)
    }

    /// What was before, if anything, and one term more.
    fn joined(
        &mut self,
        operator: Infix,
        before: Option<TermId>,
        term: TermId,
    ) -> Result<TermId, Reason> {
        match before {
            Some(before) => self.keep_infix(operator, before, term),
            None => Ok(term),
        }
    }

    /// All terms that wait, so many times.
    fn concatenation(&mut self, count: u32, start: usize) -> Result<TermId, Reason> {
        let first = self.listed.len();
        for _ in 0..count {
            self.list_pending(start)?;
        }
        let count = self.listed.len().saturating_sub(first);
        self.keep(Term::Concatenation(TermList { first, count }))
    }

    fn list_pending(&mut self, start: usize) -> Result<(), Reason> {
        for place in start..self.pending.len() {
            let term = self.pending_at(place);
            self.listed.push(term)?;
        }
        Ok(())
    }

    /// Any of the tests that were asked for.
    fn any_test(&mut self, first: usize, start: usize) -> Result<TermId, Reason> {
        let mut next = start;
        let mut any = None;
        for place in first..self.asked.len() {
            let asked = self.asked_at(place);
            if let Some(test) = self.test(asked, next)? {
                any = Some(self.joined(Infix::LogicalOr, any, test)?);
                next = next.saturating_add(operands_of(asked));
            }
        }
        any.ok_or(Reason::OUTSIDE)
    }

    /// A test of the terms that wait at a place, if one is asked for.
    fn test(&mut self, asked: Asked<'t>, next: usize) -> Result<Option<TermId>, Reason> {
        let first = self.pending_at(next);
        let second = self.pending_at(next.saturating_add(1));
        let test = match asked {
            Asked::Compare(operator) => self.keep_infix(operator, first, second)?,
            Asked::Wild(operator, width, value, unknown) => {
                let unknown = self.keep_number(width, unknown)?;
                let known = self.keep_prefix(Prefix::Complement, unknown)?;
                let bits = self.keep_infix(Infix::And, first, known)?;
                let value = self.keep_number(width, value)?;
                self.keep_infix(operator, bits, value)?
            }
            Asked::Known(operator, width, value, known) => {
                let known = self.keep_number(width, known)?;
                let bits = self.keep_infix(Infix::And, first, known)?;
                let value = self.keep_number(width, value)?;
                self.keep_infix(operator, bits, value)?
            }
            Asked::Within => {
                let third = self.pending_at(next.saturating_add(2));
                let fourth = self.pending_at(next.saturating_add(3));
                let least = self.keep_infix(Infix::GreaterEqual, first, second)?;
                let most = self.keep_infix(Infix::LessEqual, third, fourth)?;
                self.keep_infix(Infix::LogicalAnd, least, most)?
            }
            Asked::Always => self.keep_number(1, 1)?,
            _ => return Ok(None),
        };
        Ok(Some(test))
    }

    /// The sum of the bits that were asked for, at 32 bits or more.
    fn sum(&mut self, first: usize, start: usize) -> Result<TermId, Reason> {
        let mut next = start;
        let mut sum = self.keep_number(32, 0)?;
        for place in first..self.asked.len() {
            match self.asked_at(place) {
                Asked::Signal(path) => {
                    let bit = self.keep(Term::Signal(path))?;
                    sum = self.keep_infix(Infix::Add, sum, bit)?;
                }
                Asked::Bits(path, high, low) => sum = self.sum_of_bits(sum, path, high, low)?,
                Asked::BitsOf(width, braced) => {
                    let value = self.pending_at(next);
                    sum = self.sum_of_value(sum, value, width, braced)?;
                    next = next.saturating_add(1);
                }
                _ => {}
            }
        }
        Ok(sum)
    }

    fn sum_of_bits(
        &mut self,
        before: TermId,
        path: Path<'t>,
        high: u32,
        low: u32,
    ) -> Result<TermId, Reason> {
        let mut sum = before;
        for place in low..high.saturating_add(1) {
            let bit = self.keep(Term::Bit(path, place))?;
            sum = self.keep_infix(Infix::Add, sum, bit)?;
        }
        Ok(sum)
    }

    fn sum_of_value(
        &mut self,
        before: TermId,
        value: TermId,
        width: u32,
        braced: bool,
    ) -> Result<TermId, Reason> {
        let value = self.keep_closed(value, braced)?;
        if width == 1 {
            return self.keep_infix(Infix::Add, before, value);
        }
        let mut sum = before;
        for place in 0..width {
            let place = self.keep_number(32, u128::from(place))?;
            let bit = self.bits_at(value, place, 1)?;
            sum = self.keep_infix(Infix::Add, sum, bit)?;
        }
        Ok(sum)
    }
}

/// How many operands a test takes.
fn operands_of(asked: Asked) -> usize {
    match asked {
        Asked::Compare(_) => 2,
        Asked::Wild(_, _, _, _) | Asked::Known(_, _, _, _) => 1,
        Asked::Within => 4,
        _ => 0,
    }
}
