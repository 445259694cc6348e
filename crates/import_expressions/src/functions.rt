//! System functions, and what they ask for.

use crate::measures::MOST_DEPTH;
use crate::plan::{Asked, Plan};
use crate::reason::Reason;
use crate::term::{Term, TermId};
use crate::terms::Terms;
use import_elaboration::{Value, ValueId, ValueList};
use import_trees::{Path, Refusal};
use parser_grammar::Function;

/// How many ticks ago `$past` may be, in steps of at most 64.
const MOST_TICKS: u32 = 4_096;

/// A system function (IEEE 1800-2017, 16.9.3, 20.6 to 20.9).
#[derive(Clone, Copy, PartialEq, Eq)]
pub(crate) enum SystemFunction {
    Past,
    Sampled,
    Unsigned,
    Signed,
    CountOnes,
    Bits,
    Clog2,
    IsUnknown,
    /// One that rules have.
    Call(Function),
    Other,
}

/// The system functions that are known.
const FUNCTIONS: [(&[u8], SystemFunction); 14] = [
    (b"$past", SystemFunction::Past),
    (b"$sampled", SystemFunction::Sampled),
    (b"$signed", SystemFunction::Signed),
    (b"$countones", SystemFunction::CountOnes),
    (b"$bits", SystemFunction::Bits),
    (b"$clog2", SystemFunction::Clog2),
    (b"$isunknown", SystemFunction::IsUnknown),
    (b"$rose", SystemFunction::Call(Function::Rose)),
    (b"$fell", SystemFunction::Call(Function::Fell)),
    (b"$stable", SystemFunction::Call(Function::Stable)),
    (b"$changed", SystemFunction::Call(Function::Changed)),
    (b"$onehot", SystemFunction::Call(Function::OneHot)),
    (b"$onehot0", SystemFunction::Call(Function::OneHot0)),
    (b"$unsigned", SystemFunction::Unsigned),
];

/// The system function of a name.
pub(crate) fn function_of(name: &[u8]) -> SystemFunction {
    for (known, function) in FUNCTIONS {
        if name == known {
            return function;
        }
    }
    SystemFunction::Other
}

/// The smallest count of bits that can number so many things (20.8.1).
fn ceiling_of_logarithm(value: u128) -> u32 {
    match value.checked_sub(1) {
        Some(last) => 128 - last.leading_zeros(),
        None => 0,
    }
}

/// A number of 32 bits.
pub(crate) fn plain<'t>(value: u32) -> Plan<'t> {
    Plan::Term(Term::Number(32, u128::from(value)))
}

impl<'p, 't> Terms<'p, 't> {
    /// Plans a system function.
    pub(crate) fn plan_system(
        &mut self,
        id: ValueId,
        name: &[u8],
        list: ValueList,
        alone: bool,
    ) -> Result<Plan<'t>, Reason> {
        let count = self.argument_count(list)?;
        let first = self.member(list, 0);
        let function = function_of(name);
        if function == SystemFunction::Past {
            return self.plan_past(id, list, count, alone);
        }
        if count != 1 && function != SystemFunction::Other {
            return Err(Reason::Known(Refusal::Arguments));
        }
        match function {
            SystemFunction::Sampled | SystemFunction::Unsigned => self.plan_sampled(first, alone),
            SystemFunction::CountOnes => self.plan_sum(first),
            SystemFunction::Bits => match self.width(first, MOST_DEPTH)? {
                Some(width) => Ok(plain(width)),
                None => Err(Reason::NeedsWidths),
            },
            SystemFunction::Clog2 => Ok(plain(ceiling_of_logarithm(self.constant(first)?))),
            SystemFunction::IsUnknown => Err(Reason::Unknown),
            SystemFunction::Signed => Err(Reason::Signed),
            SystemFunction::Call(function) => {
                self.ask(first, true)?;
                Ok(Plan::Call(function))
            }
            SystemFunction::Past | SystemFunction::Other => Err(Reason::OUTSIDE),
        }
    }

    /// How many arguments there are, without those at the end that are left out.
    fn argument_count(&self, list: ValueList) -> Result<usize, Reason> {
        let mut count = 0usize;
        for place in 0..list.count {
            match self.node(self.member(list, place)).value {
                Value::Missing => {}
                Value::Event => return Err(Reason::Known(Refusal::SecondClock)),
                _ => count = place.saturating_add(1),
            }
        }
        Ok(count)
    }

    /// The number that a value is.
    pub(crate) fn constant(&self, id: ValueId) -> Result<u128, Reason> {
        match self.number_of(id) {
            Some(number) if number.unknown == 0 => Ok(number.value),
            _ => Err(Reason::Known(Refusal::NotConstant)),
        }
    }

    /// A value where it stands alone.
    pub(crate) fn plan_sampled(
        &mut self,
        operand: ValueId,
        alone: bool,
    ) -> Result<Plan<'t>, Reason> {
        if self.is_still(operand, MOST_DEPTH) {
            self.ask(operand, alone)?;
            return Ok(Plan::Same);
        }
        self.ask(operand, false)?;
        Ok(Plan::Braced)
    }

    /// Plans `$past(value, ticks, gate)`.
    fn plan_past(
        &mut self,
        id: ValueId,
        list: ValueList,
        count: usize,
        alone: bool,
    ) -> Result<Plan<'t>, Reason> {
        if count == 0 || count > 3 {
            return Err(Reason::Known(Refusal::Arguments));
        }
        let operand = self.member(list, 0);
        let ticks = self.ticks_of(self.member(list, 1))?;
        if count < 3 {
            self.ask(operand, alone)?;
            return Ok(Plan::Past(ticks));
        }
        let width = self.counter_width(operand, alone)?;
        if let Some(term) = self.gated_before(id, width) {
            return Ok(Plan::Made(term));
        }
        self.ask(operand, false)?;
        let gate = self.member(list, 2);
        self.ask(gate, true)?;
        Ok(Plan::GatedPast(ticks, width))
    }

    /// How many ticks ago; one where nothing is said.
    fn ticks_of(&self, id: ValueId) -> Result<u32, Reason> {
        if let Value::Missing = self.node(id).value {
            return Ok(1);
        }
        match u32::try_from(self.constant(id)?) {
            Ok(ticks) if ticks >= 1 && ticks <= MOST_TICKS => Ok(ticks),
            _ => Err(Reason::Known(Refusal::BadBound)),
        }
    }

    /// The width of a counter that keeps a value; where only what it is worth counts, enough.
    fn counter_width(&self, operand: ValueId, alone: bool) -> Result<u8, Reason> {
        match self.width(operand, MOST_DEPTH)? {
            Some(width) => match u8::try_from(width) {
                Ok(width) if width >= 1 && width <= 128 => Ok(width),
                _ => Err(Reason::Known(Refusal::WiderThan128)),
            },
            None if alone => Ok(128),
            None => Err(Reason::NeedsWidths),
        }
    }

    /// The term of a value with a gate, if it was made before.
    fn gated_before(&self, id: ValueId, width: u8) -> Option<TermId> {
        for (known, bits, term) in self.gated.iter() {
            if *known == id && *bits == width {
                return Some(*term);
            }
        }
        None
    }

    /// Plans `$countones(value)`: a sum of bits.
    fn plan_sum(&mut self, operand: ValueId) -> Result<Plan<'t>, Reason> {
        self.ask_bits(operand, MOST_DEPTH)?;
        Ok(Plan::Sum)
    }

    /// Asks for the bits of a value, one by one.
    fn ask_bits(&mut self, id: ValueId, depth: usize) -> Result<(), Reason> {
        if depth == 0 {
            return Err(Reason::HEAVY);
        }
        self.take_one()?;
        match self.node(id).value {
            Value::Concatenation(list) => {
                for place in 0..list.count {
                    let member = self.member(list, place);
                    self.ask_bits(member, depth - 1)?;
                }
                Ok(())
            }
            Value::Signal(path) => self.ask_signal(path),
            Value::Slice(base, high, low) => match self.signal_of(base) {
                Some(path) if high == low || self.ascends(base)? == (high < low) => {
                    self.ask_range(path, high.max(low), high.min(low))
                }
                _ => self.ask_bits_of(id),
            },
            _ => self.ask_bits_of(id),
        }
    }

    /// Asks for the bits of a signal whose declared numbers go from the one to the other.
    fn ask_range(&mut self, path: Path<'t>, high: u32, low: u32) -> Result<(), Reason> {
        let path = self.spelled(path)?;
        let (high, low) = self.declared(path, high, low)?;
        self.asked.push(Asked::Bits(path, high, low))?;
        Ok(())
    }

    fn ask_signal(&mut self, path: Path<'t>) -> Result<(), Reason> {
        let path = self.spelled(path)?;
        match self.signal_width(path)? {
            Some(1) => self.asked.push(Asked::Signal(path))?,
            Some(width) => self
                .asked
                .push(Asked::Bits(path, width.saturating_sub(1), 0))?,
            None => return Err(Reason::NeedsWidths),
        }
        Ok(())
    }

    /// Asks for the bits of a value that is no name; the value stands alone.
    fn ask_bits_of(&mut self, id: ValueId) -> Result<(), Reason> {
        match self.width(id, MOST_DEPTH)? {
            Some(width) if width >= 1 && width <= 128 => {
                let still = self.is_still(id, MOST_DEPTH);
                self.ask(id, still)?;
                self.asked.push(Asked::BitsOf(width, !still))?;
                Ok(())
            }
            Some(_) => Err(Reason::Known(Refusal::WiderThan128)),
            None => Err(Reason::NeedsWidths),
        }
    }
}
