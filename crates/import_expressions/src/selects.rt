//! Selects: of names as they stand, of all else as shifts.

use crate::measures::MOST_DEPTH;
use crate::plan::Plan;
use crate::reason::Reason;
use crate::term::Term;
use crate::terms::Terms;
use import_elaboration::ValueId;
use import_trees::{Number, Path, Refusal};

/// The place of a bit that a number tells.
fn place_of(number: Number) -> Result<u32, Reason> {
    if number.unknown != 0 {
        return Err(Reason::Known(Refusal::UnknownDigits));
    }
    match u32::try_from(number.value) {
        Ok(place) if !number.signed || place < 0x8000_0000 => Ok(place),
        _ => Err(Reason::SliceRange),
    }
}

impl<'p, 't> Terms<'p, 't> {
    /// Plans `base[index]`. A bit beyond the highest one is 0.
    pub(crate) fn plan_index(&mut self, base: ValueId, index: ValueId) -> Result<Plan<'t>, Reason> {
        if let Some(number) = self.number_of(index) {
            let place = place_of(number)?;
            return self.plan_bits(base, place, 1, true);
        }
        self.ask_base(base)?;
        self.ask(index, true)?;
        Ok(Plan::BitAt)
    }

    /// Plans `base[high:low]`.
    pub(crate) fn plan_slice(
        &mut self,
        base: ValueId,
        high: u32,
        low: u32,
        alone: bool,
    ) -> Result<Plan<'t>, Reason> {
        let (high, low) = if self.ascends(base)? {
            (low, high)
        } else {
            (high, low)
        };
        if low > high {
            return Err(Reason::SliceRange);
        }
        self.plan_bits(base, low, (high - low).saturating_add(1), alone)
    }

    /// Plans so many bits from a constant place on, one at least.
    fn plan_bits(
        &mut self,
        base: ValueId,
        low: u32,
        width: u32,
        alone: bool,
    ) -> Result<Plan<'t>, Reason> {
        let high = match low.checked_add(width) {
            Some(end) if width > 0 => end - 1,
            _ => return Err(Reason::SliceRange),
        };
        if let Some(path) = self.signal_of(base) {
            let path = self.spelled(path)?;
            let (high, low) = self.declared(path, high, low)?;
            if width == 1 {
                return Ok(Plan::Term(Term::Bit(path, low)));
            }
            return Ok(Plan::Term(Term::Bits(path, high, low)));
        }
        self.want_part(base, width, alone)?;
        self.ask_base(base)?;
        Ok(Plan::Part(low, width))
    }

    /// Whether a value is a signal whose declared range has its lowest number on the left.
    pub(crate) fn ascends(&self, base: ValueId) -> Result<bool, Reason> {
        let Some(path) = self.signal_of(base) else {
            return Ok(false);
        };
        match self.known(path)? {
            Some(known) => Ok(known.ascends()),
            None => Ok(false),
        }
    }

    /// The bits, counted from 0 at the right, that the numbers of a select mean, the higher one
    /// first.
    pub(crate) fn declared(
        &self,
        path: Path<'t>,
        high: u32,
        low: u32,
    ) -> Result<(u32, u32), Reason> {
        let Some(known) = self.known(path)? else {
            return Ok((high, low));
        };
        match (known.place(high), known.place(low)) {
            (Some(high), Some(low)) => Ok((high.max(low), high.min(low))),
            _ => Err(Reason::SliceRange),
        }
    }

    /// Refuses a signal whose bits aren't counted from 0 at the right, where an index changes.
    fn check_counted(&self, base: ValueId) -> Result<(), Reason> {
        let Some(path) = self.signal_of(base) else {
            return Ok(());
        };
        match self.known(path)? {
            Some(known) if !known.counts_from_zero() => Err(Reason::SliceRange),
            _ => Ok(()),
        }
    }

    /// Asks for what bits are taken of.
    fn ask_base(&mut self, base: ValueId) -> Result<(), Reason> {
        self.check_counted(base)?;
        let still = self.is_still(base, MOST_DEPTH);
        self.ask(base, still)
    }

    /// Refuses several bits of an expression where their width counts, or that of the expression.
    fn want_part(&self, base: ValueId, width: u32, alone: bool) -> Result<(), Reason> {
        if width > 128 {
            return Err(Reason::Known(Refusal::WiderThan128));
        }
        if width > 1 && !(alone && self.is_still(base, MOST_DEPTH)) {
            return Err(Reason::Width);
        }
        Ok(())
    }

    /// Plans `base[start +: width]`.
    pub(crate) fn plan_part_up(
        &mut self,
        base: ValueId,
        start: ValueId,
        width: u32,
        alone: bool,
    ) -> Result<Plan<'t>, Reason> {
        if let Some(number) = self.number_of(start) {
            return self.plan_bits(base, place_of(number)?, width, alone);
        }
        if width == 0 {
            return Err(Reason::SliceRange);
        }
        self.want_part(base, width, alone)?;
        self.ask_base(base)?;
        self.ask(start, true)?;
        if width == 1 {
            return Ok(Plan::BitAt);
        }
        Ok(Plan::PartAt(width))
    }

    /// Plans `base[start -: width]`, from a constant.
    pub(crate) fn plan_part_down(
        &mut self,
        base: ValueId,
        start: ValueId,
        width: u32,
        alone: bool,
    ) -> Result<Plan<'t>, Reason> {
        let Some(number) = self.number_of(start) else {
            return Err(Reason::PartDown);
        };
        let high = place_of(number)?;
        match high.checked_add(1) {
            Some(end) if width > 0 && width <= end => {
                self.plan_bits(base, end - width, width, alone)
            }
            _ => Err(Reason::SliceRange),
        }
    }
}
