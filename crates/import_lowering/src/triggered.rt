//! Whether a sequence has ended now (IEEE 1800-2017, 16.13.6).

use crate::lowering::Lowering;
use crate::reason::NotLowered;
use crate::ways::{Way, Ways};
use import_elaboration::{Parts, ValueId};
use import_properties::Condition;

impl Lowering {
    /// That one of the ways ends now.
    pub(crate) fn ended(
        &mut self,
        parts: &mut Parts<'_>,
        ways: &Ways,
        at: usize,
    ) -> Result<ValueId, NotLowered> {
        let mut found = Condition::Zero;
        for way in ways.ways.iter() {
            if way.length > 0 {
                let ended = self.ended_so(parts, ways, *way, at)?;
                found = self.either(parts, found, ended, at)?;
            }
        }
        self.value_of(parts, found, at)
    }

    /// That a way ends now: each of its booleans was true when it had to be. Before the first tick
    /// nothing is true, so no way begins there.
    fn ended_so(
        &mut self,
        parts: &mut Parts<'_>,
        ways: &Ways,
        way: Way,
        at: usize,
    ) -> Result<Condition, NotLowered> {
        let age = way.length.saturating_sub(1);
        let mut found = if ways.has_first(way) {
            Condition::One
        } else {
            self.was(parts, Condition::One, age, at)?
        };
        for place in way.first..way.first.saturating_add(way.count) {
            if let Some(mark) = ways.marks.get(place) {
                let age = age.saturating_sub(mark.tick);
                let condition = self.was(parts, mark.condition, age, at)?;
                found = self.both(parts, found, condition, at)?;
            }
        }
        Ok(found)
    }

    /// That a boolean was true so many ticks ago.
    fn was(
        &mut self,
        parts: &mut Parts<'_>,
        condition: Condition,
        age: usize,
        at: usize,
    ) -> Result<Condition, NotLowered> {
        if age == 0 {
            return Ok(condition);
        }
        let value = self.value_of(parts, condition, at)?;
        let past = self.past(parts, value, age, at)?;
        Ok(Condition::Leaf(past.0))
    }
}
