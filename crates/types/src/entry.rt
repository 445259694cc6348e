//! What is known of a sequence with its names written out.

ghost use Rattle.std.specs.Prelude.{◌≡◌, ◌+◌, ◌≤◌, IfOk};
ghost use Rattle.assertions.specs.declared.sequence.Boolean.{Boolean};
ghost use Rattle.assertions.specs.declared.sequence.Boolean.TheVariants.{Listed};
ghost use Rattle.assertions.specs.Written.{Written, boolean, delay, lead, repeat, or, and};
ghost use Rattle.assertions.specs.Written.{intersect};
ghost use Rattle.assertions.specs.Written.{throughout, weight, IsOrdered};
ghost use Rattle.types.specs.Entries.{IsFacts, HasSame, IsTheEntryOf};

use crate::facts::Facts;
use crate::make::{
    both, copy_of, delay_of, either, lead_of, meet, repetition_of, throughout, weightless,
};
use assertions::{Boolean, Sequence};
use std::alloc::{AllocError, Global};

/// What is known of a sequence with its names written out.
#[derive(Drop)]
pub struct Entry {
    pub facts: Facts,
    /// A sequence that says the same, where it weighs at most 127. Its booleans have the places
    /// that the draft has.
    pub sequence: Option<Box<Sequence>>,
}

/// The entry of what has these facts, where the sequence says the same if it weighs from 1 to 127.
fn entry_with(
    alloc: Global,
    facts: Facts,
    sequence: Option<Box<Sequence>>,
) -> Result<Entry, AllocError>
    ensures { IfOk result (λ e. (w : Written Boolean) → IsOrdered w → IsFacts w facts
        → (1 ≤ weight w → weight w ≤ 127 → HasSame w sequence) → IsTheEntryOf w e) }
{
    if facts.weight == 0 {
        let sequence = Some(weightless(alloc, facts.empty)?);
        return Ok(Entry { facts, sequence });
    }
    if facts.weight > 127 {
        return Ok(Entry {
            facts,
            sequence: None,
        });
    }
    Ok(Entry { facts, sequence })
}

impl Entry {
    /// Of a boolean.
    pub(crate) fn boolean(alloc: Global, which: Boolean) -> Result<Entry, AllocError>
        ensures { IfOk result (IsTheEntryOf (boolean which)) }
    {
        let leaf = Box::new(alloc, Sequence::Boolean(which))?;
        Ok(Entry {
            facts: Facts::boolean(),
            sequence: Some(leaf),
        })
    }

    /// A copy.
    pub(crate) fn copy(&self, alloc: Global) -> Result<Entry, AllocError>
        ensures { IfOk result
            (λ e. (w : Written Boolean) → IsTheEntryOf w self.now → IsTheEntryOf w e) }
    {
        let facts = self.facts;
        let Some(sequence) = &self.sequence else {
            return Ok(Entry {
                facts,
                sequence: None,
            });
        };
        let sequence = Some(copy_of(alloc, sequence)?);
        Ok(Entry { facts, sequence })
    }

    /// Of `self ##[least:least + extra] second`.
    pub(crate) fn delay(
        self,
        alloc: Global,
        least: u8,
        extra: u8,
        second: Entry,
    ) -> Result<Entry, AllocError>
        ensures { IfOk result
            (λ e. (v w : Written Boolean) → IsTheEntryOf v self → IsTheEntryOf w second
            → IsTheEntryOf (delay v least (least + extra) w) e) }
    {
        let facts = self.facts.delay(least, extra, second.facts);
        let most = least as usize + extra as usize;
        let sequence = delay_of(alloc, self.sequence, least, most, second.sequence)?;
        entry_with(alloc, facts, sequence)
    }

    /// Of `##[least:least + extra] self`, with nothing before it.
    pub(crate) fn lead(self, alloc: Global, least: u8, extra: u8) -> Result<Entry, AllocError>
        ensures { IfOk result (λ e. (w : Written Boolean) → IsTheEntryOf w self
            → IsTheEntryOf (lead least (least + extra) w) e) }
    {
        let facts = self.facts.lead(least, extra);
        let most = least as usize + extra as usize;
        let sequence = lead_of(alloc, least, most, self.sequence)?;
        entry_with(alloc, facts, sequence)
    }

    /// Of `self[*least:least + extra]`.
    pub(crate) fn repeat(self, alloc: Global, least: u8, extra: u8) -> Result<Entry, AllocError>
        ensures { IfOk result (λ e. (w : Written Boolean) → IsTheEntryOf w self
            → IsTheEntryOf (repeat w least (least + extra)) e) }
    {
        let facts = self.facts.repeat(least, extra);
        let most = least as usize + extra as usize;
        let sequence = repetition_of(alloc, self.sequence, least, most)?;
        entry_with(alloc, facts, sequence)
    }

    /// Of `self or second`.
    pub(crate) fn or(self, alloc: Global, second: Entry) -> Result<Entry, AllocError>
        ensures { IfOk result
            (λ e. (v w : Written Boolean) → IsTheEntryOf v self → IsTheEntryOf w second
            → IsTheEntryOf (or v w) e) }
    {
        let facts = self.facts.or(second.facts);
        let sequence = either(alloc, self.sequence, second.sequence)?;
        entry_with(alloc, facts, sequence)
    }

    /// Of `self and second`.
    pub(crate) fn and(self, alloc: Global, second: Entry) -> Result<Entry, AllocError>
        ensures { IfOk result
            (λ e. (v w : Written Boolean) → IsTheEntryOf v self → IsTheEntryOf w second
            → IsTheEntryOf (and v w) e) }
    {
        let facts = self.facts.and(second.facts);
        let sequence = both(alloc, self.sequence, second.sequence)?;
        entry_with(alloc, facts, sequence)
    }

    /// Of `self intersect second`.
    pub(crate) fn intersect(self, alloc: Global, second: Entry) -> Result<Entry, AllocError>
        ensures { IfOk result
            (λ e. (v w : Written Boolean) → IsTheEntryOf v self → IsTheEntryOf w second
            → IsTheEntryOf (intersect v w) e) }
    {
        let facts = self.facts.intersect(second.facts);
        let sequence = meet(alloc, self.sequence, second.sequence)?;
        entry_with(alloc, facts, sequence)
    }

    /// Of a boolean throughout `self`.
    pub(crate) fn throughout(self, alloc: Global, place: usize) -> Result<Entry, AllocError>
        ensures { IfOk result (λ e. (w : Written Boolean) → IsTheEntryOf w self
            → IsTheEntryOf (throughout (Listed place) w) e) }
    {
        let facts = self.facts;
        let sequence = throughout(alloc, Boolean::Listed(place), self.sequence)?;
        entry_with(alloc, facts, sequence)
    }
}
