//! What was read of a body so far.

ghost use Rattle.std.specs.Prelude.{◌≡◌, ◌≤◌, ◌+◌, ℕ, List, Ok, length, map, IfOk, IfErr};
ghost use Rattle.std.specs.Prelude.{IfSome, OnOk, IsTrue};
ghost use Rattle.vcd_reader.specs.Faults.{Fails};
ghost use Rattle.vcd_reader.specs.Index.{codes_in};
ghost use Rattle.vcd_reader.specs.Stored.{stored_step};
ghost use Rattle.vcd_reader.specs.Readings.{IsReading, IsReadingBehind, IsFollowedBy, steps_from};
ghost use Rattle.vcd_reader.specs.Readings.{AreMoved, AreStepsMoved, IsItemAt};

use crate::body::{has_room, new_change, next_item};
use crate::codes::Codes;
use crate::fault::{Fault, ReadError};
use crate::item::Item;
use crate::line::line_item;
use crate::step::{Change, Step};
use std::alloc::{AllocError, Global};

/// What was read of a body from a byte on, at which the step of a time stands open.
#[derive(Drop)]
pub(crate) struct Reading {
    /// The byte at which it began, and the time of the step that stood open there.
    pub(crate) start: usize,
    pub(crate) first: u64,
    /// The steps before the open one.
    pub(crate) steps: Vec<Step>,
    /// The time of the open step, and its changes so far.
    pub(crate) now: u64,
    pub(crate) changes: Vec<Change>,
    /// The high halves of wide values.
    pub(crate) high: Vec<u64>,
    /// How many changes were read.
    pub(crate) count: u32,
    /// The byte from which on nothing was read.
    pub(crate) at: usize,
}

/// Adds a number to each change's place among the high halves. False, with some of them done, where
/// a place would be too large.
fn move_changes(changes: &mut [Change], by: u32) -> bool
    ensures long { length changes.new ≡ length changes.old }
    ensures moved { IsTrue result → AreMoved by changes.old changes.new }
{
    for place in 0..changes.len() {
        let change = changes[place];
        if change.high == 0 {
            continue;
        }
        let Some(high) = change.high.checked_add(by) else {
            return false;
        };
        changes[place] = Change {
            code: change.code,
            high,
            low: change.low,
        };
    }
    true
}

/// The same of the changes of steps.
fn move_steps(steps: &mut [Step], by: u32) -> bool
    ensures { IsTrue result → AreStepsMoved by steps.old steps.new }
{
    for place in 0..steps.len() {
        if !move_changes(&mut steps[place].changes, by) {
            return false;
        }
    }
    true
}

impl Reading {
    /// Nothing, from a byte on at which the step of a time stands open.
    pub(crate) fn new(alloc: Global, start: usize, first: u64) -> Reading
        ensures reading { (declared : List (List ℕ)) (bytes : List ℕ) → start ≤ length bytes
            → IsReading declared bytes result }
        ensures start { result.start ≡ start }
        ensures first { result.first ≡ first }
    {
        Reading {
            start,
            first,
            steps: Vec::new(alloc),
            now: first,
            changes: Vec::new(alloc),
            high: Vec::new(alloc),
            count: 0,
            at: start,
        }
    }

    /// Takes an item that ends there.
    #[inline(always)]
    fn take(&mut self, alloc: Global, item: Item, end: usize) -> Result<(), ReadError>
        requires high { length self.old.high.items ≤ self.old.count }
        ensures reading { (declared : List (List ℕ)) (bytes : List ℕ)
            → IsReading declared bytes self.old → IsItemAt declared bytes self.old.at item end
            → OnOk result (IsReading declared bytes self.new) }
        ensures fault { (declared : List (List ℕ)) (bytes : List ℕ)
            → IsReading declared bytes self.old → IsItemAt declared bytes self.old.at item end
            → IfErr result (λ e. Fails e
            (steps_from declared bytes 0 self.old.first self.old.start)) }
        ensures start { OnOk result (self.new.start ≡ self.old.start) }
        ensures first { OnOk result (self.new.first ≡ self.old.first) }
        ensures at { OnOk result (self.new.at ≡ end) }
    {
        match item {
            Item::Skipped => {}
            Item::Changed(code, value) => {
                if !has_room(self.count) {
                    return Err(ReadError::Fault(Fault::TooLarge));
                }
                let change = new_change(&mut self.high, code, value)?;
                self.changes.push(change)?;
                self.count += 1;
            }
            Item::Timed(time, from) => {
                if time < self.now {
                    return Err(ReadError::Fault(Fault::TimeBack(from)));
                }
                if time != self.now {
                    let changes = Vec::from_slice(alloc, &self.changes)?;
                    self.steps.push(Step {
                        time: self.now,
                        changes,
                    })?;
                    self.changes.clear();
                    self.now = time;
                }
            }
        }
        self.at = end;
        Ok(())
    }

    /// Reads on, up to the first item that ends at a byte or after it.
    pub(crate) fn read_to(
        self,
        alloc: Global,
        bytes: &[u8],
        to: usize,
        codes: &Codes,
    ) -> Result<Reading, ReadError>
        requires reading { IsReading (codes_in codes.now.variables.now) bytes.now self }
        requires inside { to ≤ length bytes.now }
        ensures reading { IfOk result (IsReading (codes_in codes.now.variables.now) bytes.now) }
        ensures start { IfOk result (λ r. r.start ≡ self.start) }
        ensures first { IfOk result (λ r. r.first ≡ self.first) }
        ensures reached { IfOk result (λ r. to ≤ r.at) }
        ensures fault { IfErr result (λ e. Fails e
            (steps_from (codes_in codes.now.variables.now) bytes.now 0 self.first self.start)) }
    {
        let mut reading = self;
        'items: while reading.at < to {
            if let Some((item, end)) = line_item(bytes, reading.at, codes) {
                reading.take(alloc, item, end)?;
                continue;
            }
            let Some((item, end)) = next_item(bytes, reading.at, codes)? else {
                reading.at = bytes.len();
                continue;
            };
            reading.take(alloc, item, end)?;
        }
        Ok(reading)
    }

    /// Whether the other one begins where this one stands.
    fn is_followed_by(&self, other: &Reading) -> bool
        ensures { IsTrue result → IsFollowedBy self.entry.now other.entry.now }
    {
        other.start == self.at
            && other.first == self.now
            && self.changes.is_empty()
            && other.count <= u32::MAX - self.count
    }

    /// This one, with so many high halves of wide values in front of its own. None where a place
    /// would be too large.
    fn moved(self, by: u32) -> Option<Reading>
        ensures reading { (declared : List (List ℕ)) (bytes front : List ℕ) → length front ≡ by
            → IsReading declared bytes self
            → IfSome result (IsReadingBehind front declared bytes) }
        ensures same { IfSome result (λ r. (r.start ≡ self.start) × (r.first ≡ self.first)
            × (r.count ≡ self.count)) }
    {
        let mut moved = self;
        if by == 0 || moved.high.is_empty() {
            return Some(moved);
        }
        if !move_steps(&mut moved.steps, by) || !move_changes(&mut moved.changes, by) {
            return None;
        }
        Some(moved)
    }

    /// This one with what the other one read after it, whose high halves stand after this one's.
    fn extended(self, other: Reading) -> Result<Reading, AllocError>
        requires follows { IsFollowedBy self other }
        ensures reading { (declared : List (List ℕ)) (bytes : List ℕ)
            → IsReading declared bytes self → IsReadingBehind self.high.items declared bytes other
            → IfOk result (IsReading declared bytes) }
        ensures start { IfOk result (λ r. r.start ≡ self.start) }
        ensures first { IfOk result (λ r. r.first ≡ self.first) }
    {
        let mut steps = self.steps;
        let mut after = other.steps;
        steps.append(&mut after)?;
        let mut high = self.high;
        let mut high_after = other.high;
        high.append(&mut high_after)?;
        Ok(Reading {
            start: self.start,
            first: self.first,
            steps,
            now: other.now,
            changes: other.changes,
            high,
            count: self.count + other.count,
            at: other.at,
        })
    }

    /// This one, and what another one read, where there is one that begins where this one stands.
    pub(crate) fn followed_by(self, other: Option<Reading>) -> Result<Reading, AllocError>
        ensures reading { (declared : List (List ℕ)) (bytes : List ℕ)
            → IsReading declared bytes self → IfSome other (IsReading declared bytes)
            → IfOk result (IsReading declared bytes) }
        ensures start { IfOk result (λ r. r.start ≡ self.start) }
        ensures first { IfOk result (λ r. r.first ≡ self.first) }
    {
        let Some(other) = other else {
            return Ok(self);
        };
        if !self.is_followed_by(&other) {
            return Ok(self);
        }
        let Ok(by) = u32::try_from(self.high.len()) else {
            return Ok(self);
        };
        match other.moved(by) {
            Some(other) => self.extended(other),
            None => Ok(self),
        }
    }

    /// The steps, with the open one as the last, and the high halves of their wide values.
    pub(crate) fn finish(self, alloc: Global) -> Result<(Vec<Step>, Vec<u64>), AllocError>
        ensures { (declared : List (List ℕ)) (bytes : List ℕ) → IsReading declared bytes self
            → self.at ≡ length bytes → IfOk result (λ r.
            steps_from declared bytes 0 self.first self.start
            ≡ Ok (map (stored_step r.1.items) r.0.items)) }
    {
        let mut steps = self.steps;
        let changes = Vec::from_slice(alloc, &self.changes)?;
        steps.push(Step {
            time: self.now,
            changes,
        })?;
        Ok((steps, self.high))
    }
}
