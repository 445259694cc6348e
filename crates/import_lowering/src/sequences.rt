//! Sequences of opened parts.

use crate::lowering::{Lowering, part_at};
use crate::measure::length_of;
use crate::nodes::{
    Joint, boolean, boolean_of, delay, lead, leaf_of, repeat, throughout, together, waiting,
};
use crate::now::Span;
use crate::reason::{Hint, NotLowered, Reason, hinted, refused};
use crate::ways::ways_of;
use import_elaboration::{Assignments, Count, Part, PartId, Parts, ValueId};
use import_properties::{Condition, Sequence, goto_repetition, nonconsecutive_repetition};
use std::alloc::{AllocError, Global};

impl Lowering {
    /// The sequence of a part that begins now; afterwards it is the tick at which it ends.
    /// `is_last` where only whether it matches counts, and not where.
    #[cycle(sequences)]
    pub(crate) fn sequence(
        &mut self,
        parts: &mut Parts<'_>,
        id: PartId,
        is_last: bool,
        depth: usize,
    ) -> Result<Box<Sequence>, NotLowered> {
        let node = part_at(parts, id);
        let at = node.at;
        if depth == 0 {
            return Err(refused(Reason::TooHeavy, at));
        }
        match node.part {
            Part::Boolean(value) => {
                let condition = self.condition(parts, value, depth - 1)?;
                Ok(boolean(self.alloc, condition)?)
            }
            Part::Lead(_, _) | Part::Delay(_, _, _) => { self.chain(parts, id, is_last, depth - 1) }
            Part::Repeat(body, count) => self.repetition(parts, body, count, at, depth - 1),
            other => self.joined_sequence(parts, other, is_last, at, depth - 1),
        }
    }

    /// The same of the forms that join two parts that begin together.
    #[cycle(sequences)]
    fn joined_sequence(
        &mut self,
        parts: &mut Parts<'_>,
        part: Part,
        is_last: bool,
        at: usize,
        depth: usize,
    ) -> Result<Box<Sequence>, NotLowered> {
        if depth == 0 {
            return Err(refused(Reason::TooHeavy, at));
        }
        let (joint, first, second) = match part {
            Part::And(first, second) => (Joint::And, first, second),
            Part::Or(first, second) => (Joint::Or, first, second),
            Part::Intersect(first, second) => (Joint::Intersect, first, second),
            other => return self.other_sequence(parts, other, is_last, at, depth - 1),
        };
        let is_last = is_last && joint != Joint::Intersect;
        let start = self.now;
        let first = self.sequence(parts, first, is_last, depth - 1)?;
        let end = self.now;
        self.now = start;
        let second = self.sequence(parts, second, is_last, depth - 1)?;
        self.meet(end, joint == Joint::And);
        if let (Some(one), Some(other)) = (leaf_of(&first), leaf_of(&second)) {
            let both = self.joined_truth(parts, joint, one, other, at)?;
            return Ok(boolean(self.alloc, both)?);
        }
        let whole = together(self.alloc, joint, first, second)?;
        if length_of(&whole).is_none() {
            return Err(refused(Reason::Degenerate, at));
        }
        Ok(whole)
    }

    /// Two booleans as one.
    fn joined_truth(
        &mut self,
        parts: &mut Parts<'_>,
        joint: Joint,
        first: Condition,
        second: Condition,
        at: usize,
    ) -> Result<Condition, NotLowered> {
        match joint {
            Joint::Or => self.either(parts, first, second, at),
            _ => self.both(parts, first, second, at),
        }
    }

    /// The same of other forms.
    #[cycle(sequences)]
    fn other_sequence(
        &mut self,
        parts: &mut Parts<'_>,
        part: Part,
        is_last: bool,
        at: usize,
        depth: usize,
    ) -> Result<Box<Sequence>, NotLowered> {
        if depth == 0 {
            return Err(refused(Reason::TooHeavy, at));
        }
        match part {
            Part::Goto(value, count) => self.found(parts, value, count, true, at, depth - 1),
            Part::Nonconsecutive(value, count) => {
                let is_goto = is_last && count.least > 0;
                self.found(parts, value, count, is_goto, at, depth - 1)
            }
            Part::Throughout(value, body) => {
                let start = self.now;
                let condition = self.condition_elsewhere(parts, value, depth - 1)?;
                self.now = start;
                let body = self.sequence(parts, body, is_last, depth - 1)?;
                Ok(throughout(self.alloc, condition, body)?)
            }
            Part::Within(first, second) => self.within(parts, first, second, at, depth - 1),
            Part::FirstMatch(body) => {
                let is_kept = is_last || is_exact_goto(parts, body);
                let body = self.sequence(parts, body, is_last, depth - 1)?;
                if length_of(&body).least == 0 {
                    return Err(refused(Reason::AdmitsEmpty, at));
                }
                if is_kept {
                    return Ok(body);
                }
                first_match(self.alloc, body, at)
            }
            Part::Assigned(body, list) => self.assigned(parts, body, list, is_last, depth - 1),
            _ => Err(refused(Reason::Outside, at)),
        }
    }

    /// `value[->least:most]`, or `value[=least:most]`, which differs in where it ends alone.
    #[cycle(sequences)]
    fn found(
        &mut self,
        parts: &mut Parts<'_>,
        value: ValueId,
        count: Count,
        is_goto: bool,
        at: usize,
        depth: usize,
    ) -> Result<Box<Sequence>, NotLowered> {
        if depth == 0 {
            return Err(refused(Reason::TooHeavy, at));
        }
        let condition = self.condition_elsewhere(parts, value, depth - 1)?;
        let Span { least, most } = self.span(count, at)?;
        let gap = self.open_end(at)?;
        if is_goto {
            return Ok(goto_repetition(self.alloc, condition, least, most, gap)?);
        }
        Ok(nonconsecutive_repetition(self.alloc, condition, least, most, gap)?)
    }

    /// A boolean that is read at ticks of which it isn't known when they are; afterwards it is one
    /// of them.
    #[cycle(sequences)]
    fn condition_elsewhere(
        &mut self,
        parts: &mut Parts<'_>,
        value: ValueId,
        depth: usize,
    ) -> Result<Condition, NotLowered> {
        if depth == 0 {
            return Err(refused(Reason::TooHeavy, 0));
        }
        self.now = self.elsewhere(self.now.last);
        self.condition(parts, value, depth - 1)
    }

    /// `body[*least:most]`.
    #[cycle(sequences)]
    fn repetition(
        &mut self,
        parts: &mut Parts<'_>,
        body: PartId,
        count: Count,
        at: usize,
        depth: usize,
    ) -> Result<Box<Sequence>, NotLowered> {
        if depth == 0 {
            return Err(refused(Reason::TooHeavy, at));
        }
        let span = self.span(count, at)?;
        if span.exactly() == Some(1) {
            return self.sequence(parts, body, false, depth - 1);
        }
        let start = self.now;
        let first = self.elsewhere(start.last);
        self.now = first;
        let body = self.sequence(parts, body, false, depth - 1)?;
        self.end_repetition(start, first, span);
        Ok(repeat(self.alloc, body, span)?)
    }

    /// `first within second` (IEEE 1800-2017, 16.9.10).
    #[cycle(sequences)]
    fn within(
        &mut self,
        parts: &mut Parts<'_>,
        first: PartId,
        second: PartId,
        at: usize,
        depth: usize,
    ) -> Result<Box<Sequence>, NotLowered> {
        if depth == 0 {
            return Err(refused(Reason::TooHeavy, at));
        }
        let start = self.now;
        self.now = self.elsewhere(start.last);
        let first = self.sequence(parts, first, false, depth - 1)?;
        let is_changed = self.now.last != start.last;
        self.now = start;
        let second = self.sequence(parts, second, false, depth - 1)?;
        if is_changed {
            self.now = self.elsewhere(None);
        }
        inside(self.alloc, first, second, at)
    }

    /// A sequence, and what is assigned where it ends (16.10).
    #[cycle(sequences)]
    fn assigned(
        &mut self,
        parts: &mut Parts<'_>,
        body: PartId,
        list: Assignments,
        is_last: bool,
        depth: usize,
    ) -> Result<Box<Sequence>, NotLowered> {
        if depth == 0 {
            return Err(refused(Reason::TooHeavy, 0));
        }
        let at = part_at(parts, body).at;
        let body = self.sequence(parts, body, is_last, depth - 1)?;
        if length_of(&body).least == 0 {
            return Err(refused(Reason::AdmitsEmpty, at));
        }
        for place in 0..list.count {
            if let Some(assignment) = parts.assignments.get(list.first.saturating_add(place)) {
                let local = assignment.local;
                let value = assignment.value;
                let written = self.written(parts, value, depth - 1)?;
                self.bind(local, written)?;
            }
        }
        Ok(body)
    }

    /// What `sequence.triggered` says now (16.13.6).
    #[cycle(sequences)]
    pub(crate) fn triggered(
        &mut self,
        parts: &mut Parts<'_>,
        part: PartId,
        at: usize,
        depth: usize,
    ) -> Result<ValueId, NotLowered> {
        if depth == 0 {
            return Err(refused(Reason::TooHeavy, at));
        }
        let before = self.now;
        let is_past = self.is_past;
        self.now = self.elsewhere(None);
        self.is_past = false;
        let sequence = self.sequence(parts, part, false, depth - 1)?;
        self.now = before;
        self.is_past = is_past;
        let ways = ways_of(self.alloc, &sequence)?;
        self.ended(parts, &ways, at)
    }
}

/// Whether it is `b[->n]` with one number, which has one end at most.
fn is_exact_goto(parts: &Parts<'_>, id: PartId) -> bool {
    match part_at(parts, id).part {
        Part::Goto(_, count) => count.most == Some(count.least),
        _ => false,
    }
}

/// `first within second`: where both have one length, `##[0:more] first and second`; else by its
/// definition, `(1[*0:$] ##1 first ##1 1[*0:$]) intersect second`.
fn inside(
    alloc: Global,
    first: Box<Sequence>,
    second: Box<Sequence>,
    at: usize,
) -> Result<Box<Sequence>, NotLowered> {
    let inner = length_of(&first);
    let outer = length_of(&second);
    if inner.least > outer.most {
        return Err(refused(Reason::Degenerate, at));
    }
    if let (Some(inner), Some(outer)) = (inner.exactly(), outer.exactly()) {
        if inner > 0 {
            let most = outer.saturating_sub(inner);
            let somewhere = lead(alloc, Span { least: 0, most }, first)?;
            return Ok(together(alloc, Joint::And, somewhere, second)?);
        }
    }
    match u8::try_from(outer.most) {
        Ok(most) => Ok(by_definition(alloc, first, second, most)?),
        Err(_) => Err(refused(Reason::TooHeavy, at)),
    }
}

/// `(1[*0:most] ##1 first ##1 1[*0:most]) intersect second`.
fn by_definition(
    alloc: Global,
    first: Box<Sequence>,
    second: Box<Sequence>,
    most: u8,
) -> Result<Box<Sequence>, AllocError> {
    let one = boolean(alloc, Condition::One)?;
    let after = repeat(alloc, one, Span { least: 0, most })?;
    let later = delay(alloc, first, Span { least: 1, most: 1 }, after)?;
    let around = waiting(alloc, Condition::One, most, later)?;
    together(alloc, Joint::Intersect, around, second)
}

/// The shortest delay after so many ticks at which a match may go on: after none, `##0` never
/// matches, and `##1` goes on at the same tick (IEEE 1800-2017, 16.9.2.1).
fn shortest(least: u8, ticks: u8) -> u8 {
    if ticks == 0 { least.max(1) } else { least }
}

/// `first_match(body)`, where its ends can be told: a body of one length; `##[m:n] b` at its end
/// after a part of one length; `b[*m:n]`.
fn first_match(alloc: Global, body: Box<Sequence>, at: usize) -> Result<Box<Sequence>, NotLowered> {
    let length = length_of(&body);
    if length.is_none() {
        return Err(refused(Reason::Degenerate, at));
    }
    if length.exactly().is_some() {
        return Ok(body);
    }
    match Box::into_inner(body) {
        Sequence::Lead(least, most, body) => match boolean_of(&body) {
            Some(condition) => {
                let found = first_of(alloc, condition, most.saturating_sub(least), body)?;
                Ok(lead(alloc, Span { least, most: least }, found)?)
            }
            None => Err(unfit(at)),
        },
        Sequence::Delay(first, least, most, second) => {
            match (boolean_of(&second), length_of(&first).exactly()) {
                (Some(condition), Some(ticks)) => {
                    let least = shortest(least, ticks);
                    let found = first_of(alloc, condition, most.saturating_sub(least), second)?;
                    Ok(delay(alloc, first, Span { least, most: least }, found)?)
                }
                _ => Err(unfit(at)),
            }
        }
        Sequence::Repeat(body, least, _) => match boolean_of(&body) {
            Some(_) if least > 0 => Ok(repeat(alloc, body, Span { least, most: least })?),
            _ => Err(unfit(at)),
        },
        _ => Err(unfit(at)),
    }
}

/// `!condition[*0:most] ##1 condition`.
fn first_of(
    alloc: Global,
    condition: Condition,
    most: u8,
    found: Box<Sequence>,
) -> Result<Box<Sequence>, AllocError> {
    waiting(alloc, condition.negation(), most, found)
}

fn unfit(at: usize) -> NotLowered {
    hinted(Reason::TooHeavy, at, Hint::EndsUntold)
}
