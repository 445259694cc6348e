//! Chains of delays.
//!
//! A delay of a range is `##[m:n] s`. Where `s`, or what follows it, reads a local variable that
//! was assigned before, its age differs from delay to delay, and the range is written out:
//! `##m (s or ##1 (s or ..))`, each `s` with an age of its own.

use crate::lowering::{Lowering, part_at};
use crate::measure::length_of;
use crate::nodes::{Joint, delay, lead, together};
use crate::now::Span;
use crate::reason::{Hint, NotLowered, Reason, refused};
use import_elaboration::{Count, Part, PartId, Parts};
use import_properties::Sequence;

/// A part of a chain, so many ticks after the end of the one before it.
#[derive(Clone, Copy)]
pub(crate) struct Link {
    count: Count,
    part: PartId,
    at: usize,
}

const NEXT: Span = Span { least: 1, most: 1 };

impl Lowering {
    /// A part that is a chain, `##[m:n] s` or `r ##[m:n] s`.
    #[cycle(sequences)]
    pub(crate) fn chain(
        &mut self,
        parts: &mut Parts<'_>,
        id: PartId,
        is_last: bool,
        depth: usize,
    ) -> Result<Box<Sequence>, NotLowered> {
        let at = part_at(parts, id).at;
        if depth == 0 {
            return Err(refused(Reason::TooHeavy, at));
        }
        let start = self.now;
        match self.plain_chain(parts, id, is_last, depth - 1) {
            Ok(sequence) => Ok(sequence),
            Err(fault) => {
                if fault.hint != Some(Hint::AgeDiffers) {
                    return Err(fault);
                }
                self.now = start;
                self.unrolled(parts, id, is_last, at, depth - 1)
            }
        }
    }

    /// The same with its ranges as they are.
    #[cycle(sequences)]
    fn plain_chain(
        &mut self,
        parts: &mut Parts<'_>,
        id: PartId,
        is_last: bool,
        depth: usize,
    ) -> Result<Box<Sequence>, NotLowered> {
        let node = part_at(parts, id);
        let at = node.at;
        if depth == 0 {
            return Err(refused(Reason::TooHeavy, at));
        }
        match node.part {
            Part::Lead(count, body) => {
                let span = self.span(count, at)?;
                self.pass(span);
                let body = self.sequence(parts, body, is_last, depth - 1)?;
                Ok(lead(self.alloc, span, body)?)
            }
            Part::Delay(first, count, second) => {
                let first = self.sequence(parts, first, false, depth - 1)?;
                let span = self.span(count, at)?;
                self.pass(span);
                let second = self.sequence(parts, second, is_last, depth - 1)?;
                Ok(delay(self.alloc, first, span, second)?)
            }
            _ => Err(refused(Reason::Outside, at)),
        }
    }

    /// The same with its ranges written out.
    #[cycle(sequences)]
    fn unrolled(
        &mut self,
        parts: &mut Parts<'_>,
        id: PartId,
        is_last: bool,
        at: usize,
        depth: usize,
    ) -> Result<Box<Sequence>, NotLowered> {
        if depth == 0 {
            return Err(refused(Reason::TooHeavy, at));
        }
        self.spend_way(at)?;
        let last = self.now.last;
        let end = self.links.len();
        let first = self.take_links(parts, id)?;
        let chain = self.linked(parts, first, end, is_last, depth - 1)?;
        self.links.truncate(end);
        let kept = if self.now.last == last { last } else { None };
        self.now = self.elsewhere(kept);
        Ok(chain)
    }

    /// Adds the links of a chain, the last of them first, and gives what stands before them.
    fn take_links(&mut self, parts: &Parts<'_>, id: PartId) -> Result<Option<PartId>, NotLowered> {
        let mut next = id;
        for _ in 0..parts.parts.len() {
            let node = part_at(parts, next);
            let at = node.at;
            match node.part {
                Part::Delay(first, count, part) => {
                    self.links.push(Link { count, part, at })?;
                    next = first;
                }
                Part::Lead(count, part) => {
                    self.links.push(Link { count, part, at })?;
                    return Ok(None);
                }
                _ => break,
            }
        }
        Ok(Some(next))
    }

    /// A part, and all links after it down to a place.
    #[cycle(sequences)]
    fn linked(
        &mut self,
        parts: &mut Parts<'_>,
        first: Option<PartId>,
        end: usize,
        is_last: bool,
        depth: usize,
    ) -> Result<Box<Sequence>, NotLowered> {
        if depth == 0 {
            return Err(refused(Reason::TooHeavy, 0));
        }
        let place = self.links.len();
        match first {
            Some(part) => self.after(parts, part, place, end, is_last, depth - 1),
            None => {
                let least = self.least_of(place)?;
                let body = self.link(parts, place, end, is_last, depth - 1)?;
                if least.most == 0 && length_of(&body).least > 0 {
                    return Ok(body);
                }
                Ok(lead(self.alloc, least, body)?)
            }
        }
    }

    /// A part, and the links after it from below one place down to another.
    #[cycle(sequences)]
    fn after(
        &mut self,
        parts: &mut Parts<'_>,
        part: PartId,
        place: usize,
        end: usize,
        is_last: bool,
        depth: usize,
    ) -> Result<Box<Sequence>, NotLowered> {
        if depth == 0 {
            return Err(refused(Reason::TooHeavy, 0));
        }
        if place <= end {
            return self.sequence(parts, part, is_last, depth - 1);
        }
        let first = self.sequence(parts, part, false, depth - 1)?;
        let least = self.least_of(place)?;
        let body = self.link(parts, place, end, is_last, depth - 1)?;
        Ok(delay(self.alloc, first, least, body)?)
    }

    /// The shortest delay of the link below a place.
    fn least_of(&mut self, place: usize) -> Result<Span, NotLowered> {
        match self.links.get(place.saturating_sub(1)) {
            Some(link) => {
                let link = *link;
                let span = self.span(link.count, link.at)?;
                let least = span.least;
                Ok(Span { least, most: least })
            }
            None => Err(refused(Reason::Outside, 0)),
        }
    }

    /// What follows the shortest delay of the link below a place: its part, or that so many ticks
    /// later.
    #[cycle(sequences)]
    fn link(
        &mut self,
        parts: &mut Parts<'_>,
        place: usize,
        end: usize,
        is_last: bool,
        depth: usize,
    ) -> Result<Box<Sequence>, NotLowered> {
        if depth == 0 {
            return Err(refused(Reason::TooHeavy, 0));
        }
        let below = place.saturating_sub(1);
        let Some(link) = self.link_at(below) else {
            return Err(refused(Reason::Outside, 0));
        };
        let span = self.span(link.count, link.at)?;
        let start = self.now;
        self.pass_ticks(start, span.most);
        let mut chain = self.after(parts, link.part, below, end, is_last, depth - 1)?;
        for more in span.least..span.most {
            self.spend_way(link.at)?;
            let shorter = more.saturating_sub(span.least).saturating_add(1);
            let earlier = span.most.saturating_sub(shorter);
            self.pass_ticks(start, earlier);
            let here = self.after(parts, link.part, below, end, is_last, depth - 1)?;
            let later = lead(self.alloc, NEXT, chain)?;
            chain = together(self.alloc, Joint::Or, here, later)?;
        }
        Ok(chain)
    }

    fn link_at(&self, place: usize) -> Option<Link> {
        match self.links.get(place) {
            Some(link) => Some(*link),
            None => None,
        }
    }
}
