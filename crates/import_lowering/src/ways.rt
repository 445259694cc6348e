//! The ways in which a sequence may match, one by one.

use crate::now::Span;
use crate::reason::{NotLowered, Reason, refused};
use import_properties::{Condition, Sequence};
use std::alloc::Global;

/// How many ways a sequence may have.
const MOST_WAYS: usize = 64;

/// How many booleans all ways may have together.
const MOST_MARKS: usize = 4_096;

/// A boolean that has to be true, so many ticks after the first one.
#[derive(Clone, Copy)]
pub(crate) struct Mark {
    pub tick: usize,
    pub condition: Condition,
}

/// A way to match: its marks, which stand in a row, and how many ticks it takes.
#[derive(Clone, Copy)]
pub(crate) struct Way {
    pub first: usize,
    pub count: usize,
    pub length: usize,
}

/// All ways of a sequence.
#[derive(Drop)]
pub(crate) struct Ways {
    pub ways: Vec<Way>,
    pub marks: Vec<Mark>,
}

/// Two ways that are joined: where the second begins in the first, and how long both are.
#[derive(Clone, Copy)]
struct Fit {
    shift: usize,
    length: usize,
}

impl Ways {
    fn new(alloc: Global) -> Ways {
        Ways {
            ways: Vec::new(alloc),
            marks: Vec::new(alloc),
        }
    }

    /// The one way that takes no tick.
    fn empty(alloc: Global) -> Result<Ways, NotLowered> {
        let mut ways = Ways::new(alloc);
        ways.end_way(0, 0)?;
        Ok(ways)
    }

    /// Whether a boolean is looked at in the first tick of a way.
    pub(crate) fn has_first(&self, way: Way) -> bool {
        for place in way.first..way.first.saturating_add(way.count) {
            if let Some(mark) = self.marks.get(place) {
                if mark.tick == 0 {
                    return true;
                }
            }
        }
        false
    }

    /// Ends a way whose marks begin at a place.
    fn end_way(&mut self, first: usize, length: usize) -> Result<(), NotLowered> {
        if self.ways.len() >= MOST_WAYS || self.marks.len() > MOST_MARKS {
            return Err(refused(Reason::TooHeavy, 0));
        }
        let count = self.marks.len().saturating_sub(first);
        self.ways.push(Way {
            first,
            count,
            length,
        })?;
        Ok(())
    }

    /// Adds the marks of a way, so many ticks later.
    fn add_marks(&mut self, from: &Ways, way: Way, shift: usize) -> Result<(), NotLowered> {
        for place in 0..way.count {
            if let Some(mark) = from.marks.get(way.first.saturating_add(place)) {
                let tick = mark.tick.saturating_add(shift);
                let condition = mark.condition;
                self.marks.push(Mark { tick, condition })?;
            }
        }
        Ok(())
    }

    /// Adds all ways of another one.
    fn add_all(&mut self, other: &Ways) -> Result<(), NotLowered> {
        for way in other.ways.iter() {
            let first = self.marks.len();
            self.add_marks(other, *way, 0)?;
            self.end_way(first, way.length)?;
        }
        Ok(())
    }

    /// Adds a way of one, joined to each of the other that fits.
    fn add_joined(
        &mut self,
        from: &Ways,
        way: Way,
        other: &Ways,
        joint: Joint,
    ) -> Result<(), NotLowered> {
        for second in other.ways.iter() {
            if let Some(fit) = fit_of(way.length, second.length, joint) {
                let first = self.marks.len();
                self.add_marks(from, way, 0)?;
                self.add_marks(other, *second, fit.shift)?;
                self.end_way(first, fit.length)?;
            }
        }
        Ok(())
    }

    /// Adds all ways of one, joined to all of the other.
    fn add_product(&mut self, one: &Ways, other: &Ways, joint: Joint) -> Result<(), NotLowered> {
        for way in one.ways.iter() {
            self.add_joined(one, *way, other, joint)?;
        }
        Ok(())
    }

    /// Adds a boolean at each tick of a way.
    fn add_held(&mut self, from: &Ways, way: Way, condition: Condition) -> Result<(), NotLowered> {
        let first = self.marks.len();
        self.add_marks(from, way, 0)?;
        for tick in 0..way.length {
            self.marks.push(Mark { tick, condition })?;
        }
        self.end_way(first, way.length)
    }
}

/// How a way follows on another one, or stands beside it.
#[derive(Clone, Copy)]
enum Joint {
    /// It begins so many ticks after the last tick.
    After(usize),
    Beside,
    /// It has to end at the same tick.
    Same,
}

/// Where a way of one length begins in another one, and how long both are.
fn fit_of(first: usize, second: usize, joint: Joint) -> Option<Fit> {
    match joint {
        Joint::After(count) => {
            if count == 0 && (first == 0 || second == 0) {
                return None;
            }
            let shift = first.saturating_add(count).saturating_sub(1);
            let length = shift.saturating_add(second);
            Some(Fit { shift, length })
        }
        Joint::Beside => Some(Fit {
            shift: 0,
            length: first.max(second),
        }),
        Joint::Same if first == second => Some(Fit {
            shift: 0,
            length: first,
        }),
        Joint::Same => None,
    }
}

/// The ways of a sequence; at most 64, each of at most 127 ticks.
pub(crate) fn ways_of(alloc: Global, sequence: &Sequence) -> Result<Ways, NotLowered> {
    match sequence {
        Sequence::Boolean(condition) => boolean(alloc, *condition),
        Sequence::Delay(first, least, most, second) => {
            let first = ways_of(alloc, first)?;
            let second = ways_of(alloc, second)?;
            let (least, most) = (*least, *most);
            delayed(alloc, &first, Span { least, most }, &second)
        }
        Sequence::Lead(least, most, body) => {
            let body = ways_of(alloc, body)?;
            let tick = tick_of(alloc)?;
            let (least, most) = (*least, *most);
            delayed(alloc, &tick, Span { least, most }, &body)
        }
        Sequence::Repeat(body, least, most) => {
            let body = ways_of(alloc, body)?;
            repeated(alloc, &body, *least, *most)
        }
        Sequence::Or(first, second) => {
            let mut ways = ways_of(alloc, first)?;
            let second = ways_of(alloc, second)?;
            ways.add_all(&second)?;
            Ok(ways)
        }
        Sequence::And(first, second) => {
            let first = ways_of(alloc, first)?;
            let second = ways_of(alloc, second)?;
            joined(alloc, &first, &second, Joint::Beside)
        }
        Sequence::Intersect(first, second) => {
            let first = ways_of(alloc, first)?;
            let second = ways_of(alloc, second)?;
            joined(alloc, &first, &second, Joint::Same)
        }
        Sequence::Throughout(condition, body) => {
            let body = ways_of(alloc, body)?;
            held(alloc, &body, *condition)
        }
    }
}

/// The way of a boolean.
fn boolean(alloc: Global, condition: Condition) -> Result<Ways, NotLowered> {
    let mut ways = Ways::new(alloc);
    ways.marks.push(Mark { tick: 0, condition })?;
    ways.end_way(0, 1)?;
    Ok(ways)
}

/// The way of the constant 1, without a mark.
fn tick_of(alloc: Global) -> Result<Ways, NotLowered> {
    let mut ways = Ways::new(alloc);
    ways.end_way(0, 1)?;
    Ok(ways)
}

/// The ways of two sequences that begin together.
fn joined(alloc: Global, first: &Ways, second: &Ways, joint: Joint) -> Result<Ways, NotLowered> {
    let mut ways = Ways::new(alloc);
    ways.add_product(first, second, joint)?;
    Ok(ways)
}

/// The ways of `first ##[least:most] second`.
fn delayed(alloc: Global, first: &Ways, span: Span, second: &Ways) -> Result<Ways, NotLowered> {
    let mut ways = Ways::new(alloc);
    let end = usize::from(span.most).saturating_add(1);
    for count in usize::from(span.least)..end {
        ways.add_product(first, second, Joint::After(count))?;
    }
    Ok(ways)
}

/// The ways of `body[*least:most]`.
fn repeated(alloc: Global, body: &Ways, least: u8, most: u8) -> Result<Ways, NotLowered> {
    let mut all = Ways::new(alloc);
    let mut reached = Ways::empty(alloc)?;
    for count in 0..most {
        if count >= least {
            all.add_all(&reached)?;
        }
        let mut next = Ways::new(alloc);
        next.add_product(&reached, body, Joint::After(1))?;
        reached = next;
    }
    all.add_all(&reached)?;
    Ok(all)
}

/// The ways of `condition throughout body`.
fn held(alloc: Global, body: &Ways, condition: Condition) -> Result<Ways, NotLowered> {
    let mut ways = Ways::new(alloc);
    for way in body.ways.iter() {
        ways.add_held(body, *way, condition)?;
    }
    Ok(ways)
}
