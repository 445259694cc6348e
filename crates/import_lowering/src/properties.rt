//! Properties of opened parts.

use crate::lowering::{Lowering, part_at, small};
use crate::measure::{HEAVIEST, length_of, weight_of};
use crate::nodes::{
    Arrow, Pair, Time, boolean, chosen, implication, is_constant, lead, negation, paired, plain,
    timed, truth, truth_of,
};
use crate::now::Span;
use crate::polarity::Polarity;
use crate::reason::{Hint, NotLowered, Reason, hinted, refused};
use crate::widening::are_widened_alone;
use import_elaboration::{Choice, ChoiceId, Count, Part, PartId, Parts, ValueId};
use import_properties::{Condition, Property, Sequence};
use std::alloc::{AllocError, Global};

impl Lowering {
    /// The property of a part that is asked now.
    #[cycle(properties)]
    pub(crate) fn property(
        &mut self,
        parts: &mut Parts<'_>,
        id: PartId,
        polarity: Polarity,
        depth: usize,
    ) -> Result<Box<Property>, NotLowered> {
        let node = part_at(parts, id);
        let at = node.at;
        if depth == 0 {
            return Err(refused(Reason::TooHeavy, at));
        }
        if node.is_sequence {
            return self.sequence_property(parts, id, at, depth - 1);
        }
        match node.part {
            Part::Strength(body) => self.property(parts, body, polarity, depth - 1),
            Part::Not(body) => {
                let body = self.property(parts, body, polarity.opposite(), depth - 1)?;
                Ok(negation(self.alloc, body)?)
            }
            Part::If(value, body) => {
                let condition = self.condition(parts, value, depth - 1)?;
                let body = self.property(parts, body, polarity, depth - 1)?;
                Ok(chosen(self.alloc, condition, body, None)?)
            }
            Part::IfElse(value, first, second) => {
                let condition = self.condition(parts, value, depth - 1)?;
                let start = self.now;
                let first = self.property(parts, first, polarity, depth - 1)?;
                self.now = start;
                let second = self.property(parts, second, polarity, depth - 1)?;
                Ok(chosen(self.alloc, condition, first, Some(second))?)
            }
            Part::Case(value, last) => self.cases(parts, value, last, polarity, at, depth - 1),
            other => self.implied(parts, other, polarity, at, depth - 1),
        }
    }

    /// A sequence as a property.
    fn sequence_property(
        &mut self,
        parts: &mut Parts<'_>,
        id: PartId,
        at: usize,
        depth: usize,
    ) -> Result<Box<Property>, NotLowered> {
        let Part::Lead(count, body) = part_at(parts, id).part else {
            let sequence = self.sequence(parts, id, true, depth)?;
            return whole(self.alloc, sequence, at);
        };
        let start = self.now;
        if !is_long(count) {
            let sequence = self.sequence(parts, id, true, depth)?;
            if count.least == 0 || weight_of(&sequence) <= HEAVIEST {
                return whole(self.alloc, sequence, at);
            }
        }
        self.now = start;
        self.delayed(parts, count, body, at, depth)
    }

    /// `##[least:most] body`, which is too heavy, as a property: its fixed delay is an antecedent,
    /// `##least 1 |-> ##[0:most-least] body`.
    fn delayed(
        &mut self,
        parts: &mut Parts<'_>,
        count: Count,
        body: PartId,
        at: usize,
        depth: usize,
    ) -> Result<Box<Property>, NotLowered> {
        let least = small(count.least, at)?;
        let most = match count.most {
            Some(most) => small(most.saturating_sub(count.least), at)?,
            None => self.span(count, at)?.most.saturating_sub(least),
        };
        self.pass(Span { least, most: least });
        self.pass(Span { least: 0, most });
        let body = self.sequence(parts, body, true, depth)?;
        if length_of(&body).least == 0 {
            return Err(refused(Reason::TooHeavy, at));
        }
        Ok(after_delay(self.alloc, least, most, body)?)
    }

    /// The same of `|->` and its like.
    #[cycle(properties)]
    fn implied(
        &mut self,
        parts: &mut Parts<'_>,
        part: Part,
        polarity: Polarity,
        at: usize,
        depth: usize,
    ) -> Result<Box<Property>, NotLowered> {
        if depth == 0 {
            return Err(refused(Reason::TooHeavy, at));
        }
        let Some((arrow, antecedent, body)) = arrow_of(part) else {
            return self.paired(parts, part, polarity, at, depth - 1);
        };
        let antecedent = self.sequence(parts, antecedent, false, depth - 1)?;
        if length_of(&antecedent).most == 0 {
            return Err(hinted(Reason::Degenerate, at, Hint::NoAntecedent));
        }
        if arrow == Arrow::Next || arrow == Arrow::NextFollowed {
            self.pass(Span { least: 1, most: 1 });
        }
        let body = self.property(parts, body, polarity, depth - 1)?;
        Ok(implication(self.alloc, arrow, antecedent, body)?)
    }

    /// The same of two properties that begin together.
    #[cycle(properties)]
    fn paired(
        &mut self,
        parts: &mut Parts<'_>,
        part: Part,
        polarity: Polarity,
        at: usize,
        depth: usize,
    ) -> Result<Box<Property>, NotLowered> {
        if depth == 0 {
            return Err(refused(Reason::TooHeavy, at));
        }
        let Some((pair, first, second)) = pair_of(part) else {
            return self.at_time(parts, part, polarity, at, depth - 1);
        };
        let start = self.now;
        let is_open = pair == Pair::Until || pair == Pair::UntilWith;
        if is_open {
            self.open_end(at)?;
            self.now = self.elsewhere(start.last);
        }
        let here = self.now;
        let (left, right) = polarities(pair, polarity);
        let first = self.property(parts, first, left, depth - 1)?;
        self.now = here;
        let second = self.property(parts, second, right, depth - 1)?;
        self.join(parts, pair, first, second, at)
    }

    /// Two properties that begin together; booleans are made one.
    fn join(
        &mut self,
        parts: &mut Parts<'_>,
        pair: Pair,
        first: Box<Property>,
        second: Box<Property>,
        at: usize,
    ) -> Result<Box<Property>, NotLowered> {
        let alloc = self.alloc;
        let one = truth_of(&first);
        if let (Some(one), Some(other)) = (one, truth_of(&second)) {
            if let Some(both) = self.joined_truths(parts, pair, one, other, at)? {
                return Ok(truth(alloc, both)?);
            }
        }
        match (pair, one) {
            (Pair::Implies, Some(condition)) => {
                let antecedent = boolean(alloc, condition)?;
                Ok(implication(alloc, Arrow::Overlapping, antecedent, second)?)
            }
            _ => Ok(paired(alloc, pair, first, second)?),
        }
    }

    /// The boolean that two booleans are joined to; none of `until`, and of constants.
    fn joined_truths(
        &mut self,
        parts: &mut Parts<'_>,
        pair: Pair,
        first: Condition,
        second: Condition,
        at: usize,
    ) -> Result<Option<Condition>, NotLowered> {
        if is_constant(first) || is_constant(second) {
            return Ok(None);
        }
        match pair {
            Pair::And => Ok(Some(self.both(parts, first, second, at)?)),
            Pair::Or => Ok(Some(self.either(parts, first, second, at)?)),
            Pair::Implies => Ok(Some(self.either(parts, first.negation(), second, at)?)),
            Pair::Iff => Ok(Some(self.alike(parts, first, second, at)?)),
            Pair::Until | Pair::UntilWith => Ok(None),
        }
    }

    /// The same of properties that are asked at other ticks.
    #[cycle(properties)]
    fn at_time(
        &mut self,
        parts: &mut Parts<'_>,
        part: Part,
        polarity: Polarity,
        at: usize,
        depth: usize,
    ) -> Result<Box<Property>, NotLowered> {
        if depth == 0 {
            return Err(refused(Reason::TooHeavy, at));
        }
        let (time, body) = match part {
            Part::Next(count, body) => (Time::Next(small(count, at)?), body),
            Part::Always(count, body) => {
                let span = self.always_span(count, polarity, at)?;
                (Time::Always(span), body)
            }
            Part::Eventually(count, body) => {
                let span = self.eventually_span(count, polarity, at)?;
                (Time::Eventually(span), body)
            }
            _ => return Err(refused(Reason::Outside, at)),
        };
        self.pass(ticks_of(time));
        let body = self.property(parts, body, polarity, depth - 1)?;
        Ok(timed(self.alloc, time, body)?)
    }

    /// The ticks of `always`, which has to have an end unless it is negated.
    fn always_span(
        &mut self,
        count: Option<Count>,
        polarity: Polarity,
        at: usize,
    ) -> Result<Span, NotLowered> {
        let count = count.unwrap_or(ENDLESS);
        if count.most.is_none() && polarity != Polarity::Negated {
            return Err(hinted(Reason::Always, at, Hint::BoundedAlways));
        }
        self.span(count, at)
    }

    /// The ticks of `eventually`, which has to have an end where it is negated.
    fn eventually_span(
        &mut self,
        count: Option<Count>,
        polarity: Polarity,
        at: usize,
    ) -> Result<Span, NotLowered> {
        let count = count.unwrap_or(ENDLESS);
        if count.most.is_none() && polarity != Polarity::Kept {
            return Err(hinted(Reason::Always, at, Hint::NegateAlone));
        }
        self.span(count, at)
    }

    /// `case`, by `if` and `else`; the default is for what no item takes (16.12.16).
    #[cycle(properties)]
    fn cases(
        &mut self,
        parts: &mut Parts<'_>,
        value: ValueId,
        last: Option<ChoiceId>,
        polarity: Polarity,
        at: usize,
        depth: usize,
    ) -> Result<Box<Property>, NotLowered> {
        if depth == 0 {
            return Err(refused(Reason::TooHeavy, at));
        }
        if !are_widened_alone(parts, value, last) {
            return Err(hinted(Reason::Width, at, Hint::CaseWidths));
        }
        let start = self.now;
        let value = self.written(parts, value, depth - 1)?;
        let mut rest = match default_of(parts, last) {
            Some(body) => Some(self.property(parts, body, polarity, depth - 1)?),
            None => None,
        };
        let mut next = last;
        for _ in 0..parts.choices.len() {
            let Some(choice) = choice_at(parts, next) else {
                break;
            };
            next = choice.before;
            if let Some(values) = choice.values {
                self.now = start;
                let condition = self.is_one_of(parts, value, values, at, depth - 1)?;
                let body = self.property(parts, choice.body, polarity, depth - 1)?;
                rest = Some(chosen(self.alloc, condition, body, rest)?);
            }
        }
        rest.ok_or(refused(Reason::Outside, at))
    }
}

/// An antecedent and what is asked at its ends, if a part has these.
fn arrow_of(part: Part) -> Option<(Arrow, PartId, PartId)> {
    match part {
        Part::Implication(first, body) => Some((Arrow::Overlapping, first, body)),
        Part::NextImplication(first, body) => Some((Arrow::Next, first, body)),
        Part::FollowedBy(first, body) => Some((Arrow::Followed, first, body)),
        Part::NextFollowedBy(first, body) => Some((Arrow::NextFollowed, first, body)),
        _ => None,
    }
}

/// Two properties that begin together, if a part has these.
fn pair_of(part: Part) -> Option<(Pair, PartId, PartId)> {
    match part {
        Part::And(first, second) => Some((Pair::And, first, second)),
        Part::Or(first, second) => Some((Pair::Or, first, second)),
        Part::Implies(first, second) => Some((Pair::Implies, first, second)),
        Part::Iff(first, second) => Some((Pair::Iff, first, second)),
        Part::Until(first, second) => Some((Pair::Until, first, second)),
        Part::UntilWith(first, second) => Some((Pair::UntilWith, first, second)),
        _ => None,
    }
}

/// Whether the two properties of a pair are kept or negated.
fn polarities(pair: Pair, polarity: Polarity) -> (Polarity, Polarity) {
    match pair {
        Pair::Implies => (polarity.opposite(), polarity),
        Pair::Iff => (Polarity::Both, Polarity::Both),
        _ => (polarity, polarity),
    }
}

/// From this tick on.
const ENDLESS: Count = Count {
    least: 0,
    most: None,
};

/// Whether a bound is over the profile's largest, which the fixed delay may be taken from.
fn is_long(count: Count) -> bool {
    match count.most {
        Some(most) => most > 127 && count.least > 0,
        None => false,
    }
}

/// A sequence as a property, where it may match a tick or more.
fn whole(alloc: Global, sequence: Box<Sequence>, at: usize) -> Result<Box<Property>, NotLowered> {
    if length_of(&sequence).most == 0 {
        return Err(refused(Reason::Degenerate, at));
    }
    Ok(plain(alloc, sequence)?)
}

/// When a property is asked, in ticks from now.
fn ticks_of(time: Time) -> Span {
    match time {
        Time::Next(count) => Span {
            least: count,
            most: count,
        },
        Time::Always(span) | Time::Eventually(span) => span,
    }
}

/// `##least 1 |-> ##[0:more] body`.
fn after_delay(
    alloc: Global,
    least: u8,
    more: u8,
    body: Box<Sequence>,
) -> Result<Box<Property>, AllocError> {
    let one = boolean(alloc, Condition::One)?;
    let most = least;
    let waited = lead(alloc, Span { least, most }, one)?;
    let body = lead(
        alloc,
        Span {
            least: 0,
            most: more,
        },
        body,
    )?;
    let body = plain(alloc, body)?;
    implication(alloc, Arrow::Overlapping, waited, body)
}

/// An item of a `case`, by its place.
pub(crate) fn choice_at(parts: &Parts<'_>, id: Option<ChoiceId>) -> Option<Choice> {
    let id = id?;
    match parts.choices.get(id.0) {
        Some(choice) => Some(*choice),
        None => None,
    }
}

/// The body of the default of a `case`, if it has one.
fn default_of(parts: &Parts<'_>, last: Option<ChoiceId>) -> Option<PartId> {
    let mut next = last;
    for _ in 0..parts.choices.len() {
        let choice = choice_at(parts, next)?;
        if choice.values.is_none() {
            return Some(choice.body);
        }
        next = choice.before;
    }
    None
}
