//! What is known while an assertion is made a property.

use crate::chains::Link;
use crate::now::{Binding, BindingId, Now, Span};
use crate::reason::{Hint, NotLowered, Reason, hinted, refused};
use import_elaboration::{
    Count, Part, PartId, PartNode, Parts, Value, ValueId, ValueList, ValueNode,
};
use import_properties::Condition;
use import_trees::{Infix, Number, Prefix};
use std::alloc::{AllocError, Global};

/// How many values may be made for an assertion.
const MOST_MADE: usize = 100_000;

/// How many delays may be written out for an assertion; each weighs 2 or more, of 127.
const MOST_WAYS: usize = 127;

/// The largest bound of the profile.
const LARGEST: u32 = 127;

/// What is known while an assertion is made a property.
#[derive(Drop)]
pub(crate) struct Lowering {
    pub(crate) alloc: Global,
    /// How many ticks an open end stands for, where that is given.
    bound: Option<u8>,
    /// Whether the bound was used.
    pub(crate) bounded: bool,
    /// Whether what is read is worked out at another tick, too, as under `$past`.
    pub(crate) is_past: bool,
    /// The tick at which the next part begins.
    pub(crate) now: Now,
    /// How many ticks were counted from.
    origins: usize,
    bindings: Vec<Binding>,
    /// What stands in lists that are not at their end.
    pub(crate) pending: Vec<ValueId>,
    /// The links of chains that are being written out.
    pub(crate) links: Vec<Link>,
    /// How many values may still be made.
    left: usize,
    /// How many delays may still be written out.
    ways: usize,
}

impl Lowering {
    /// Nothing is known yet but the bound.
    pub(crate) fn new(alloc: Global, bound: Option<u8>) -> Lowering {
        Lowering {
            alloc,
            bound,
            bounded: false,
            is_past: false,
            now: Now {
                origin: 0,
                tick: 0,
                last: None,
            },
            origins: 0,
            bindings: Vec::new(alloc),
            pending: Vec::new(alloc),
            links: Vec::new(alloc),
            left: MOST_MADE,
            ways: MOST_WAYS,
        }
    }

    /// The bound, which is then used.
    pub(crate) fn open_end(&mut self, at: usize) -> Result<u8, NotLowered> {
        match self.bound {
            Some(bound) => {
                self.bounded = true;
                Ok(bound)
            }
            None => Err(hinted(Reason::NeedsBound, at, Hint::GiveBound)),
        }
    }

    /// `[least:most]`, with the bound where no end is written.
    pub(crate) fn span(&mut self, count: Count, at: usize) -> Result<Span, NotLowered> {
        let least = small(count.least, at)?;
        let most = match count.most {
            Some(most) => small(most, at)?,
            None => self.open_end(at)?,
        };
        if most < least {
            return Err(hinted(Reason::BadBound, at, Hint::BoundBelow));
        }
        Ok(Span { least, most })
    }

    /// A tick of which it isn't known how far it is from others.
    pub(crate) fn elsewhere(&mut self, last: Option<BindingId>) -> Now {
        self.origins = self.origins.saturating_add(1);
        Now {
            origin: self.origins,
            tick: 0,
            last,
        }
    }

    /// Goes on by so many ticks.
    pub(crate) fn pass(&mut self, span: Span) {
        match span.exactly() {
            Some(count) => self.now.tick = self.now.tick.saturating_add(usize::from(count)),
            None => self.now = self.elsewhere(self.now.last),
        }
    }

    /// Goes to so many ticks after another one.
    pub(crate) fn pass_ticks(&mut self, start: Now, count: u8) {
        self.now = Now {
            origin: start.origin,
            tick: start.tick.saturating_add(usize::from(count)),
            last: start.last,
        };
    }

    /// Notes that one more delay is written out.
    pub(crate) fn spend_way(&mut self, at: usize) -> Result<(), NotLowered> {
        if self.ways == 0 {
            return Err(refused(Reason::TooHeavy, at));
        }
        self.ways = self.ways.saturating_sub(1);
        Ok(())
    }

    /// Goes to where two parts have ended that began together, of which one ended at `end` and the
    /// other now: at the later of the two, or where one of them is and it isn't known which.
    pub(crate) fn meet(&mut self, end: Now, at_later: bool) {
        if end.last != self.now.last {
            self.now = self.elsewhere(None);
        } else if end.origin != self.now.origin {
            self.now = self.elsewhere(end.last);
        } else if at_later {
            self.now.tick = self.now.tick.max(end.tick);
        } else if end.tick != self.now.tick {
            self.now = self.elsewhere(end.last);
        }
    }

    /// Goes to the end of a repetition that began at `start`, whose body was looked at from `first`
    /// on until now.
    pub(crate) fn end_repetition(&mut self, start: Now, first: Now, span: Span) {
        let end = self.now;
        if span.least == 0 {
            let last = if end.last == first.last {
                start.last
            } else {
                None
            };
            self.now = self.elsewhere(last);
            return;
        }
        let Some(count) = span.exactly() else {
            return;
        };
        if end.origin == first.origin && end.last == first.last {
            let length = end.tick.saturating_sub(first.tick).saturating_add(1);
            let all = length.saturating_mul(usize::from(count));
            self.now = Now {
                origin: start.origin,
                tick: start.tick.saturating_add(all).saturating_sub(1),
                last: start.last,
            };
        }
    }

    /// Notes that a local variable has a value from now on.
    pub(crate) fn bind(&mut self, local: usize, value: ValueId) -> Result<(), AllocError> {
        let place = self.bindings.len();
        self.bindings.push(Binding {
            local,
            value,
            origin: self.now.origin,
            tick: self.now.tick,
            before: self.now.last,
        })?;
        self.now.last = Some(BindingId(place));
        Ok(())
    }

    /// The last assignment to a local variable.
    fn binding_of(&self, local: usize) -> Option<Binding> {
        let mut next = self.now.last?;
        for _ in 0..self.bindings.len() {
            let binding = *self.bindings.get(next.0)?;
            if binding.local == local {
                return Some(binding);
            }
            next = binding.before?;
        }
        None
    }

    /// What a local variable holds now: what it was given, so many ticks ago. What it held at
    /// another tick, no text says (IEEE 1800-2017, 16.5.1, 16.10).
    pub(crate) fn local_value(
        &mut self,
        parts: &mut Parts<'_>,
        local: usize,
        at: usize,
    ) -> Result<ValueId, NotLowered> {
        if self.is_past {
            return Err(hinted(Reason::LocalVar, at, Hint::NoPast));
        }
        match self.binding_of(local) {
            Some(binding) if binding.origin == self.now.origin => {
                let age = self.now.tick.saturating_sub(binding.tick);
                self.past(parts, binding.value, age, at)
            }
            Some(_) => Err(hinted(Reason::LocalVar, at, Hint::AgeDiffers)),
            None => Err(hinted(Reason::LocalVar, at, Hint::NoValue)),
        }
    }

    /// What a value was so many ticks ago, with its own width.
    pub(crate) fn past(
        &mut self,
        parts: &mut Parts<'_>,
        value: ValueId,
        age: usize,
        at: usize,
    ) -> Result<ValueId, NotLowered> {
        let first = parts.listed.len();
        if age == 0 {
            parts.listed.push(value)?;
            let list = ValueList { first, count: 1 };
            return self.push(parts, Value::Concatenation(list), at);
        }
        let age = self.push(parts, number(age), at)?;
        parts.listed.push(value)?;
        parts.listed.push(age)?;
        let list = ValueList { first, count: 2 };
        self.push(parts, Value::System(b"$past", list), at)
    }

    /// A new value.
    pub(crate) fn push<'t>(
        &mut self,
        parts: &mut Parts<'t>,
        value: Value<'t>,
        at: usize,
    ) -> Result<ValueId, NotLowered> {
        if self.left == 0 {
            return Err(refused(Reason::TooHeavy, at));
        }
        self.left = self.left.saturating_sub(1);
        let place = parts.values.len();
        parts.values.push(ValueNode { value, at })?;
        Ok(ValueId(place))
    }

    /// The value that a boolean is.
    pub(crate) fn value_of(
        &mut self,
        parts: &mut Parts<'_>,
        condition: Condition,
        at: usize,
    ) -> Result<ValueId, NotLowered> {
        match condition {
            Condition::One => self.push(parts, bit(true), at),
            Condition::Zero => self.push(parts, bit(false), at),
            Condition::Leaf(place) => Ok(ValueId(place)),
            Condition::Negated(place) => {
                self.push(parts, Value::Prefix(Prefix::Not, ValueId(place)), at)
            }
        }
    }

    /// A new boolean of two.
    pub(crate) fn joined(
        &mut self,
        parts: &mut Parts<'_>,
        operator: Infix,
        first: Condition,
        second: Condition,
        at: usize,
    ) -> Result<Condition, NotLowered> {
        let first = self.value_of(parts, first, at)?;
        let second = self.value_of(parts, second, at)?;
        let both = self.push(parts, Value::Infix(operator, first, second), at)?;
        Ok(Condition::Leaf(both.0))
    }

    /// Both of two booleans.
    pub(crate) fn both(
        &mut self,
        parts: &mut Parts<'_>,
        first: Condition,
        second: Condition,
        at: usize,
    ) -> Result<Condition, NotLowered> {
        match (first, second) {
            (Condition::Zero, _) | (_, Condition::Zero) => Ok(Condition::Zero),
            (Condition::One, other) | (other, Condition::One) => Ok(other),
            _ => self.joined(parts, Infix::And, first, second, at),
        }
    }

    /// One of two booleans.
    pub(crate) fn either(
        &mut self,
        parts: &mut Parts<'_>,
        first: Condition,
        second: Condition,
        at: usize,
    ) -> Result<Condition, NotLowered> {
        match (first, second) {
            (Condition::One, _) | (_, Condition::One) => Ok(Condition::One),
            (Condition::Zero, other) | (other, Condition::Zero) => Ok(other),
            _ => self.joined(parts, Infix::Or, first, second, at),
        }
    }

    /// That two booleans are both true or both false; their leaves may be wider than a bit.
    pub(crate) fn alike(
        &mut self,
        parts: &mut Parts<'_>,
        first: Condition,
        second: Condition,
        at: usize,
    ) -> Result<Condition, NotLowered> {
        match (first, second) {
            (Condition::One, other) | (other, Condition::One) => Ok(other),
            (Condition::Zero, other) | (other, Condition::Zero) => Ok(other.negation()),
            (Condition::Leaf(a), Condition::Leaf(b))
            | (Condition::Negated(a), Condition::Negated(b)) => {
                self.compared(parts, Infix::Equal, a, b, at)
            }
            (Condition::Leaf(a), Condition::Negated(b))
            | (Condition::Negated(a), Condition::Leaf(b)) => {
                self.compared(parts, Infix::NotEqual, a, b, at)
            }
        }
    }

    /// A comparison of the negations of two leaves.
    fn compared(
        &mut self,
        parts: &mut Parts<'_>,
        operator: Infix,
        first: usize,
        second: usize,
        at: usize,
    ) -> Result<Condition, NotLowered> {
        let first = Condition::Negated(first);
        self.joined(parts, operator, first, Condition::Negated(second), at)
    }
}

/// A bound, where it is no larger than the profile's.
pub(crate) fn small(number: u32, at: usize) -> Result<u8, NotLowered> {
    match u8::try_from(number) {
        Ok(small) if number <= LARGEST => Ok(small),
        _ => Err(hinted(Reason::BadBound, at, Hint::BoundOver127)),
    }
}

/// A number of 32 bits and a sign.
fn number(value: usize) -> Value<'static> {
    Value::Number(Number {
        width: 32,
        value: value as u128,
        unknown: 0,
        signed: true,
        sized: false,
    })
}

/// A number of one bit.
fn bit(value: bool) -> Value<'static> {
    Value::Number(Number {
        width: 1,
        value: if value { 1 } else { 0 },
        unknown: 0,
        signed: false,
        sized: true,
    })
}

/// The boolean that a value is: a leaf, or the negation of one, or a constant.
pub(crate) fn condition_in(parts: &Parts<'_>, id: ValueId) -> Condition {
    let mut at = id;
    let mut is_negated = false;
    for _ in 0..parts.values.len() {
        match value_at(parts, at) {
            Value::Prefix(Prefix::Not, operand) => {
                is_negated = !is_negated;
                at = operand;
            }
            Value::Number(number) if number.unknown == 0 => {
                return constant((number.value != 0) != is_negated);
            }
            Value::Fill(bit) => return constant(bit != is_negated),
            _ => break,
        }
    }
    if is_negated {
        Condition::Negated(at.0)
    } else {
        Condition::Leaf(at.0)
    }
}

fn constant(value: bool) -> Condition {
    if value {
        Condition::One
    } else {
        Condition::Zero
    }
}

/// A value by its place.
pub(crate) fn value_at<'t>(parts: &Parts<'t>, id: ValueId) -> Value<'t> {
    match parts.values.get(id.0) {
        Some(node) => node.value,
        None => Value::Missing,
    }
}

/// A part by its place.
pub(crate) fn part_at(parts: &Parts<'_>, id: PartId) -> PartNode {
    match parts.parts.get(id.0) {
        Some(node) => *node,
        None => PartNode {
            part: Part::Boolean(ValueId(usize::MAX)),
            is_sequence: true,
            at: 0,
        },
    }
}
