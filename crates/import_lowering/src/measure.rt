//! What the forms of sequences tell of them.

use crate::now::Span;
use import_properties::Sequence;

/// The most that a side of an assertion may weigh.
pub(crate) const HEAVIEST: usize = 127;

/// The fewest and the most ticks of a match.
#[derive(Clone, Copy, PartialEq, Eq)]
pub(crate) struct Length {
    pub least: usize,
    pub most: usize,
}

impl Length {
    /// Whether there is no such number.
    pub(crate) fn is_none(self) -> bool {
        self.least > self.most
    }

    /// The one number that it is, if it is one.
    pub(crate) fn exactly(self) -> Option<u8> {
        if self.least != self.most {
            return None;
        }
        u8::try_from(self.least).ok()
    }
}

/// How many ticks matches of a sequence take, by its form.
pub(crate) fn length_of(sequence: &Sequence) -> Length {
    match sequence {
        Sequence::Boolean(_) => Length { least: 1, most: 1 },
        Sequence::Delay(first, least, most, second) => {
            let (least, most) = (*least, *most);
            delayed(length_of(first), Span { least, most }, length_of(second))
        }
        Sequence::Lead(least, most, body) => {
            let body = length_of(body);
            Length {
                least: body.least.saturating_add(usize::from(*least)),
                most: body.most.saturating_add(usize::from(*most)),
            }
        }
        Sequence::Repeat(body, least, most) => {
            let body = length_of(body);
            Length {
                least: body.least.saturating_mul(usize::from(*least)),
                most: body.most.saturating_mul(usize::from(*most)),
            }
        }
        Sequence::Or(first, second) => either(length_of(first), length_of(second)),
        Sequence::And(first, second) => both(length_of(first), length_of(second)),
        Sequence::Intersect(first, second) => {
            let first = length_of(first);
            let second = length_of(second);
            Length {
                least: first.least.max(second.least),
                most: first.most.min(second.most),
            }
        }
        Sequence::Throughout(_, body) => length_of(body),
    }
}

fn either(first: Length, second: Length) -> Length {
    Length {
        least: first.least.min(second.least),
        most: first.most.max(second.most),
    }
}

/// How many ticks the longer of two parts takes.
fn both(first: Length, second: Length) -> Length {
    Length {
        least: first.least.max(second.least),
        most: first.most.max(second.most),
    }
}

/// How many ticks two parts take of which one begins so many ticks after the end of the other;
/// none where both share a tick, and one of them has none.
fn delayed(first: Length, span: Span, second: Length) -> Length {
    let apart = chained(first.least, span.least.max(1), second.least);
    let fused = chained(first.least.max(1), 0, second.least.max(1));
    let least = if span.least > 0 {
        apart
    } else if span.most == 0 {
        fused
    } else {
        apart.min(fused)
    };
    Length {
        least,
        most: chained(first.most, span.most, second.most),
    }
}

fn chained(first: usize, count: u8, second: usize) -> usize {
    first
        .saturating_add(second)
        .saturating_add(usize::from(count))
        .saturating_sub(1)
}

/// What a sequence weighs, or 128 where that is more.
pub(crate) fn weight_of(sequence: &Sequence) -> usize {
    let weight = match sequence {
        Sequence::Boolean(_) => 1,
        Sequence::Delay(first, _, most, second) => weight_of(first)
            .saturating_add(weight_of(second))
            .saturating_add(usize::from(*most)),
        Sequence::Lead(_, most, body) => weight_of(body).saturating_add(usize::from(*most)),
        Sequence::Repeat(body, _, most) => weight_of(body).saturating_mul(usize::from(*most)),
        Sequence::Or(first, second) => weight_of(first).saturating_add(weight_of(second)),
        Sequence::And(first, second) => weight_of(first)
            .saturating_add(1)
            .saturating_mul(weight_of(second).saturating_add(1)),
        Sequence::Intersect(first, second) => weight_of(first).saturating_mul(weight_of(second)),
        Sequence::Throughout(_, body) => weight_of(body),
    };
    weight.min(HEAVIEST + 1)
}
