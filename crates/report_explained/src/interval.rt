//! Where the parts of a sequence may begin and end, beside its first tick.

ghost use Rattle.std.specs.Prelude.{◌≡◌, ◌-◌, ◌++◌, [], ◌∷◌, OnOk};
ghost use Rattle.assertions.specs.Shapes.{written_form};
ghost use Rattle.report_explained.specs.Asked.{length_of, later, repeated, places_in, place_at};

use assertions::{Boolean, Sequence};
use std::alloc::AllocError;

/// From the least number of ticks up to and with the most.
#[derive(Clone, Copy, PartialEq, Eq, Debug)]
pub(crate) struct Interval {
    pub least: usize,
    pub most: usize,
}

impl Interval {
    ghost use Rattle.std.specs.Prelude.{◌≡◌, min, max};
    ghost use Rattle.report_explained.specs.Asked.{from_to, later, delayed, repeated};

    /// Later by a number of ticks from the least to the most.
    fn later(self, least: usize, most: usize) -> Interval
        ensures { result ≡ later self least most }
    {
        Interval {
            least: self.least.saturating_add(least),
            most: self.most.saturating_add(most),
        }
    }

    /// A number of ticks from the least to the most after the last tick of what ends here.
    fn delayed(self, least: u8, most: u8) -> Interval
        ensures { result ≡ delayed self least most }
    {
        let after = self.later(usize::from(least), usize::from(most));
        Interval {
            least: after.least.saturating_sub(1),
            most: after.most.saturating_sub(1),
        }
    }

    /// So many times, from the least number of times to the most.
    fn times(self, least: u8, most: u8) -> Interval
        ensures { result ≡ repeated self least most }
    {
        Interval {
            least: self.least.saturating_mul(usize::from(least)),
            most: self.most.saturating_mul(usize::from(most)),
        }
    }

    /// Both, and all that lies between.
    fn joined(self, other: Interval) -> Interval
        ensures { result ≡ from_to (min self.least other.least) (max self.most other.most) }
    {
        Interval {
            least: self.least.min(other.least),
            most: self.most.max(other.most),
        }
    }

    /// The later of both.
    fn later_of(self, other: Interval) -> Interval
        ensures { result ≡ from_to (max self.least other.least) (max self.most other.most) }
    {
        Interval {
            least: self.least.max(other.least),
            most: self.most.max(other.most),
        }
    }

    /// What both have.
    fn common(self, other: Interval) -> Interval
        ensures { result ≡ from_to (max self.least other.least) (min self.most other.most) }
    {
        Interval {
            least: self.least.max(other.least),
            most: self.most.min(other.most),
        }
    }
}

/// The ticks at which a boolean of a sequence may be asked, beside the sequence's first.
#[derive(Clone, Copy, Debug)]
pub(crate) struct Place {
    pub boolean: Boolean,
    pub within: Interval,
}

/// How many ticks the matches of a sequence may take.
fn length_of(sequence: &Sequence) -> Interval
    ensures { result ≡ length_of (written_form sequence.now) }
{
    match sequence {
        Sequence::Boolean(_) => Interval { least: 1, most: 1 },
        Sequence::Delay(first, least, most, second) => {
            let before = length_of(first).delayed(*least, *most);
            let behind = length_of(second);
            before.later(behind.least, behind.most)
        }
        Sequence::Lead(least, most, body) => {
            length_of(body).later(usize::from(*least), usize::from(*most))
        }
        Sequence::Repeat(body, least, most) => length_of(body).times(*least, *most),
        Sequence::Or(one, other) => length_of(one).joined(length_of(other)),
        Sequence::And(one, other) => length_of(one).later_of(length_of(other)),
        Sequence::Intersect(one, other) => length_of(one).common(length_of(other)),
        Sequence::Throughout(_, body) => length_of(body),
    }
}

/// Where the last of so many matches of a body begins, of which the first begins here.
fn begins_of_body(body: &Sequence, most: u8, begins: Interval) -> Interval
    ensures { result ≡ later begins 0
        (repeated (length_of (written_form body.now)) 1 (most - 1)).most }
{
    let turns = length_of(body).times(1, most.saturating_sub(1));
    begins.later(0, turns.most)
}

/// Adds the places of the booleans of a sequence that begins here.
pub(crate) fn push_places(
    sequence: &Sequence,
    begins: Interval,
    places: &mut Vec<Place>,
) -> Result<(), AllocError>
    ensures { OnOk result (places.new.items
        ≡ places.old.items ++ places_in begins (written_form sequence.now)) }
{
    match sequence {
        Sequence::Boolean(boolean) => push_place(*boolean, begins, places),
        Sequence::Delay(first, least, most, second) => {
            push_places(first, begins, places)?;
            let before = length_of(first).delayed(*least, *most);
            push_places(second, begins.later(before.least, before.most), places)
        }
        Sequence::Lead(least, most, body) => {
            let later = begins.later(usize::from(*least), usize::from(*most));
            push_places(body, later, places)
        }
        Sequence::Repeat(body, _, most) => {
            push_places(body, begins_of_body(body, *most, begins), places)
        }
        Sequence::Or(one, other) => {
            push_places(one, begins, places)?;
            push_places(other, begins, places)
        }
        Sequence::And(one, other) => {
            push_places(one, begins, places)?;
            push_places(other, begins, places)
        }
        Sequence::Intersect(one, other) => {
            push_places(one, begins, places)?;
            push_places(other, begins, places)
        }
        Sequence::Throughout(boolean, body) => {
            let last = length_of(body).most.saturating_sub(1);
            push_place(*boolean, begins.later(0, last), places)?;
            push_places(body, begins, places)
        }
    }
}

/// Adds one place.
fn push_place(boolean: Boolean, within: Interval, places: &mut Vec<Place>) -> Result<(), AllocError>
    ensures { OnOk result (places.new.items
        ≡ places.old.items ++ place_at boolean within ∷ []) }
{
    places.push(Place { boolean, within })?;
    Ok(())
}
