//! At which clocks a boolean of an attempt is asked.

ghost use Rattle.std.specs.Prelude.{◌≡◌, ◌++◌, OnOk};
ghost use Rattle.std.specs.List.{list_any};
ghost use Rattle.report_explained.specs.Asked.{from_to, is_of, is_within, has_clock};
ghost use Rattle.report_explained.specs.Asked.{disabling_places};

use crate::interval::{Interval, Place, push_places};
use assertions::{Assertion, Boolean};
use std::alloc::{AllocError, Global};

/// A failed attempt, in clocks: where it began, the end of the antecedent whose obligation broke,
/// and the clock after the one at which it broke.
#[derive(Clone, Copy, PartialEq, Eq, Debug)]
pub struct Attempt {
    pub start: usize,
    pub broken: usize,
    pub end: usize,
}

/// For the booleans of an assertion, the clocks at which an attempt may ask them.
#[derive(Drop)]
pub(crate) struct Asked {
    attempt: Attempt,
    antecedent: Vec<Place>,
    consequent: Vec<Place>,
}

impl Asked {
    ghost use Rattle.std.specs.Prelude.{◌≡◌, IfOk};
    ghost use Rattle.report_explained.specs.Asked.{AreAsked, asks};

    /// Those of the attempt: the antecedent begins at its start, the consequent at the end that
    /// broke, and the disabling boolean is asked at each clock.
    pub fn of(alloc: Global, assertion: &Assertion, attempt: Attempt) -> Result<Asked, AllocError>
        ensures { IfOk result (AreAsked assertion.now attempt) }
    {
        let mut antecedent = Vec::new(alloc);
        push_places(&assertion.antecedent, at(attempt.start), &mut antecedent)?;
        push_disabling(&mut antecedent, assertion.disabling, attempt)?;
        let mut consequent = Vec::new(alloc);
        push_places(&assertion.consequent, at(attempt.broken), &mut consequent)?;
        Ok(Asked {
            attempt,
            antecedent,
            consequent,
        })
    }

    /// Whether the boolean at a place of the assertion's list may be asked at a clock.
    pub fn is_asked(&self, listed: usize, clock: usize) -> bool
        ensures { result ≡ asks self.now listed clock }
    {
        is_among(self.antecedent.as_slice(), listed, clock)
            || is_among(self.consequent.as_slice(), listed, clock)
    }

    /// The clock at which the side begins that has the boolean.
    pub fn begins(&self, listed: usize) -> usize {
        for place in &self.antecedent {
            if is_listed(place.boolean, listed) {
                return self.attempt.start;
            }
        }
        self.attempt.broken
    }
}

/// Adds the disabling boolean, if there is one: it is asked at each clock of the attempt.
fn push_disabling(
    places: &mut Vec<Place>,
    disabling: Option<Boolean>,
    attempt: Attempt,
) -> Result<(), AllocError>
    ensures { OnOk result (places.new.items
        ≡ places.old.items ++ disabling_places attempt disabling) }
{
    if let Some(boolean) = disabling {
        places.push(Place {
            boolean,
            within: Interval {
                least: attempt.start,
                most: attempt.end.saturating_sub(1),
            },
        })?;
    }
    Ok(())
}

/// Whether one of the places is of the boolean, and may be asked at a clock.
fn is_among(places: &[Place], listed: usize, clock: usize) -> bool
    ensures { result ≡ list_any (has_clock listed clock) places.now }
{
    for place in places {
        if is_listed(place.boolean, listed) && is_within(place.within, clock) {
            return true;
        }
    }
    false
}

/// This clock alone.
fn at(clock: usize) -> Interval
    ensures { result ≡ from_to clock clock }
{
    Interval {
        least: clock,
        most: clock,
    }
}

/// Whether a boolean is the one at a place of the list.
fn is_listed(boolean: Boolean, listed: usize) -> bool
    ensures { result ≡ is_of listed boolean }
{
    match boolean {
        Boolean::One => false,
        Boolean::Listed(place) => place == listed,
    }
}

fn is_within(within: Interval, clock: usize) -> bool
    ensures { result ≡ is_within clock within }
{
    within.least <= clock && clock <= within.most
}
