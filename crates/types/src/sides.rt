//! The sides of all assertions.

ghost use Rattle.std.specs.Prelude.{◌≡◌, ◌++◌, IfOk, OnOk};
ghost use Rattle.types.specs.Sides.{side_of, side_at, sides_in, consequents_in, entry_ticks};
ghost use Rattle.types.specs.Sides.{IsKnownEntry, AreKnownEntries};

use crate::entry::Entry;
use crate::resolved::Resolved;
use crate::side::Side;
use assertions::HEAVIEST;
use judging::takes_ticks;
use std::alloc::{AllocError, Global};

/// Whether what an entry is of matches a tick or more, if it weighs at most 127.
fn entry_ticks(alloc: Global, entry: &Entry) -> Result<bool, AllocError>
    requires { IsKnownEntry entry.now }
    ensures { IfOk result (λ ticks. ticks ≡ entry_ticks entry.now) }
{
    if usize::from(entry.facts.weight) > HEAVIEST {
        return Ok(true);
    }
    match &entry.sequence {
        Some(sequence) => takes_ticks(alloc, sequence),
        None => Ok(true),
    }
}

/// What is known of a side by its entry.
fn side_of(alloc: Global, entry: &Entry, first: bool, at: usize) -> Result<Side, AllocError>
    requires { IsKnownEntry entry.now }
    ensures { IfOk result (λ side. side ≡ side_of entry.now first at) }
{
    let ticks = entry_ticks(alloc, entry)?;
    Ok(Side {
        facts: entry.facts,
        ticks,
        first,
        at,
    })
}

/// Adds what is known of an antecedent, if one is written.
fn push_antecedent(
    alloc: Global,
    sides: &mut Vec<Side>,
    entry: &Entry,
    first: bool,
    at: Option<usize>,
) -> Result<(), AllocError>
    requires { IsKnownEntry entry.now }
    ensures { OnOk result (sides.new.items ≡ sides.old.items ++ side_at entry.now first at) }
{
    match at {
        Some(at) => Ok(sides.push(side_of(alloc, entry, first, at)?)?),
        None => Ok(()),
    }
}

/// All sides that are written, and the consequents among them, in the order of the text.
#[derive(Drop)]
pub(crate) struct Sides {
    pub all: Vec<Side>,
    pub consequents: Vec<Side>,
}

/// The sides of assertions.
pub(crate) fn written_sides(alloc: Global, assertions: &[Resolved]) -> Result<Sides, AllocError>
    requires { AreKnownEntries assertions.now }
    ensures all { IfOk result (λ v. v.all.items ≡ sides_in assertions.now) }
    ensures consequents { IfOk result (λ v. v.consequents.items ≡ consequents_in assertions.now) }
{
    let mut all = Vec::new(alloc);
    let mut consequents = Vec::with_capacity(alloc, assertions.len())?;
    for assertion in assertions {
        push_antecedent(
            alloc,
            &mut all,
            &assertion.antecedent,
            assertion.first,
            assertion.antecedent_at,
        )?;
        let consequent = side_of(alloc, &assertion.consequent, false, assertion.consequent_at)?;
        all.push(consequent)?;
        consequents.push(consequent)?;
    }
    Ok(Sides { all, consequents })
}
