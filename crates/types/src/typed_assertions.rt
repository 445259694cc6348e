//! Assertions of a suite.

ghost use Rattle.std.specs.Prelude.{◌≡◌, ◌≤◌, ℕ, List, ◌++◌, IfOk, OnOk};
ghost use Rattle.assertions.specs.Shapes.{written_form};
ghost use Rattle.assertions.specs.Written.{weight, IsOrdered};
ghost use Rattle.types.specs.Entries.{Bodies, IsTheEntryOf};
ghost use Rattle.types.specs.Placed.{ExtendsPlaces, AddsPlaces};
ghost use Rattle.types.specs.Leaves.{sequence_places};
ghost use Rattle.types.specs.Readings.{Where};
ghost use Rattle.types.specs.Suites.{IsAssertion, AreAssertions, off_places};
ghost use Rattle.types.specs.Resolved.{IsResolved, AreResolved};
ghost use Rattle.types.specs.Made.{Expressions, Side, Statement, Statements, IsSide};
ghost use Rattle.types.specs.Made.{IsFitting, AreFitting, IsPlacedAt, AreAt, kept_of};

use crate::entry::Entry;
use crate::places::{place_boolean, place_sequence};
use crate::resolved::Resolved;
use assertions::{Assertion, Boolean, Sequence};
use std::alloc::{AllocError, Global};

/// A side of an assertion from its entry, each boolean with a place of its own after those in use.
fn side_of(
    alloc: Global,
    entry: &Entry,
    places: &mut Vec<usize>,
) -> Result<Box<Sequence>, AllocError>
    requires { IsFitting entry.now }
    ensures grows { OnOk result (ExtendsPlaces places.old.items places.new.items) }
    ensures light { IfOk result (λ b. weight (written_form b.value) ≤ 127) }
    ensures ordered { IfOk result (λ b. IsOrdered (written_form b.value)) }
    ensures meant { (booleans : Expressions) (more : List ℕ) (w : Side) → IsTheEntryOf w entry.now →
        IfOk result (λ b. IsSide booleans (places.new.items ++ more) w (kept_of entry.now)
        (written_form b.value)) }
    ensures used { (w : Side) → IsTheEntryOf w entry.now →
        OnOk result (AddsPlaces w places.old.items places.new.items) }
    ensures list { OnOk result (places.new.items
        ≡ places.old.items ++ sequence_places (kept_of entry.now)) }
{
    match &entry.sequence {
        Some(sequence) => place_sequence(alloc, sequence, places),
        None => unreachable!(),
    }
}

/// The disabling boolean, with a place of its own.
fn disabling_of(
    place: Option<usize>,
    places: &mut Vec<usize>,
) -> Result<Option<Boolean>, AllocError>
    ensures grows { OnOk result (ExtendsPlaces places.old.items places.new.items) }
    ensures placed { (booleans : Expressions)
        → IfOk result (IsPlacedAt booleans places.new.items place) }
    ensures used { OnOk result (AreAt place places.old.items places.new.items) }
    ensures list { OnOk result (places.new.items ≡ places.old.items ++ off_places place) }
{
    match place {
        Some(place) => Ok(Some(place_boolean(Boolean::Listed(place), places)?)),
        None => Ok(None),
    }
}

/// An assertion whose sides weigh at most 127.
fn assertion_of(alloc: Global, resolved: &Resolved) -> Result<Assertion, AllocError>
    requires antecedent { IsFitting resolved.now.antecedent }
    requires consequent { IsFitting resolved.now.consequent }
    ensures { (s : Where) (columns : List (List ℕ)) (booleans : Expressions) (bodies : Bodies)
        (before : ℕ) (a : Statement)
        → IsResolved s columns booleans bodies before a resolved.now
        → IfOk result (IsAssertion s columns booleans bodies before a) }
{
    let mut places = Vec::new(alloc);
    let antecedent = side_of(alloc, &resolved.antecedent, &mut places)?;
    let consequent = side_of(alloc, &resolved.consequent, &mut places)?;
    let disabling = disabling_of(resolved.disabling, &mut places)?;
    let name = String::from_str(alloc, resolved.name.as_str())?;
    match Assertion::new(
        name,
        resolved.first,
        Box::into_inner(antecedent),
        Box::into_inner(consequent),
        disabling,
        places,
    ) {
        Some(assertion) => Ok(assertion),
        None => unreachable!(),
    }
}

/// The assertions whose sides weigh at most 127, in the order of the text.
pub fn assertions_of(alloc: Global, resolved: &[Resolved]) -> Result<Vec<Assertion>, AllocError>
    requires { AreFitting resolved.now }
    ensures { (s : Where) (columns : List (List ℕ)) (booleans : Expressions) (bodies : Bodies)
        (all : Statements)
        → AreResolved s columns booleans bodies 0 all resolved.now
        → IfOk result (λ v. AreAssertions s columns booleans bodies 0 all v.items) }
{
    let mut assertions = Vec::with_capacity(alloc, resolved.len())?;
    for one in resolved {
        assertions.push(assertion_of(alloc, one)?)?;
    }
    Ok(assertions)
}
