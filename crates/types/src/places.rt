//! Booleans numbered for one assertion.

ghost use Rattle.std.specs.Prelude.{◌≡◌, ◌++◌, ℕ, List, length, IfOk, OnOk};
ghost use Rattle.expressions.specs.declared.expr.Expr.{Expr};
ghost use Rattle.assertions.specs.Shapes.{written_form};
ghost use Rattle.assertions.specs.Listed.{IsListed};
ghost use Rattle.assertions.specs.Written as written;
ghost use Rattle.assertions.specs.Written.{weight, IsOrdered};
ghost use Rattle.types.specs.Placed.{MatchesByPlaces, IsPlacedBoolean, ExtendsPlaces};
ghost use Rattle.types.specs.Placed.{AllListed, AddsPlaces};
ghost use Rattle.types.specs.Placed.{ArePlaced};
ghost use Rattle.types.specs.Leaves.{sequence_places, is_one, form_of};

use crate::make::boxed;
use assertions::{Boolean, Sequence};
use std::alloc::{AllocError, Global};

/// A boolean with a place of its own in an assertion's list.
#[tactic(auto, using(crate::proofs::PlacedLaws::of_pushed))]
pub fn place_boolean(boolean: Boolean, places: &mut Vec<usize>) -> Result<Boolean, AllocError>
    ensures grows { OnOk result (ExtendsPlaces places.old.items places.new.items) }
    ensures placed { (booleans : List Expr) (more : List ℕ)
        → IfOk result (λ b. IsPlacedBoolean booleans (places.new.items ++ more) boolean b) }
    ensures listed { IfOk result (IsListed (length places.new.items)) }
    ensures own { OnOk result
        (AddsPlaces (written.boolean boolean) places.old.items places.new.items) }
    ensures list { OnOk result (places.new.items
        ≡ places.old.items ++ sequence_places (written.boolean boolean)) }
    ensures form { IfOk result (λ b. is_one b ≡ is_one boolean) }
{
    match boolean {
        Boolean::One => Ok(Boolean::One),
        Boolean::Listed(place) => {
            let local = places.len();
            places.push(place)?;
            Ok(Boolean::Listed(local))
        }
    }
}

/// A sequence as [`place_sequence`] gives it, with a clause for each part of it that is placed.
fn placed(
    alloc: Global,
    sequence: &Sequence,
    places: &mut Vec<usize>,
) -> Result<Box<Sequence>, AllocError>
    ensures { IfOk result (λ b. ArePlaced places.old.items places.new.items
        (written_form sequence.now) (written_form b.value)) }
{
    match sequence {
        Sequence::Boolean(boolean) => {
            let boolean = place_boolean(*boolean, places)?;
            boxed(alloc, Sequence::Boolean(boolean))
        }
        Sequence::Delay(first, least, most, second) => {
            let first = placed(alloc, first, places)?;
            let second = placed(alloc, second, places)?;
            boxed(alloc, Sequence::Delay(first, *least, *most, second))
        }
        Sequence::Lead(least, most, body) => {
            let body = placed(alloc, body, places)?;
            boxed(alloc, Sequence::Lead(*least, *most, body))
        }
        Sequence::Repeat(body, least, most) => {
            let body = placed(alloc, body, places)?;
            boxed(alloc, Sequence::Repeat(body, *least, *most))
        }
        Sequence::Or(first, second) => {
            let first = placed(alloc, first, places)?;
            let second = placed(alloc, second, places)?;
            boxed(alloc, Sequence::Or(first, second))
        }
        Sequence::And(first, second) => {
            let first = placed(alloc, first, places)?;
            let second = placed(alloc, second, places)?;
            boxed(alloc, Sequence::And(first, second))
        }
        Sequence::Intersect(first, second) => {
            let first = placed(alloc, first, places)?;
            let second = placed(alloc, second, places)?;
            boxed(alloc, Sequence::Intersect(first, second))
        }
        Sequence::Throughout(boolean, body) => {
            let boolean = place_boolean(*boolean, places)?;
            let body = placed(alloc, body, places)?;
            boxed(alloc, Sequence::Throughout(boolean, body))
        }
    }
}

/// A sequence of the same form in which each boolean has a place of its own in an assertion's list:
/// one more for each that is written, and no other.
pub fn place_sequence(
    alloc: Global,
    sequence: &Sequence,
    places: &mut Vec<usize>,
) -> Result<Box<Sequence>, AllocError>
    ensures grows { OnOk result (ExtendsPlaces places.old.items places.new.items) }
    ensures placed { (booleans : List Expr) (more : List ℕ)
        → IfOk result (λ b. MatchesByPlaces booleans
        (places.new.items ++ more) (written_form sequence.now) (written_form b.value)) }
    ensures weighs { IfOk result (λ b. weight (written_form b.value)
        ≡ weight (written_form sequence.now)) }
    ensures ordered { IfOk result (λ b. IsOrdered (written_form sequence.now)
        → IsOrdered (written_form b.value)) }
    ensures listed { IfOk result (λ b. AllListed places.new.items (written_form b.value)) }
    ensures own { OnOk result
        (AddsPlaces (written_form sequence.now) places.old.items places.new.items) }
    ensures list { OnOk result (places.new.items
        ≡ places.old.items ++ sequence_places (written_form sequence.now)) }
    ensures form { IfOk result (λ b. form_of (written_form b.value)
        ≡ form_of (written_form sequence.now)) }
{
    placed(alloc, sequence, places)
}
