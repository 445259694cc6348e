//! `until`, over booleans.

ghost use Rattle.std.specs.Prelude.{◌≤◌, ℕ, IfOk};
ghost use Rattle.assertions.specs.Written.{boolean as boolean_form};
ghost use Rattle.import_properties.specs.declared.condition.Condition.{Condition};
ghost use Rattle.import_properties.specs.Properties.{Form, negated, until, both};
ghost use Rattle.import_properties.specs.Shapes.{written_form};
ghost use Rattle.import_rewriting.specs.Senses.{SaysUntil, SaysUntilWith};
ghost use Rattle.import_rewriting.specs.Sides.{Says};

use crate::make::{boxed, guarded, made};
use crate::measure::{boolean_of, can_match};
use crate::refusal::Refusal;
use crate::sense::Sense;
use import_properties::{Condition, Sequence};
use std::alloc::Global;

/// `first until second`, for a boolean: `first[*0:bound] ##1 second`.
fn waiting(
    alloc: Global,
    bound: u8,
    first: Condition,
    second: Box<Sequence>,
) -> Result<Box<Sequence>, Refusal>
    ensures { IfOk result (λ b. (ticks : ℕ) (p q : Form Condition) → ticks ≤ bound
        → Says ticks p (boolean_form first) → Says ticks q (written_form second.value)
        → Says ticks (until p q) (written_form b.value)) }
{
    if !can_match(&second) {
        return Err(Refusal::Outside);
    }
    let one = boxed(alloc, Sequence::Boolean(first))?;
    let held = boxed(alloc, Sequence::Repeat(one, 0, bound))?;
    made(alloc, Sequence::Delay(held, 1, 1, second))
}

/// `not (first until second)`: `!second[*0:bound] ##1 !first && !second`.
fn until_negated(
    alloc: Global,
    bound: u8,
    first: Condition,
    second: Condition,
) -> Result<Box<Sequence>, Refusal>
    ensures { IfOk result (λ b. (ticks : ℕ) (p q : Form Condition) → ticks ≤ bound
        → Says ticks p (boolean_form first) → Says ticks q (boolean_form second)
        → Says ticks (negated (until p q)) (written_form b.value)) }
{
    let not_first = first.negation();
    let not_second = second.negation();
    let missed = boxed(alloc, Sequence::Boolean(not_second))?;
    let broken = guarded(alloc, not_first, missed)?;
    waiting(alloc, bound, not_second, broken)
}

/// `not (first until_with second)`: `!second[*0:bound] ##1 !first`.
fn until_with_negated(
    alloc: Global,
    bound: u8,
    first: Condition,
    second: Condition,
) -> Result<Box<Sequence>, Refusal>
    ensures { IfOk result (λ b. (ticks : ℕ) (p q : Form Condition) → ticks ≤ bound
        → Says ticks p (boolean_form first) → Says ticks q (boolean_form second)
        → Says ticks (negated (until p (both p q))) (written_form b.value)) }
{
    let not_first = first.negation();
    let not_second = second.negation();
    let broken = boxed(alloc, Sequence::Boolean(not_first))?;
    waiting(alloc, bound, not_second, broken)
}

/// `first until second`, where `first` is a boolean, and `second` too if it is negated.
pub(crate) fn until(
    alloc: Global,
    bound: u8,
    sense: Sense,
    first: &Sequence,
    second: Box<Sequence>,
) -> Result<Box<Sequence>, Refusal>
    ensures { IfOk result (λ b. SaysUntil bound sense (written_form first.now)
        (written_form second.value) (written_form b.value)) }
{
    let Some(held) = boolean_of(first) else {
        return Err(Refusal::Outside);
    };
    match sense {
        Sense::Kept => waiting(alloc, bound, held, second),
        Sense::Negated => match boolean_of(&second) {
            Some(last) => until_negated(alloc, bound, held, last),
            None => Err(Refusal::Outside),
        },
    }
}

/// `first until_with second`, where `first` is a boolean, and `second` too if it is negated.
pub(crate) fn until_with(
    alloc: Global,
    bound: u8,
    sense: Sense,
    first: &Sequence,
    second: Box<Sequence>,
) -> Result<Box<Sequence>, Refusal>
    ensures { IfOk result (λ b. SaysUntilWith bound sense (written_form first.now)
        (written_form second.value) (written_form b.value)) }
{
    let Some(held) = boolean_of(first) else {
        return Err(Refusal::Outside);
    };
    match sense {
        Sense::Kept => {
            let last = guarded(alloc, held, second)?;
            waiting(alloc, bound, held, last)
        }
        Sense::Negated => match boolean_of(&second) {
            Some(last) => until_with_negated(alloc, bound, held, last),
            None => Err(Refusal::Outside),
        },
    }
}
