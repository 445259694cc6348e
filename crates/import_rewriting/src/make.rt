//! Sequences from their parts.

ghost use Rattle.std.specs.Prelude.{◌≡◌, ◌-◌, ◌<◌, ◌≤◌, ◌↔◌, ℕ, IfOk, IsErrOf, IsTrue};
ghost use Rattle.import_properties.specs.declared.condition.Condition.{Condition};
ghost use Rattle.import_properties.specs.declared.condition.Condition.TheVariants.{One, Zero};
ghost use Rattle.import_properties.specs.Conditions.{negation};
ghost use Rattle.import_properties.specs.Properties.{Form, sequence, both, either, implied};
ghost use Rattle.import_properties.specs.Properties.{followed, later, each_later, some_later};
ghost use Rattle.import_properties.specs.Shapes.{written_form};
ghost use Rattle.assertions.specs.Segments as kernel;
ghost use Rattle.assertions.specs.Written.{weight, IsOrdered, kernel as kernel_of};
ghost use Rattle.assertions.specs.Written.{boolean as boolean_form};
ghost use Rattle.import_rewriting.specs.declared.refusal.Refusal.{Refusal};
ghost use Rattle.import_rewriting.specs.declared.refusal.Refusal.TheVariants.{TooHeavy};
ghost use Rattle.import_rewriting.specs.Sides.{Says};

use crate::measure::{HEAVIEST, boolean_of, capped_weight};
use crate::refusal::Refusal;
use import_properties::{Condition, Sequence};
use std::alloc::{AllocError, Global};

/// A sequence in a box.
pub(crate) fn boxed(alloc: Global, sequence: Sequence) -> Result<Box<Sequence>, AllocError>
    ensures { IfOk result (λ b. b.value ≡ sequence) }
{
    Ok(Box::new(alloc, sequence)?)
}

/// A sequence in a box, where it weighs no more than a side of an assertion may.
pub(crate) fn made(alloc: Global, sequence: Sequence) -> Result<Box<Sequence>, Refusal>
    ensures ok { IfOk result (λ b.
        (b.value ≡ sequence) × (weight (written_form sequence) ≤ 127)) }
    ensures heavy { IsErrOf result TooHeavy → 127 < weight (written_form sequence) }
{
    if capped_weight(&sequence) > HEAVIEST {
        return Err(Refusal::TooHeavy);
    }
    Ok(Box::new(alloc, sequence)?)
}

/// A copy of a sequence.
pub(crate) fn copy_of(alloc: Global, sequence: &Sequence) -> Result<Box<Sequence>, AllocError>
    ensures { IfOk result (λ b. written_form b.value ≡ written_form sequence.now) }
{
    match sequence {
        Sequence::Boolean(boolean) => boxed(alloc, Sequence::Boolean(*boolean)),
        Sequence::Delay(first, least, most, second) => {
            let first = copy_of(alloc, first)?;
            let second = copy_of(alloc, second)?;
            boxed(alloc, Sequence::Delay(first, *least, *most, second))
        }
        Sequence::Lead(least, most, body) => {
            let body = copy_of(alloc, body)?;
            boxed(alloc, Sequence::Lead(*least, *most, body))
        }
        Sequence::Repeat(body, least, most) => {
            let body = copy_of(alloc, body)?;
            boxed(alloc, Sequence::Repeat(body, *least, *most))
        }
        Sequence::Or(first, second) => {
            let first = copy_of(alloc, first)?;
            let second = copy_of(alloc, second)?;
            boxed(alloc, Sequence::Or(first, second))
        }
        Sequence::And(first, second) => {
            let first = copy_of(alloc, first)?;
            let second = copy_of(alloc, second)?;
            boxed(alloc, Sequence::And(first, second))
        }
        Sequence::Intersect(first, second) => {
            let first = copy_of(alloc, first)?;
            let second = copy_of(alloc, second)?;
            boxed(alloc, Sequence::Intersect(first, second))
        }
        Sequence::Throughout(boolean, body) => {
            let body = copy_of(alloc, body)?;
            boxed(alloc, Sequence::Throughout(*boolean, body))
        }
    }
}

/// Either of the two.
pub(crate) fn either(
    alloc: Global,
    first: Box<Sequence>,
    second: Box<Sequence>,
) -> Result<Box<Sequence>, Refusal>
    ensures { IfOk result (λ b. (bound : ℕ) (p q : Form Condition)
        → Says bound p (written_form first.value) → Says bound q (written_form second.value)
        → Says bound (either p q) (written_form b.value)) }
{
    made(alloc, Sequence::Or(first, second))
}

/// The boolean at the tick at which the body begins.
pub(crate) fn guarded(
    alloc: Global,
    boolean: Condition,
    body: Box<Sequence>,
) -> Result<Box<Sequence>, Refusal>
    ensures { IfOk result (λ b. (bound : ℕ) (p q : Form Condition)
        → Says bound p (boolean_form boolean) → Says bound q (written_form body.value)
        → Says bound (both p q) (written_form b.value)) }
{
    let first = boxed(alloc, Sequence::Boolean(boolean))?;
    made(alloc, Sequence::Delay(first, 0, 0, body))
}

/// Both of the two; where one is a boolean, at its tick.
pub(crate) fn both(
    alloc: Global,
    first: Box<Sequence>,
    second: Box<Sequence>,
) -> Result<Box<Sequence>, Refusal>
    ensures { IfOk result (λ b. (bound : ℕ) (p q : Form Condition)
        → Says bound p (written_form first.value) → Says bound q (written_form second.value)
        → Says bound (both p q) (written_form b.value)) }
{
    if let Some(boolean) = boolean_of(&first) {
        return guarded(alloc, boolean, second);
    }
    if let Some(boolean) = boolean_of(&second) {
        return guarded(alloc, boolean, first);
    }
    made(alloc, Sequence::And(first, second))
}

/// The body, so many ticks later.
pub(crate) fn later(alloc: Global, count: u8, body: Box<Sequence>) -> Result<Box<Sequence>, Refusal>
    ensures { IfOk result (λ b. (bound : ℕ) (p : Form Condition)
        → Says bound p (written_form body.value)
        → Says bound (later count p) (written_form b.value)) }
{
    if count == 0 {
        return Ok(body);
    }
    made(alloc, Sequence::Lead(count, count, body))
}

/// The body at some tick of a range.
pub(crate) fn some_later(
    alloc: Global,
    least: u8,
    most: u8,
    body: Box<Sequence>,
) -> Result<Box<Sequence>, Refusal>
    requires { least ≤ most }
    ensures { IfOk result (λ b. (bound : ℕ) (p : Form Condition)
        → Says bound p (written_form body.value)
        → Says bound (some_later least (most - least) p) (written_form b.value)) }
{
    made(alloc, Sequence::Lead(least, most, body))
}

/// Whether it is the constant 0.
fn is_zero(sequence: &Sequence) -> bool
    ensures { IsTrue result ↔ (written_form sequence.now ≡ boolean_form Zero) }
{
    matches!(sequence, Sequence::Boolean(Condition::Zero))
}

/// The boolean is false at this tick, or the body begins with it.
pub(crate) fn unless(
    alloc: Global,
    boolean: Condition,
    body: Box<Sequence>,
) -> Result<Box<Sequence>, Refusal>
    ensures { IfOk result (λ b. (bound : ℕ) (p : Form Condition)
        → Says bound p (written_form body.value)
        → Says bound (implied (kernel.one boolean) p) (written_form b.value)) }
{
    let missed = boxed(alloc, Sequence::Boolean(boolean.negation()))?;
    if is_zero(&body) {
        return Ok(missed);
    }
    made(alloc, Sequence::Or(missed, body))
}

/// At some end of the first, the second.
pub(crate) fn followed(
    alloc: Global,
    first: Box<Sequence>,
    second: Box<Sequence>,
) -> Result<Box<Sequence>, Refusal>
    ensures { IfOk result (λ b. (bound : ℕ) (p : Form Condition)
        → IsOrdered (written_form first.value)
        → Says bound p (written_form second.value)
        → Says bound (followed (kernel_of One (written_form first.value)) p)
        (written_form b.value)) }
{
    made(alloc, Sequence::Delay(first, 0, 0, second))
}

/// The boolean at each tick of a range.
fn held_from(
    alloc: Global,
    least: u8,
    most: u8,
    boolean: Condition,
) -> Result<Box<Sequence>, Refusal>
    requires { least ≤ most }
    ensures { IfOk result (λ b. (bound : ℕ) (p : Form Condition)
        → Says bound p (boolean_form boolean)
        → Says bound (each_later least (most - least) p) (written_form b.value)) }
{
    let one = boxed(alloc, Sequence::Boolean(boolean))?;
    if least == most {
        return later(alloc, least, one);
    }
    if most - least == u8::MAX {
        return Err(Refusal::TooHeavy);
    }
    let count = most - least + 1;
    let held = made(alloc, Sequence::Repeat(one, count, count))?;
    later(alloc, least, held)
}

/// The body at each tick of a range.
pub(crate) fn each_later(
    alloc: Global,
    least: u8,
    most: u8,
    body: &Sequence,
) -> Result<Box<Sequence>, Refusal>
    requires { least ≤ most }
    ensures { IfOk result (λ b. (bound : ℕ) (p : Form Condition)
        → Says bound p (written_form body.now)
        → Says bound (each_later least (most - least) p) (written_form b.value)) }
{
    if let Sequence::Boolean(boolean) = body {
        return held_from(alloc, least, most, *boolean);
    }
    let copy = copy_of(alloc, body)?;
    let here = later(alloc, least, copy)?;
    if least == most {
        return Ok(here);
    }
    let rest = each_later(alloc, least + 1, most, body)?;
    both(alloc, here, rest)
}
