//! Repetitions that stand for other sequences.

ghost use Rattle.std.specs.Prelude.{◌≡◌, IfOk};
ghost use Rattle.assertions.specs.Written.{boolean as boolean_form, delay, repeat};
ghost use Rattle.import_properties.specs.Derived.{goto_form, nonconsecutive_form};
ghost use Rattle.import_properties.specs.Shapes.{written_form};

use crate::condition::Condition;
use crate::sequence::Sequence;
use std::alloc::{AllocError, Global};

/// `boolean[*0:most]`.
fn at_most(alloc: Global, boolean: Condition, most: u8) -> Result<Box<Sequence>, AllocError>
    ensures { IfOk result (λ b. written_form b.value ≡ repeat (boolean_form boolean) 0 most) }
{
    let one = Box::new(alloc, Sequence::Boolean(boolean))?;
    Ok(Box::new(alloc, Sequence::Repeat(one, 0, most))?)
}

/// `first ##1 second`.
fn chained(
    alloc: Global,
    first: Box<Sequence>,
    second: Box<Sequence>,
) -> Result<Box<Sequence>, AllocError>
    ensures { IfOk result (λ b. written_form b.value
        ≡ delay (written_form first.value) 1 1 (written_form second.value)) }
{
    Ok(Box::new(alloc, Sequence::Delay(first, 1, 1, second))?)
}

/// `boolean[->least:most]` (IEEE 1800-2017, 16.9.2), where no gap lasts more than `gap` ticks.
pub fn goto_repetition(
    alloc: Global,
    boolean: Condition,
    least: u8,
    most: u8,
    gap: u8,
) -> Result<Box<Sequence>, AllocError>
    ensures { IfOk result (λ b. written_form b.value ≡ goto_form boolean least most gap) }
{
    let waited = at_most(alloc, boolean.negation(), gap)?;
    let found = Box::new(alloc, Sequence::Boolean(boolean))?;
    let once = chained(alloc, waited, found)?;
    Ok(Box::new(alloc, Sequence::Repeat(once, least, most))?)
}

/// `boolean[=least:most]` (IEEE 1800-2017, 16.9.2), where no gap lasts more than `gap` ticks.
pub fn nonconsecutive_repetition(
    alloc: Global,
    boolean: Condition,
    least: u8,
    most: u8,
    gap: u8,
) -> Result<Box<Sequence>, AllocError>
    ensures { IfOk result (λ b.
        written_form b.value ≡ nonconsecutive_form boolean least most gap) }
{
    let found = goto_repetition(alloc, boolean, least, most, gap)?;
    let after = at_most(alloc, boolean.negation(), gap)?;
    chained(alloc, found, after)
}
