//! Sequences from their parts.

ghost use Rattle.std.specs.Prelude.{◌≡◌, ◌+◌, ◌≤◌, true, false, IfOk};
ghost use Rattle.assertions.specs.declared.sequence.Boolean.{Boolean};
ghost use Rattle.assertions.specs.declared.sequence.Boolean.TheVariants.{One};
ghost use Rattle.assertions.specs.Shapes.{written_form};
ghost use Rattle.assertions.specs.Written.{Written, boolean, delay, lead, repeat, or, and};
ghost use Rattle.assertions.specs.Written.{intersect};
ghost use Rattle.assertions.specs.Written.{throughout, weight, IsOrdered};
ghost use Rattle.assertions.specs.Emptiness.{admits_empty};
ghost use Rattle.types.specs.Entries.{SaysSame, HasSame};

use assertions::{Boolean, HEAVIEST, Sequence};
use std::alloc::{AllocError, Global};

/// A sequence in a box.
pub(crate) fn boxed(alloc: Global, sequence: Sequence) -> Result<Box<Sequence>, AllocError>
    ensures { IfOk result (λ b. b.value ≡ sequence) }
{
    Ok(Box::new(alloc, sequence)?)
}

/// The empty segment alone: `1[*0]`.
fn empty_segment(alloc: Global) -> Result<Box<Sequence>, AllocError>
    ensures { IfOk result (λ b. written_form b.value ≡ repeat (boolean One) 0 0) }
{
    let one = Box::new(alloc, Sequence::Boolean(Boolean::One))?;
    Ok(Box::new(alloc, Sequence::Repeat(one, 0, 0))?)
}

/// What weighs nothing: the empty segment, or no segment.
#[tactic(auto, using(crate::proofs::SameLaws::says_empty, crate::proofs::SameLaws::says_never))]
pub(crate) fn weightless(alloc: Global, empty: bool) -> Result<Box<Sequence>, AllocError>
    ensures { IfOk result (λ b. (w : Written Boolean) → IsOrdered w → weight w ≡ 0
        → admits_empty w ≡ empty → SaysSame w (written_form b.value)) }
{
    let first = empty_segment(alloc)?;
    if empty {
        return Ok(first);
    }
    let second = empty_segment(alloc)?;
    Ok(Box::new(alloc, Sequence::Delay(first, 0, 0, second))?)
}

/// A copy of a sequence.
pub(crate) fn copy_of(alloc: Global, sequence: &Sequence) -> Result<Box<Sequence>, AllocError>
    ensures { IfOk result (λ b. written_form b.value ≡ written_form sequence.now) }
{
    match sequence {
        Sequence::Boolean(boolean) => boxed(alloc, Sequence::Boolean(*boolean)),
        Sequence::Delay(first, least, most, second) => {
            let first = copy_of(alloc, first)?;
            let second = copy_of(alloc, second)?;
            boxed(alloc, Sequence::Delay(first, *least, *most, second))
        }
        Sequence::Lead(least, most, body) => {
            let body = copy_of(alloc, body)?;
            boxed(alloc, Sequence::Lead(*least, *most, body))
        }
        Sequence::Repeat(body, least, most) => {
            let body = copy_of(alloc, body)?;
            boxed(alloc, Sequence::Repeat(body, *least, *most))
        }
        Sequence::Or(first, second) => {
            let first = copy_of(alloc, first)?;
            let second = copy_of(alloc, second)?;
            boxed(alloc, Sequence::Or(first, second))
        }
        Sequence::And(first, second) => {
            let first = copy_of(alloc, first)?;
            let second = copy_of(alloc, second)?;
            boxed(alloc, Sequence::And(first, second))
        }
        Sequence::Intersect(first, second) => {
            let first = copy_of(alloc, first)?;
            let second = copy_of(alloc, second)?;
            boxed(alloc, Sequence::Intersect(first, second))
        }
        Sequence::Throughout(boolean, body) => {
            let body = copy_of(alloc, body)?;
            boxed(alloc, Sequence::Throughout(*boolean, body))
        }
    }
}

/// A delay of the two, where both are there and the largest count is at most 127.
pub(crate) fn delay_of(
    alloc: Global,
    first: Option<Box<Sequence>>,
    least: u8,
    most: usize,
    second: Option<Box<Sequence>>,
) -> Result<Option<Box<Sequence>>, AllocError>
    requires { least ≤ most }
    ensures { IfOk result (λ o. (v w : Written Boolean) → most ≤ 127 → HasSame v first
        → HasSame w second → HasSame (delay v least most w) o) }
{
    if most > HEAVIEST {
        return Ok(None);
    }
    let Some(first) = first else {
        return Ok(None);
    };
    let Some(second) = second else {
        return Ok(None);
    };
    Ok(Some(Box::new(alloc, Sequence::Delay(first, least, most as u8, second))?))
}

/// A delay with nothing before it, where the body is there and the largest count is at most 127.
pub(crate) fn lead_of(
    alloc: Global,
    least: u8,
    most: usize,
    body: Option<Box<Sequence>>,
) -> Result<Option<Box<Sequence>>, AllocError>
    requires { least ≤ most }
    ensures { IfOk result (λ o. (w : Written Boolean) → most ≤ 127 → HasSame w body
        → HasSame (lead least most w) o) }
{
    if most > HEAVIEST {
        return Ok(None);
    }
    let Some(body) = body else {
        return Ok(None);
    };
    Ok(Some(Box::new(alloc, Sequence::Lead(least, most as u8, body))?))
}

/// A repetition, where the body is there and the largest count is at most 127.
pub(crate) fn repetition_of(
    alloc: Global,
    body: Option<Box<Sequence>>,
    least: u8,
    most: usize,
) -> Result<Option<Box<Sequence>>, AllocError>
    requires { least ≤ most }
    ensures { IfOk result (λ o. (w : Written Boolean) → most ≤ 127 → HasSame w body
        → HasSame (repeat w least most) o) }
{
    if most > HEAVIEST {
        return Ok(None);
    }
    let Some(body) = body else {
        return Ok(None);
    };
    Ok(Some(Box::new(alloc, Sequence::Repeat(body, least, most as u8))?))
}

/// Either of the two, where both are there.
#[tactic(auto, using(crate::proofs::SameLaws::says_or))]
pub(crate) fn either(
    alloc: Global,
    first: Option<Box<Sequence>>,
    second: Option<Box<Sequence>>,
) -> Result<Option<Box<Sequence>>, AllocError>
    ensures { IfOk result (λ o. (v w : Written Boolean) → HasSame v first → HasSame w second
        → HasSame (or v w) o) }
{
    let Some(first) = first else {
        return Ok(None);
    };
    let Some(second) = second else {
        return Ok(None);
    };
    Ok(Some(Box::new(alloc, Sequence::Or(first, second))?))
}

/// Both of the two, where both are there.
pub(crate) fn both(
    alloc: Global,
    first: Option<Box<Sequence>>,
    second: Option<Box<Sequence>>,
) -> Result<Option<Box<Sequence>>, AllocError>
    ensures { IfOk result (λ o. (v w : Written Boolean) → HasSame v first → HasSame w second
        → HasSame (and v w) o) }
{
    let Some(first) = first else {
        return Ok(None);
    };
    let Some(second) = second else {
        return Ok(None);
    };
    Ok(Some(Box::new(alloc, Sequence::And(first, second))?))
}

/// Both of the two that end together, where both are there.
pub(crate) fn meet(
    alloc: Global,
    first: Option<Box<Sequence>>,
    second: Option<Box<Sequence>>,
) -> Result<Option<Box<Sequence>>, AllocError>
    ensures { IfOk result (λ o. (v w : Written Boolean) → HasSame v first → HasSame w second
        → HasSame (intersect v w) o) }
{
    let Some(first) = first else {
        return Ok(None);
    };
    let Some(second) = second else {
        return Ok(None);
    };
    Ok(Some(Box::new(alloc, Sequence::Intersect(first, second))?))
}

/// The body with a boolean throughout, where the body is there.
#[tactic(auto, using(crate::proofs::SameLaws::says_throughout))]
pub(crate) fn throughout(
    alloc: Global,
    boolean: Boolean,
    body: Option<Box<Sequence>>,
) -> Result<Option<Box<Sequence>>, AllocError>
    ensures { IfOk result (λ o. (w : Written Boolean) → HasSame w body
        → HasSame (throughout boolean w) o) }
{
    let Some(body) = body else {
        return Ok(None);
    };
    Ok(Some(Box::new(alloc, Sequence::Throughout(boolean, body))?))
}
