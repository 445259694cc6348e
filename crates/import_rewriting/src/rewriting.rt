//! Assertions of the profile for properties.

ghost use Rattle.std.specs.Prelude.{◌≡◌, ◌≤◌, IfOk, IsTrue};
ghost use Rattle.assertions.specs.Written.{boolean};
ghost use Rattle.import_properties.specs.declared.condition.Condition.TheVariants.{One};
ghost use Rattle.import_properties.specs.Shapes.{written_form};
ghost use Rattle.import_rewriting.specs.Sides.{IsAntecedent};
ghost use Rattle.import_rewriting.specs.Rewriting.{AreSides, AreSidesLater, EndsLater, IsRewriting};

use crate::consequent::consequent_of;
use crate::join::with_tick;
use crate::make::{boxed, copy_of, made};
use crate::measure::{check_antecedent, may_be_empty};
use crate::refusal::Refusal;
use crate::sense::Sense;
use import_properties::{Condition, Property, Sequence};
use std::alloc::Global;

/// The two sides of an assertion `antecedent |-> consequent` of the profile. The antecedent 1 can
/// be left out.
#[derive(Drop)]
pub struct Rewriting {
    pub antecedent: Box<Sequence>,
    pub consequent: Box<Sequence>,
}

/// Whether it is the constant 1.
fn is_one(sequence: &Sequence) -> bool
    ensures { IsTrue result → written_form sequence.now ≡ boolean One }
{
    matches!(sequence, Sequence::Boolean(Condition::One))
}

/// An antecedent with the ends of this one, so many ticks after the first tick.
fn ends_from_start(
    alloc: Global,
    least: u8,
    most: u8,
    antecedent: Box<Sequence>,
) -> Result<Box<Sequence>, Refusal>
    requires range { least ≤ most }
    requires fits { IsAntecedent (written_form antecedent.value) }
    ensures later { IfOk result (λ b. EndsLater (boolean One) least most
        (written_form antecedent.value) (written_form b.value)) }
    ensures fit { IfOk result (λ b. IsAntecedent (written_form b.value)) }
{
    if most == 0 {
        return Ok(antecedent);
    }
    if !may_be_empty(&antecedent) {
        return made(alloc, Sequence::Lead(least, most, antecedent));
    }
    let tick = boxed(alloc, Sequence::Boolean(Condition::One))?;
    let moved = made(alloc, Sequence::Delay(tick, 0, 0, antecedent))?;
    made(alloc, Sequence::Lead(least, most, moved))
}

/// An antecedent with the ends of the second, so many ticks after each end of the first.
fn ends_later(
    alloc: Global,
    first: Box<Sequence>,
    least: u8,
    most: u8,
    second: &Sequence,
) -> Result<Box<Sequence>, Refusal>
    requires range { least ≤ most }
    requires first_fits { IsAntecedent (written_form first.value) }
    requires second_fits { IsAntecedent (written_form second.now) }
    ensures later { IfOk result (λ b. EndsLater (written_form first.value) least most
        (written_form second.now) (written_form b.value)) }
    ensures fit { IfOk result (λ b. IsAntecedent (written_form b.value)) }
{
    let second = copy_of(alloc, second)?;
    if is_one(&first) {
        return ends_from_start(alloc, least, most, second);
    }
    if most == 0 {
        return made(alloc, Sequence::Delay(first, 0, 0, second));
    }
    if may_be_empty(&first) || may_be_empty(&second) {
        return Err(Refusal::AdmitsEmpty);
    }
    made(alloc, Sequence::Delay(first, least, most, second))
}

/// The two sides of `antecedent |-> property`.
#[cycle(sides)]
fn sides_of(
    alloc: Global,
    bound: u8,
    antecedent: Box<Sequence>,
    property: &Property,
) -> Result<Rewriting, Refusal>
    requires { IsAntecedent (written_form antecedent.value) }
    ensures { IfOk result (λ r. AreSides bound (written_form antecedent.value) property.now
        (written_form r.antecedent.value) (written_form r.consequent.value)) }
{
    match property {
        Property::Implication(end, body) => sides_later(alloc, bound, antecedent, 0, 0, end, body),
        Property::NextImplication(end, body) => {
            check_antecedent(end)?;
            let ended = with_tick(alloc, end)?;
            sides_later(alloc, bound, antecedent, 0, 0, &ended, body)
        }
        Property::If(condition, body) => {
            let guard = boxed(alloc, Sequence::Boolean(*condition))?;
            sides_later(alloc, bound, antecedent, 0, 0, &guard, body)
        }
        Property::Next(count, body) => match &**body {
            Property::Implication(end, body) => {
                sides_later(alloc, bound, antecedent, *count, *count, end, body)
            }
            _ => sides_alone(alloc, bound, antecedent, property),
        },
        Property::Always(least, most, body) => match &**body {
            Property::Implication(end, body) => {
                sides_later(alloc, bound, antecedent, *least, *most, end, body)
            }
            _ => sides_alone(alloc, bound, antecedent, property),
        },
        _ => sides_alone(alloc, bound, antecedent, property),
    }
}

/// The two sides of `end |-> body`, so many ticks after each end of the antecedent.
#[cycle(sides)]
fn sides_later(
    alloc: Global,
    bound: u8,
    antecedent: Box<Sequence>,
    least: u8,
    most: u8,
    end: &Sequence,
    body: &Property,
) -> Result<Rewriting, Refusal>
    requires { IsAntecedent (written_form antecedent.value) }
    ensures { IfOk result (λ r. AreSidesLater bound (written_form antecedent.value) least most
        (written_form end.now) body.now
        (written_form r.antecedent.value) (written_form r.consequent.value)) }
{
    if least > most {
        return Err(Refusal::Unordered);
    }
    check_antecedent(end)?;
    let joined = ends_later(alloc, antecedent, least, most, end)?;
    sides_of(alloc, bound, joined, body)
}

/// The two sides where the consequent says the whole property; or, where that is too heavy or has
/// no form, where the antecedent says the property's negation, and the consequent is 0.
fn sides_alone(
    alloc: Global,
    bound: u8,
    antecedent: Box<Sequence>,
    property: &Property,
) -> Result<Rewriting, Refusal>
    requires { IsAntecedent (written_form antecedent.value) }
    ensures { IfOk result (λ r. AreSides bound (written_form antecedent.value) property.now
        (written_form r.antecedent.value) (written_form r.consequent.value)) }
{
    match consequent_of(alloc, bound, Sense::Kept, property) {
        Ok(consequent) => Ok(Rewriting {
            antecedent,
            consequent,
        }),
        Err(Refusal::TooHeavy | Refusal::Negation) => {
            sides_never(alloc, bound, antecedent, property)
        }
        Err(refusal) => Err(refusal),
    }
}

/// The two sides where the antecedent says the negation of the property, and the consequent is 0.
fn sides_never(
    alloc: Global,
    bound: u8,
    antecedent: Box<Sequence>,
    property: &Property,
) -> Result<Rewriting, Refusal>
    requires { IsAntecedent (written_form antecedent.value) }
    ensures { IfOk result (λ r. AreSides bound (written_form antecedent.value) property.now
        (written_form r.antecedent.value) (written_form r.consequent.value)) }
{
    let broken = consequent_of(alloc, bound, Sense::Negated, property)?;
    let joined = ends_later(alloc, antecedent, 0, 0, &broken)?;
    let never = boxed(alloc, Sequence::Boolean(Condition::Zero))?;
    Ok(Rewriting {
        antecedent: joined,
        consequent: never,
    })
}

/// An assertion of the profile that comes to what the property does: it fails at the same tick, and
/// holds, vacuously or not, where the property is good, at the same tick. Where the property has
/// an `until`, that is so while no more than `bound` ticks are seen from the attempt's first one.
pub fn rewritten(alloc: Global, bound: u8, property: &Property) -> Result<Rewriting, Refusal>
    ensures { IfOk result (λ r. IsRewriting bound property.now
        (written_form r.antecedent.value) (written_form r.consequent.value)) }
{
    let start = boxed(alloc, Sequence::Boolean(Condition::One))?;
    sides_of(alloc, bound, start, property)
}
