//! What sequences that say properties in a sense are joined to.

ghost use Rattle.std.specs.Prelude.{◌≡◌, ◌≤◌, ℕ, IfOk};
ghost use Rattle.import_properties.specs.declared.condition.Condition.{Condition};
ghost use Rattle.import_properties.specs.declared.condition.Condition.TheVariants.{One};
ghost use Rattle.import_properties.specs.Properties.{Form, sequence as sequence_form, then_tick};
ghost use Rattle.import_properties.specs.Properties.{chosen};
ghost use Rattle.import_properties.specs.Shapes.{written_form};
ghost use Rattle.assertions.specs.Written.{IsOrdered, kernel};
ghost use Rattle.import_rewriting.specs.Sides.{Says, IsAntecedent};
ghost use Rattle.import_rewriting.specs.Senses.{JoinsBoth, JoinsEither, JoinsImplied};
ghost use Rattle.import_rewriting.specs.Senses.{JoinsEach, JoinsSome, in_sense};

use crate::ends::ends_of;
use crate::make::{both, boxed, copy_of, each_later, either, followed, guarded, made, some_later};
use crate::measure::{can_match, check_consequent};
use crate::refusal::Refusal;
use crate::sense::Sense;
use import_properties::{Condition, Sequence};
use std::alloc::Global;

/// `p and q`.
pub(crate) fn conjunction(
    alloc: Global,
    sense: Sense,
    first: Box<Sequence>,
    second: Box<Sequence>,
) -> Result<Box<Sequence>, Refusal>
    ensures { IfOk result (λ b. JoinsBoth sense (written_form first.value)
        (written_form second.value) (written_form b.value)) }
{
    match sense {
        Sense::Kept => both(alloc, first, second),
        Sense::Negated => either(alloc, first, second),
    }
}

/// `p or q`.
pub(crate) fn disjunction(
    alloc: Global,
    sense: Sense,
    first: Box<Sequence>,
    second: Box<Sequence>,
) -> Result<Box<Sequence>, Refusal>
    ensures { IfOk result (λ b. JoinsEither sense (written_form first.value)
        (written_form second.value) (written_form b.value)) }
{
    match sense {
        Sense::Kept => either(alloc, first, second),
        Sense::Negated => both(alloc, first, second),
    }
}

/// `antecedent |-> p`.
pub(crate) fn implication(
    alloc: Global,
    sense: Sense,
    antecedent: &Sequence,
    body: Box<Sequence>,
) -> Result<Box<Sequence>, Refusal>
    requires { IsOrdered (written_form antecedent.now) }
    ensures { IfOk result (λ b. JoinsImplied sense (written_form antecedent.now)
        (written_form body.value) (written_form b.value)) }
{
    match sense {
        Sense::Kept => ends_of(alloc, antecedent, &body),
        Sense::Negated => {
            let first = copy_of(alloc, antecedent)?;
            followed(alloc, first, body)
        }
    }
}

/// `always [least:most] p`.
pub(crate) fn at_each(
    alloc: Global,
    sense: Sense,
    least: u8,
    most: u8,
    body: Box<Sequence>,
) -> Result<Box<Sequence>, Refusal>
    ensures { IfOk result (λ b. JoinsEach sense least most (written_form body.value)
        (written_form b.value)) }
{
    if least > most {
        return Err(Refusal::Unordered);
    }
    match sense {
        Sense::Kept => each_later(alloc, least, most, &body),
        Sense::Negated => some_later(alloc, least, most, body),
    }
}

/// `s_eventually [least:most] p`.
pub(crate) fn at_some(
    alloc: Global,
    sense: Sense,
    least: u8,
    most: u8,
    body: Box<Sequence>,
) -> Result<Box<Sequence>, Refusal>
    ensures { IfOk result (λ b. JoinsSome sense least most (written_form body.value)
        (written_form b.value)) }
{
    if least > most {
        return Err(Refusal::Unordered);
    }
    match sense {
        Sense::Kept => some_later(alloc, least, most, body),
        Sense::Negated => each_later(alloc, least, most, &body),
    }
}

/// The sequence itself, or its negation.
pub(crate) fn sequence_in(
    alloc: Global,
    sense: Sense,
    sequence: &Sequence,
) -> Result<Box<Sequence>, Refusal>
    ensures { IfOk result (λ b. (bound : ℕ)
        → Says bound (in_sense sense (sequence_form (kernel One (written_form sequence.now))))
        (written_form b.value)) }
{
    check_consequent(sequence)?;
    match sense {
        Sense::Kept => Ok(copy_of(alloc, sequence)?),
        Sense::Negated => {
            let never = boxed(alloc, Sequence::Boolean(Condition::Zero))?;
            ends_of(alloc, sequence, &never)
        }
    }
}

/// The sequence with a tick after it: `sequence ##1 1`.
pub(crate) fn with_tick(alloc: Global, sequence: &Sequence) -> Result<Box<Sequence>, Refusal>
    requires { IsOrdered (written_form sequence.now) }
    ensures ended { IfOk result (λ b. kernel One (written_form b.value)
        ≡ then_tick (kernel One (written_form sequence.now))) }
    ensures fit { IfOk result (λ b. IsAntecedent (written_form b.value)) }
{
    let first = copy_of(alloc, sequence)?;
    let tick = boxed(alloc, Sequence::Boolean(Condition::One))?;
    made(alloc, Sequence::Delay(first, 1, 1, tick))
}

/// `if (condition) p else q`, in the sense in which the two sequences say p and q.
pub(crate) fn choice(
    alloc: Global,
    sense: Sense,
    condition: Condition,
    first: Box<Sequence>,
    second: Box<Sequence>,
) -> Result<Box<Sequence>, Refusal>
    ensures { IfOk result (λ b. (bound : ℕ) (p q : Form Condition)
        → Says bound (in_sense sense p) (written_form first.value)
        → Says bound (in_sense sense q) (written_form second.value)
        → Says bound (in_sense sense (chosen condition p q)) (written_form b.value)) }
{
    if can_match(&first) && can_match(&second) {
        let first = guarded(alloc, condition, first)?;
        let second = guarded(alloc, condition.negation(), second)?;
        return either(alloc, first, second);
    }
    let guard = boxed(alloc, Sequence::Boolean(condition))?;
    let first = implication(alloc, sense, &guard, first)?;
    let other = boxed(alloc, Sequence::Boolean(condition.negation()))?;
    let second = implication(alloc, sense, &other, second)?;
    conjunction(alloc, sense, first, second)
}
