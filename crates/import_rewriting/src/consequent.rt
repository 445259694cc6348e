//! Properties as one sequence each.

ghost use Rattle.std.specs.Prelude.{IfOk};
ghost use Rattle.import_properties.specs.Shapes.{written_form};
ghost use Rattle.import_rewriting.specs.Rewriting.{SaysIn, SaysImplies};

use crate::join::{
    at_each, at_some, choice, conjunction, disjunction, implication, sequence_in, with_tick,
};
use crate::make::{boxed, later};
use crate::measure::check_antecedent;
use crate::refusal::Refusal;
use crate::sense::Sense;
use crate::waiting::{until, until_with};
use import_properties::{Property, Sequence};
use std::alloc::Global;

/// The sequence that says the property in that sense.
#[cycle(consequent)]
pub(crate) fn consequent_of(
    alloc: Global,
    bound: u8,
    sense: Sense,
    property: &Property,
) -> Result<Box<Sequence>, Refusal>
    ensures { IfOk result (λ b. SaysIn sense bound property.now (written_form b.value)) }
{
    match property {
        Property::Sequence(sequence) => sequence_in(alloc, sense, sequence),
        Property::Not(body) => consequent_of(alloc, bound, sense.opposite(), body),
        Property::And(first, second) => {
            let first = consequent_of(alloc, bound, sense, first)?;
            let second = consequent_of(alloc, bound, sense, second)?;
            conjunction(alloc, sense, first, second)
        }
        Property::Or(first, second) => {
            let first = consequent_of(alloc, bound, sense, first)?;
            let second = consequent_of(alloc, bound, sense, second)?;
            disjunction(alloc, sense, first, second)
        }
        Property::Implies(first, second) => implies(alloc, bound, sense, first, second),
        Property::Iff(first, second) => {
            let forward = implies(alloc, bound, sense, first, second)?;
            let back = implies(alloc, bound, sense, second, first)?;
            conjunction(alloc, sense, forward, back)
        }
        Property::Implication(antecedent, body) => {
            check_antecedent(antecedent)?;
            let body = consequent_of(alloc, bound, sense, body)?;
            implication(alloc, sense, antecedent, body)
        }
        Property::NextImplication(antecedent, body) => {
            check_antecedent(antecedent)?;
            let ended = with_tick(alloc, antecedent)?;
            let body = consequent_of(alloc, bound, sense, body)?;
            implication(alloc, sense, &ended, body)
        }
        Property::FollowedBy(antecedent, body) => {
            check_antecedent(antecedent)?;
            let body = consequent_of(alloc, bound, sense, body)?;
            implication(alloc, sense.opposite(), antecedent, body)
        }
        Property::NextFollowedBy(antecedent, body) => {
            check_antecedent(antecedent)?;
            let ended = with_tick(alloc, antecedent)?;
            let body = consequent_of(alloc, bound, sense, body)?;
            implication(alloc, sense.opposite(), &ended, body)
        }
        Property::If(condition, body) => {
            let body = consequent_of(alloc, bound, sense, body)?;
            let guard = boxed(alloc, Sequence::Boolean(*condition))?;
            implication(alloc, sense, &guard, body)
        }
        Property::IfElse(condition, first, second) => {
            let first = consequent_of(alloc, bound, sense, first)?;
            let second = consequent_of(alloc, bound, sense, second)?;
            choice(alloc, sense, *condition, first, second)
        }
        Property::Next(count, body) => {
            let body = consequent_of(alloc, bound, sense, body)?;
            later(alloc, *count, body)
        }
        Property::Always(least, most, body) => {
            let body = consequent_of(alloc, bound, sense, body)?;
            at_each(alloc, sense, *least, *most, body)
        }
        Property::Eventually(least, most, body) => {
            let body = consequent_of(alloc, bound, sense, body)?;
            at_some(alloc, sense, *least, *most, body)
        }
        Property::Until(first, second) => {
            let first = consequent_of(alloc, bound, Sense::Kept, first)?;
            let second = consequent_of(alloc, bound, Sense::Kept, second)?;
            until(alloc, bound, sense, &first, second)
        }
        Property::UntilWith(first, second) => {
            let first = consequent_of(alloc, bound, Sense::Kept, first)?;
            let second = consequent_of(alloc, bound, Sense::Kept, second)?;
            until_with(alloc, bound, sense, &first, second)
        }
    }
}

/// The same of `first implies second`.
#[cycle(consequent)]
fn implies(
    alloc: Global,
    bound: u8,
    sense: Sense,
    first: &Property,
    second: &Property,
) -> Result<Box<Sequence>, Refusal>
    ensures { IfOk result (λ b.
        SaysImplies sense bound first.now second.now (written_form b.value)) }
{
    let missed = consequent_of(alloc, bound, sense.opposite(), first)?;
    let second = consequent_of(alloc, bound, sense, second)?;
    disjunction(alloc, sense, missed, second)
}
