//! After each end of a sequence, another one: as one sequence.

ghost use Rattle.std.specs.Prelude.{◌≡◌, ◌≤◌, ℕ, false, IfOk};
ghost use Rattle.assertions.specs.Segments as kernel;
ghost use Rattle.assertions.specs.Written.{IsOrdered, kernel as kernel_of};
ghost use Rattle.assertions.specs.Emptiness.{admits_empty};
ghost use Rattle.import_properties.specs.declared.condition.Condition.TheVariants.{One};
ghost use Rattle.import_properties.specs.Properties.{Form, implied};
ghost use Rattle.import_properties.specs.Shapes.{written_form};
ghost use Rattle.import_properties.specs.declared.condition.Condition.{Condition};
ghost use Rattle.import_rewriting.specs.Sides.{Says, IsConsequent};
ghost use Rattle.import_rewriting.specs.Ends.{SaysAfterEachEnd};

use crate::make::{both, copy_of, each_later, later, unless};
use crate::measure::may_be_empty;
use crate::refusal::Refusal;
use import_properties::Sequence;
use std::alloc::Global;

/// A sequence that says what `antecedent |-> consequent` does: from the last tick of each match of
/// the antecedent that isn't empty, the consequent.
#[cycle(ends)]
pub(crate) fn ends_of(
    alloc: Global,
    antecedent: &Sequence,
    consequent: &Sequence,
) -> Result<Box<Sequence>, Refusal>
    requires { IsOrdered (written_form antecedent.now) }
    ensures { IfOk result (λ b. (bound : ℕ) (p : Form Condition)
        → Says bound p (written_form consequent.now)
        → Says bound (implied (kernel_of One (written_form antecedent.now)) p)
        (written_form b.value)) }
{
    match antecedent {
        Sequence::Boolean(boolean) => {
            let body = copy_of(alloc, consequent)?;
            unless(alloc, *boolean, body)
        }
        Sequence::Or(first, second) => {
            let first = ends_of(alloc, first, consequent)?;
            let second = ends_of(alloc, second, consequent)?;
            both(alloc, first, second)
        }
        Sequence::Delay(first, least, most, second) => {
            if may_be_empty(first) || may_be_empty(second) {
                return Err(Refusal::Negation);
            }
            let rest = ends_of(alloc, second, consequent)?;
            let all = each_later(alloc, *least, *most, &rest)?;
            ends_of(alloc, first, &all)
        }
        Sequence::Lead(least, most, body) => {
            if may_be_empty(body) {
                return Err(Refusal::Negation);
            }
            let rest = ends_of(alloc, body, consequent)?;
            each_later(alloc, *least, *most, &rest)
        }
        Sequence::Repeat(body, least, most) => {
            if may_be_empty(body) || *most == 0 {
                return Err(Refusal::Negation);
            }
            ends_of_repetition(alloc, body, *least, *most, consequent)
        }
        Sequence::And(_, _) | Sequence::Intersect(_, _) | Sequence::Throughout(_, _) => {
            Err(Refusal::Negation)
        }
    }
}

/// The same of `body[*least:most]`.
#[cycle(ends)]
fn ends_of_repetition(
    alloc: Global,
    body: &Sequence,
    least: u8,
    most: u8,
    consequent: &Sequence,
) -> Result<Box<Sequence>, Refusal>
    requires ordered { IsOrdered (written_form body.now) }
    requires some { admits_empty (written_form body.now) ≡ false }
    requires range { least ≤ most }
    requires ends { 1 ≤ most }
    ensures { IfOk result (λ b. (bound : ℕ) (p : Form Condition)
        → Says bound p (written_form consequent.now)
        → Says bound (implied (kernel.times (kernel_of One (written_form body.now)) least most) p)
        (written_form b.value)) }
{
    if most == 1 {
        return ends_of(alloc, body, consequent);
    }
    let rest = ends_of_repetition(alloc, body, least.saturating_sub(1), most - 1, consequent)?;
    let next = later(alloc, 1, rest)?;
    if least > 1 {
        return ends_of(alloc, body, &next);
    }
    let copy = copy_of(alloc, consequent)?;
    let all = both(alloc, copy, next)?;
    ends_of(alloc, body, &all)
}

/// A sequence that comes to what `antecedent |-> consequent` does, after each number of ticks.
pub fn after_each_end(
    alloc: Global,
    antecedent: &Sequence,
    consequent: &Sequence,
) -> Result<Box<Sequence>, Refusal>
    requires ordered { IsOrdered (written_form antecedent.now) }
    requires fit { IsConsequent (written_form consequent.now) }
    ensures { IfOk result (λ b. SaysAfterEachEnd (written_form antecedent.now)
        (written_form consequent.now) (written_form b.value)) }
{
    ends_of(alloc, antecedent, consequent)
}
