//! What a sequence weighs, and what its form tells of it.

ghost use Rattle.std.specs.Prelude.{◌≡◌, ◌+◌, ◌*◌, ◌≤◌, ◌↔◌, min, IsTrue, IfSome, OnOk};
ghost use Rattle.assertions.specs.Written.{boolean as boolean_form};
ghost use Rattle.assertions.specs.Written.{weight, IsOrdered};
ghost use Rattle.assertions.specs.Emptiness.{admits_empty};
ghost use Rattle.import_properties.specs.Shapes.{written_form};
ghost use Rattle.import_rewriting.specs.Sides.{IsAntecedent, IsConsequent, can_match};

use crate::refusal::Refusal;
use import_properties::{Condition, Sequence};

/// The most that a side of an assertion may weigh.
pub const HEAVIEST: usize = 127;

/// The number, or 128 where it is over that.
fn cap(weight: usize) -> usize
    ensures { result ≡ min weight 128 }
{
    weight.min(HEAVIEST + 1)
}

/// What the sequence weighs, or 128 where that is more.
pub(crate) fn capped_weight(sequence: &Sequence) -> usize
    ensures { result ≡ min (weight (written_form sequence.now)) 128 }
{
    match sequence {
        Sequence::Boolean(_) => 1,
        Sequence::Delay(first, _, most, second) => {
            cap(capped_weight(first) + capped_weight(second) + *most as usize)
        }
        Sequence::Lead(_, most, body) => cap(capped_weight(body) + *most as usize),
        Sequence::Repeat(body, _, most) => cap(*most as usize * capped_weight(body)),
        Sequence::Or(first, second) => cap(capped_weight(first) + capped_weight(second)),
        Sequence::And(first, second) => {
            cap((capped_weight(first) + 1) * (capped_weight(second) + 1))
        }
        Sequence::Intersect(first, second) => cap(capped_weight(first) * capped_weight(second)),
        Sequence::Throughout(_, body) => capped_weight(body),
    }
}

/// Whether in each range the least comes first.
pub(crate) fn is_ordered(sequence: &Sequence) -> bool
    ensures { IsTrue result ↔ IsOrdered (written_form sequence.now) }
{
    match sequence {
        Sequence::Boolean(_) => true,
        Sequence::Delay(first, least, most, second) => {
            *least <= *most && is_ordered(first) && is_ordered(second)
        }
        Sequence::Lead(least, most, body) => *least <= *most && is_ordered(body),
        Sequence::Repeat(body, least, most) => *least <= *most && is_ordered(body),
        Sequence::Or(first, second) => is_ordered(first) && is_ordered(second),
        Sequence::And(first, second) => is_ordered(first) && is_ordered(second),
        Sequence::Intersect(first, second) => is_ordered(first) && is_ordered(second),
        Sequence::Throughout(_, body) => is_ordered(body),
    }
}

/// Whether it matches an empty segment, by its form.
pub(crate) fn may_be_empty(sequence: &Sequence) -> bool
    ensures { result ≡ admits_empty (written_form sequence.now) }
{
    match sequence {
        Sequence::Boolean(_) => false,
        Sequence::Delay(first, least, most, second) => {
            (*least <= 1 && 1 <= *most) && (may_be_empty(first) && may_be_empty(second))
        }
        Sequence::Lead(least, _, body) => *least == 0 && may_be_empty(body),
        Sequence::Repeat(body, least, _) => *least == 0 || may_be_empty(body),
        Sequence::Or(first, second) => may_be_empty(first) || may_be_empty(second),
        Sequence::And(first, second) => may_be_empty(first) && may_be_empty(second),
        Sequence::Intersect(first, second) => may_be_empty(first) && may_be_empty(second),
        Sequence::Throughout(_, body) => may_be_empty(body),
    }
}

/// Whether its form tells that it has a match of a tick or more, were every boolean true.
pub(crate) fn can_match(sequence: &Sequence) -> bool
    ensures { result ≡ can_match (written_form sequence.now) }
{
    match sequence {
        Sequence::Boolean(_) => true,
        Sequence::Delay(first, _, _, second) => can_match(first) && can_match(second),
        Sequence::Lead(_, _, body) => can_match(body),
        Sequence::Repeat(body, _, most) => 1 <= *most && can_match(body),
        Sequence::Or(first, second) => can_match(first) || can_match(second),
        Sequence::And(first, second) => can_match(first) && can_match(second),
        Sequence::Intersect(_, _) => false,
        Sequence::Throughout(_, body) => can_match(body),
    }
}

/// The boolean that it is, if it is one.
pub(crate) fn boolean_of(sequence: &Sequence) -> Option<Condition>
    ensures { IfSome result (λ b. written_form sequence.now ≡ boolean_form b) }
{
    match sequence {
        Sequence::Boolean(boolean) => Some(*boolean),
        _ => None,
    }
}

/// Whether it can be an antecedent, or why not.
pub(crate) fn check_antecedent(sequence: &Sequence) -> Result<(), Refusal>
    ensures { OnOk result (IsAntecedent (written_form sequence.now)) }
{
    if !is_ordered(sequence) {
        return Err(Refusal::Unordered);
    }
    if capped_weight(sequence) > HEAVIEST {
        return Err(Refusal::TooHeavy);
    }
    Ok(())
}

/// Whether it can be a consequent, or why not.
pub(crate) fn check_consequent(sequence: &Sequence) -> Result<(), Refusal>
    ensures { OnOk result (IsConsequent (written_form sequence.now)) }
{
    check_antecedent(sequence)?;
    if may_be_empty(sequence) {
        return Err(Refusal::AdmitsEmpty);
    }
    Ok(())
}
