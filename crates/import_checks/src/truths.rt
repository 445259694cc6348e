//! Where values are true.

ghost use Rattle.std.specs.Prelude.{◌≡◌, IsTrue, IfSome};
ghost use Rattle.import_properties.specs.declared.condition.Condition.TheVariants.{Leaf};
ghost use Rattle.import_checks.specs.declared.joint.Joint.TheVariants.{Both, Either, Alike};
ghost use Rattle.import_checks.specs.Values.{IsTruth, IsNegation, constant};
ghost use Rattle.import_checks.specs.Booleans.{JoinsTo};

use crate::joint::Joint;
use crate::places::value_at;
use import_elaboration::{Parts, Value, ValueId};
use import_properties::Condition;
use import_trees::{Infix, Prefix};

/// How many negations of a value are followed.
const MOST_NEGATIONS: usize = 1_000;

/// The constant that is always so.
fn constant(value: bool) -> Condition
    ensures { result ≡ constant value }
{
    if value {
        Condition::One
    } else {
        Condition::Zero
    }
}

/// The boolean that a value is, so many negations deep: a constant, a leaf, or the negation of one.
fn truth_at(parts: &Parts<'_>, id: ValueId, depth: usize) -> Option<Condition>
    ensures { IfSome result (IsTruth parts.now id) }
{
    if depth == 0 {
        return None;
    }
    match value_at(parts, id) {
        Some(Value::Prefix(Prefix::Not, operand)) => {
            match truth_at(parts, operand, depth - 1) {
                Some(inside) => Some(inside.negation()),
                None => None,
            }
        }
        Some(Value::Number(number)) if number.unknown == 0 => Some(constant(number.value != 0)),
        Some(Value::Fill(bit)) => Some(constant(bit)),
        _ => Some(Condition::Leaf(id.0)),
    }
}

/// The boolean that a value is: a constant, a leaf, or the negation of one.
pub(crate) fn truth_of(parts: &Parts<'_>, id: ValueId) -> Option<Condition>
    ensures { IfSome result (IsTruth parts.now id) }
{
    truth_at(parts, id, MOST_NEGATIONS)
}

/// Whether a value is a boolean.
pub(crate) fn is_truth(parts: &Parts<'_>, id: ValueId, condition: Condition) -> bool
    ensures { IsTrue result → IsTruth parts.now id condition }
{
    match truth_of(parts, id) {
        Some(found) => found == condition,
        None => false,
    }
}

/// The booleans of two values.
fn truths_of(parts: &Parts<'_>, first: ValueId, second: ValueId) -> Option<(Condition, Condition)>
    ensures first { IfSome result (λ r. IsTruth parts.now first r.0) }
    ensures second { IfSome result (λ r. IsTruth parts.now second r.1) }
{
    match (truth_of(parts, first), truth_of(parts, second)) {
        (Some(one), Some(other)) => Some((one, other)),
        _ => None,
    }
}

/// The two booleans that a value joins by `&&`.
fn both_of(parts: &Parts<'_>, id: ValueId) -> Option<(Condition, Condition)>
    ensures { IfSome result (λ r. JoinsTo parts.now Both r.0 r.1 (Leaf id.0)) }
{
    match value_at(parts, id) {
        Some(Value::Infix(Infix::And, first, second)) => truths_of(parts, first, second),
        _ => None,
    }
}

/// The two booleans that a value joins by `||`.
fn either_of(parts: &Parts<'_>, id: ValueId) -> Option<(Condition, Condition)>
    ensures { IfSome result (λ r. JoinsTo parts.now Either r.0 r.1 (Leaf id.0)) }
{
    match value_at(parts, id) {
        Some(Value::Infix(Infix::Or, first, second)) => truths_of(parts, first, second),
        _ => None,
    }
}

/// The boolean whose negation a value is by its operator.
fn is_negation(parts: &Parts<'_>, id: ValueId) -> bool
    ensures { IsTrue result → IsNegation parts.now id }
{
    matches!(value_at(parts, id), Some(Value::Prefix(Prefix::Not, _)))
}

/// The two booleans that a value compares, where they are negations.
fn alike_of(parts: &Parts<'_>, id: ValueId) -> Option<(Condition, Condition)>
    ensures { IfSome result (λ r. JoinsTo parts.now Alike r.0 r.1 (Leaf id.0)) }
{
    match value_at(parts, id) {
        Some(Value::Infix(Infix::Equal, first, second)) => {
            if !is_negation(parts, first) {
                return None;
            }
            if !is_negation(parts, second) {
                return None;
            }
            truths_of(parts, first, second)
        }
        Some(Value::Infix(Infix::NotEqual, first, second)) => {
            if !is_negation(parts, first) {
                return None;
            }
            if !is_negation(parts, second) {
                return None;
            }
            match truths_of(parts, first, second) {
                Some((one, other)) => Some((one, other.negation())),
                None => None,
            }
        }
        _ => None,
    }
}

/// Two booleans that one joins so, by the operator of its value.
pub(crate) fn sides_of(
    parts: &Parts<'_>,
    joint: Joint,
    whole: Condition,
) -> Option<(Condition, Condition)>
    ensures { IfSome result (λ r. JoinsTo parts.now joint r.0 r.1 whole) }
{
    let Condition::Leaf(place) = whole else {
        return None;
    };
    let id = ValueId(place);
    match joint {
        Joint::Both => both_of(parts, id),
        Joint::Either => either_of(parts, id),
        Joint::Implying => match either_of(parts, id) {
            Some((one, other)) => Some((one.negation(), other)),
            None => None,
        },
        Joint::Alike => alike_of(parts, id),
    }
}
