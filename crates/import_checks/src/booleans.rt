//! Parts that ask for one boolean at one tick.

ghost use Rattle.std.specs.Prelude.{IsTrue};
ghost use Rattle.import_checks.specs.Booleans.{IsBoolean};

use crate::counts::has_count;
use crate::joint::{Joint, joint_of};
use crate::places::part_at;
use crate::truths::{is_truth, sides_of};
use import_elaboration::{Part, PartId, Parts};
use import_properties::Condition;

/// How deep parts may lie in one another, in steps of this crate.
pub const MOST_DEPTH: usize = 10_000;

/// Whether a part asks for a boolean at one tick.
#[cycle(booleans)]
pub(crate) fn is_boolean(
    parts: &Parts<'_>,
    bound: Option<u8>,
    id: PartId,
    condition: Condition,
    depth: usize,
) -> bool
    ensures { IsTrue result → IsBoolean parts.now bound id condition }
{
    if depth == 0 {
        return false;
    }
    match part_at(parts, id) {
        Some(Part::Boolean(value)) => is_truth(parts, value, condition),
        Some(Part::Strength(body)) => is_boolean(parts, bound, body, condition, depth - 1),
        Some(Part::FirstMatch(body)) => is_boolean(parts, bound, body, condition, depth - 1),
        Some(Part::Assigned(body, _)) => is_boolean(parts, bound, body, condition, depth - 1),
        Some(Part::Not(body)) => is_boolean(parts, bound, body, condition.negation(), depth - 1),
        Some(Part::Repeat(body, count)) => {
            if !has_count(bound, count, 1, 1) {
                return false;
            }
            is_boolean(parts, bound, body, condition, depth - 1)
        }
        _ => is_join(parts, bound, id, condition, depth - 1),
    }
}

/// Whether a part joins two that are booleans, and asks for what they are joined to.
#[cycle(booleans)]
fn is_join(
    parts: &Parts<'_>,
    bound: Option<u8>,
    id: PartId,
    condition: Condition,
    depth: usize,
) -> bool
    ensures { IsTrue result → IsBoolean parts.now bound id condition }
{
    if depth == 0 {
        return false;
    }
    let Some(part) = part_at(parts, id) else {
        return false;
    };
    let Some((joint, first, second)) = joint_of(part) else {
        return false;
    };
    let Some((one, other)) = sides_of(parts, joint, condition) else {
        return false;
    };
    if is_boolean(parts, bound, first, one, depth - 1) {
        return is_boolean(parts, bound, second, other, depth - 1);
    }
    if joint != Joint::Alike {
        return false;
    }
    if !is_boolean(parts, bound, first, one.negation(), depth - 1) {
        return false;
    }
    is_boolean(parts, bound, second, other.negation(), depth - 1)
}
