//! Two parts that say together what one says.

ghost use Rattle.std.specs.Prelude.{◌≡◌, IsTrue};
ghost use Rattle.import_checks.specs.Halves.{AreHalves};

use crate::around::{Around, around_at};
use crate::places::part_at;
use import_elaboration::{Part, PartId, Parts};

/// Whether two properties are asked at the ticks of a third one.
fn are_alike(one: Around, other: Around, around: Around) -> bool
    ensures first { IsTrue result → one ≡ around }
    ensures second { IsTrue result → other ≡ around }
{
    one == around && other == around
}

/// Whether two parts say together what one says, so many steps deep.
pub(crate) fn are_halves(
    parts: &Parts<'_>,
    whole: PartId,
    first: PartId,
    second: PartId,
    depth: usize,
) -> bool
    ensures { IsTrue result → AreHalves parts.now whole first second }
{
    if depth == 0 {
        return false;
    }
    if let Some(Part::And(left, right)) = part_at(parts, whole) {
        return left == first && right == second;
    }
    let Some((around, body)) = around_at(parts, whole) else {
        return false;
    };
    let Some((one, left)) = around_at(parts, first) else {
        return false;
    };
    let Some((other, right)) = around_at(parts, second) else {
        return false;
    };
    if !are_alike(one, other, around) {
        return false;
    }
    are_halves(parts, body, left, right, depth - 1)
}
