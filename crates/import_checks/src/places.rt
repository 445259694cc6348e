//! What stands at a place of an opening.

ghost use Rattle.std.specs.Prelude.{IfSome};
ghost use Rattle.import_checks.specs.Values.{IsPart, IsValue};

use import_elaboration::{Part, PartId, Parts, Value, ValueId};

/// A value by its place.
pub(crate) fn value_at<'t>(parts: &Parts<'t>, id: ValueId) -> Option<Value<'t>>
    ensures { IfSome result (IsValue parts.now id) }
{
    match parts.values.get(id.0) {
        Some(node) => Some(node.value),
        None => None,
    }
}

/// A part by its place.
pub(crate) fn part_at(parts: &Parts<'_>, id: PartId) -> Option<Part>
    ensures { IfSome result (IsPart parts.now id) }
{
    match parts.parts.get(id.0) {
        Some(node) => Some(node.part),
        None => None,
    }
}
