//! Properties that are what an opening means.

ghost use Rattle.std.specs.Prelude.{◌≡◌, IsTrue};
ghost use Rattle.import_properties.specs.Properties.{form_of, both};
ghost use Rattle.import_checks.specs.Meanings.{IsMeaning, is_local, has_locals};

use crate::booleans::MOST_DEPTH;
use crate::halves::are_halves;
use crate::properties::is_property;
use import_elaboration::{PartId, Parts, Value, ValueNode};
use import_properties::Property;

/// Whether a value is a local variable, or the end of a sequence.
fn is_local(node: &ValueNode<'_>) -> bool
    ensures { result ≡ is_local node.now.value }
{
    matches!(node.value, Value::Local(_) | Value::Triggered(_))
}

/// Whether a value of an opening is a local variable, or the end of a sequence.
fn has_locals(parts: &Parts<'_>) -> bool
    ensures { result ≡ has_locals parts.now }
{
    parts.values.iter().any(|node| is_local(node))
}

/// Whether a property is what a part of an opening means, where the bound stands for what is left
/// open. Of local variables, and of what `.triggered` says, it isn't known, and the answer is yes.
pub fn is_meaning(parts: &Parts<'_>, bound: Option<u8>, body: PartId, property: &Property) -> bool
    ensures { IsTrue result → IsMeaning parts.now bound body (form_of property.now) }
{
    has_locals(parts) || is_property(parts, bound, body, property, MOST_DEPTH)
}

/// Whether two properties are together what a part of an opening means, each as one of two other
/// parts. Of local variables, and of what `.triggered` says, it isn't known, and the answer is yes.
pub fn mean_together(
    parts: &Parts<'_>,
    bound: Option<u8>,
    body: PartId,
    halves: (PartId, PartId),
    first: &Property,
    second: &Property,
) -> bool
    ensures { IsTrue result
        → IsMeaning parts.now bound body (both (form_of first.now) (form_of second.now)) }
{
    if has_locals(parts) {
        return true;
    }
    let (one, other) = halves;
    if !are_halves(parts, body, one, other, MOST_DEPTH) {
        return false;
    }
    if !is_property(parts, bound, one, first, MOST_DEPTH) {
        return false;
    }
    is_property(parts, bound, other, second, MOST_DEPTH)
}
