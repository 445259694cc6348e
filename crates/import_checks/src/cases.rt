//! Parts that are cases.

ghost use Rattle.std.specs.Prelude.{IsTrue, IfSome};
ghost use Rattle.import_checks.specs.Properties.{IsChoice, IsListed, IsTest, IsOneOf};

use crate::places::value_at;
use import_elaboration::{Choice, ChoiceId, Parts, Value, ValueId};
use import_trees::Infix;

/// An item of a case, by its place.
pub(crate) fn choice_at(parts: &Parts<'_>, id: ChoiceId) -> Option<Choice>
    ensures { IfSome result (IsChoice parts.now id) }
{
    match parts.choices.get(id.0) {
        Some(choice) => Some(*choice),
        None => None,
    }
}

/// A value of a list, by its place.
fn listed_at(parts: &Parts<'_>, place: usize) -> Option<ValueId>
    ensures { IfSome result (IsListed parts.now place) }
{
    match parts.listed.get(place) {
        Some(id) => Some(*id),
        None => None,
    }
}

/// Whether a value says that another one is the value of a list at a place.
fn is_test(parts: &Parts<'_>, test: ValueId, value: ValueId, place: usize) -> bool
    ensures { IsTrue result → IsTest parts.now test value place }
{
    match (value_at(parts, test), listed_at(parts, place)) {
        (Some(Value::Infix(Infix::CaseEqual, first, second)), Some(member)) => {
            first == value && second == member
        }
        _ => false,
    }
}

/// Whether a value says that another one is one of so many of a list.
pub(crate) fn is_one_of(
    parts: &Parts<'_>,
    whole: ValueId,
    value: ValueId,
    first: usize,
    count: usize,
) -> bool
    ensures { IsTrue result → IsOneOf parts.now value first count whole }
{
    if count == 1 {
        return is_test(parts, whole, value, first);
    }
    if count == 0 {
        return false;
    }
    let Some(last) = first.checked_add(count - 1) else {
        return false;
    };
    match value_at(parts, whole) {
        Some(Value::Infix(Infix::Or, before, test)) => {
            if !is_test(parts, test, value, last) {
                return false;
            }
            is_one_of(parts, before, value, first, count - 1)
        }
        _ => false,
    }
}
