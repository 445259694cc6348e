//! Values that are worth the same at each width that is large enough (IEEE 1800-2017, 11.6).

use crate::properties::choice_at;
use import_elaboration::{ChoiceId, Parts, Value, ValueId, ValueList};
use import_trees::{Infix, Prefix};

/// Whether what operators make is a test's bit, or a value that isn't worked out.
fn is_widened_alone(parts: &Parts<'_>, id: ValueId) -> bool {
    match parts.values.get(id.0) {
        Some(node) => match node.value {
            Value::Fill(_) | Value::Conditional(_, _, _) => false,
            Value::Prefix(operator, _) => {
                !matches!(operator, Prefix::Minus | Prefix::Plus | Prefix::Complement)
            }
            Value::Infix(operator, _, _) => is_test(operator),
            _ => true,
        },
        None => false,
    }
}

/// Whether an operator tells one bit, whatever the width is at which that is used.
fn is_test(operator: Infix) -> bool {
    matches!(
        operator,
        Infix::And
            | Infix::Or
            | Infix::Equal
            | Infix::NotEqual
            | Infix::CaseEqual
            | Infix::CaseNotEqual
            | Infix::Less
            | Infix::LessEqual
            | Infix::Greater
            | Infix::GreaterEqual
    )
}

/// Whether all of a list are such values.
fn are_all(parts: &Parts<'_>, list: ValueList) -> bool {
    for place in 0..list.count {
        let Some(id) = parts.listed.get(list.first.saturating_add(place)) else {
            return false;
        };
        if !is_widened_alone(parts, *id) {
            return false;
        }
    }
    true
}

/// Whether the value of a `case` and those of its items, up to the last one, are such: all of them
/// are compared at the width of the widest (12.5.1, 16.12.16).
pub(crate) fn are_widened_alone(parts: &Parts<'_>, value: ValueId, last: Option<ChoiceId>) -> bool {
    let mut next = last;
    for _ in 0..parts.choices.len() {
        let Some(choice) = choice_at(parts, next) else {
            break;
        };
        next = choice.before;
        if let Some(values) = choice.values {
            if !are_all(parts, values) {
                return false;
            }
        }
    }
    is_widened_alone(parts, value)
}
