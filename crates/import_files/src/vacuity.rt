//! Whether what is written is vacuous where the property is (IEEE 1800-2017, 16.14.8).

use import_elaboration::{Count, Part, PartId, PartNode};
use import_properties::{Condition, Property, Sequence};
use import_rewriting::Rewriting;
use std::alloc::{AllocError, Global};

/// Whether no part of a property is vacuous where the whole holds. `holds` where a part has to hold
/// for that: `#-#` and `#=#` are vacuous where their sequence has no end, and then they fail.
fn is_plain(property: &Property, holds: bool) -> bool {
    match property {
        Property::Sequence(_) => true,
        Property::Not(body) => is_plain(body, false),
        Property::Next(_, body) | Property::Always(_, _, body) | Property::Eventually(_, _, body) =>
            is_plain(body, holds),
        Property::FollowedBy(_, body) | Property::NextFollowedBy(_, body) => {
            holds && is_plain(body, holds)
        }
        Property::Iff(first, second) => is_plain(first, false) && is_plain(second, false),
        Property::And(first, second)
        | Property::Or(first, second)
        | Property::IfElse(_, first, second)
        | Property::Until(first, second)
        | Property::UntilWith(first, second) => is_plain(first, holds) && is_plain(second, holds),
        Property::Implication(_, _)
        | Property::NextImplication(_, _)
        | Property::If(_, _)
        | Property::Implies(_, _) => false,
    }
}

/// Whether a property is an implication.
fn implies(property: &Property) -> bool {
    matches!(property, Property::Implication(_, _))
}

/// Whether a property is vacuous exactly where its antecedents, at its front, have no end.
fn is_fronted(property: &Property) -> bool {
    match property {
        Property::Implication(_, body)
        | Property::NextImplication(_, body)
        | Property::If(_, body) => is_fronted(body),
        Property::Next(_, body) | Property::Always(_, _, body) if implies(body) => is_fronted(body),
        _ => is_plain(property, true),
    }
}

/// Whether a sequence is the constant 0.
fn is_zero(sequence: &Sequence) -> bool {
    matches!(sequence, Sequence::Boolean(Condition::Zero))
}

/// Whether the body after all antecedents at the front of a property is the constant 0.
fn ends_in_zero(property: &Property) -> bool {
    match property {
        Property::Implication(_, body)
        | Property::NextImplication(_, body)
        | Property::If(_, body)
        | Property::Next(_, body)
        | Property::Always(_, _, body) => ends_in_zero(body),
        Property::Sequence(sequence) => is_zero(sequence),
        _ => false,
    }
}

/// Whether what is written of a property holds vacuously exactly where the property does.
pub(crate) fn keeps_vacuity(property: &Property, rewriting: &Rewriting) -> bool {
    is_fronted(property) && (ends_in_zero(property) || !is_zero(&rewriting.consequent))
}

/// Whether a part is known to be a boolean, by those before it of which that is known.
fn is_known(booleans: &[bool], id: PartId) -> bool {
    match booleans.get(id.0) {
        Some(is_boolean) => *is_boolean,
        None => false,
    }
}

/// Whether a count is the number 1.
fn is_once(count: Count) -> bool {
    count.least == 1 && count.most == Some(1)
}

/// Whether a part is a boolean, or booleans that are joined to one.
fn is_boolean(booleans: &[bool], part: Part) -> bool {
    match part {
        Part::Boolean(_) => true,
        Part::Not(body) | Part::Strength(body) | Part::FirstMatch(body) | Part::Assigned(body, _) =>
            is_known(booleans, body),
        Part::Repeat(body, count) => is_once(count) && is_known(booleans, body),
        Part::And(first, second)
        | Part::Or(first, second)
        | Part::Intersect(first, second)
        | Part::Implies(first, second)
        | Part::Iff(first, second) => is_known(booleans, first) && is_known(booleans, second),
        _ => false,
    }
}

/// Whether `implies` joins two booleans: what is written is a boolean, too, which holds where the
/// first is false, and the property is vacuous there.
pub(crate) fn joins_booleans(alloc: Global, parts: &[PartNode]) -> Result<bool, AllocError> {
    let mut booleans = Vec::new(alloc);
    for node in parts {
        let known = is_boolean(booleans.as_slice(), node.part);
        if known && matches!(node.part, Part::Implies(_, _)) {
            return Ok(true);
        }
        booleans.push(known)?;
    }
    Ok(false)
}
