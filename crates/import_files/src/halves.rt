//! Two properties for one that is too heavy.

use import_elaboration::{Part, PartId, PartNode, Parts};
use std::alloc::{AllocError, Global};

/// The part at a place, if there is one.
fn node_at(parts: &Parts<'_>, id: PartId) -> Option<PartNode> {
    match parts.parts.get(id.0) {
        Some(node) => Some(*node),
        None => None,
    }
}

/// What a part says of each of its attempts, or of some ticks of these: it says so of `p and q`
/// where it does of both.
fn body_of(part: Part) -> Option<PartId> {
    match part {
        Part::Implication(_, body)
        | Part::NextImplication(_, body)
        | Part::If(_, body)
        | Part::Next(_, body)
        | Part::Always(Some(_), body) => Some(body),
        _ => None,
    }
}

/// The part with another body.
fn with_body(part: Part, body: PartId) -> Part {
    match part {
        Part::Implication(end, _) => Part::Implication(end, body),
        Part::NextImplication(end, _) => Part::NextImplication(end, body),
        Part::If(condition, _) => Part::If(condition, body),
        Part::Next(count, _) => Part::Next(count, body),
        Part::Always(count, _) => Part::Always(count, body),
        other => other,
    }
}

/// What stands around the `and` of a property, from outside to inside, and its two sides.
#[derive(Drop)]
struct Found {
    around: Vec<PartNode>,
    first: PartId,
    second: PartId,
}

/// The `and` in a property, if it is one, or is so after its antecedents.
fn found_in(alloc: Global, parts: &Parts<'_>, body: PartId) -> Result<Option<Found>, AllocError> {
    let mut around = Vec::new(alloc);
    let mut at = body;
    for _ in 0..parts.parts.len() {
        let Some(node) = node_at(parts, at) else {
            return Ok(None);
        };
        if let Part::And(first, second) = node.part {
            return Ok(Some(Found {
                around,
                first,
                second,
            }));
        }
        let Some(inner) = body_of(node.part) else {
            return Ok(None);
        };
        around.push(node)?;
        at = inner;
    }
    Ok(None)
}

/// A side of the `and`, with all that stood around that.
fn with_around(
    parts: &mut Parts<'_>,
    around: &[PartNode],
    side: PartId,
) -> Result<PartId, AllocError> {
    let mut inner = side;
    for node in around.iter().rev() {
        let outer = PartId(parts.parts.len());
        parts.parts.push(PartNode {
            part: with_body(node.part, inner),
            is_sequence: false,
            at: node.at,
        })?;
        inner = outer;
    }
    Ok(inner)
}

/// Two properties of which one fails where `body` does: those with each side of its `and`, if it
/// has one after its antecedents. `import_checks::mean_together` shows that of each two.
pub(crate) fn halves_of(
    alloc: Global,
    parts: &mut Parts<'_>,
    body: PartId,
) -> Result<Option<(PartId, PartId)>, AllocError> {
    let Some(found) = found_in(alloc, parts, body)? else {
        return Ok(None);
    };
    let around = found.around.as_slice();
    let first = with_around(parts, around, found.first)?;
    let second = with_around(parts, around, found.second)?;
    Ok(Some((first, second)))
}
