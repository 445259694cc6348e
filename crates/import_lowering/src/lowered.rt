//! The property of an opened assertion.

use crate::lowering::{Lowering, part_at};
use crate::polarity::Polarity;
use crate::reason::{Hint, NotLowered, Reason, hinted};
use import_elaboration::{Part, PartId, Parts};
use import_properties::Property;
use std::alloc::Global;

/// How deep parts may lie in one another, in steps of this crate.
pub const MOST_DEPTH: usize = 10_000;

/// The property of an assertion.
#[derive(Drop)]
pub struct Lowered {
    pub property: Property,
    /// Whether the bound stands for an end that is left open.
    pub bounded: bool,
}

/// The property that a part is, all of whose leaves are values of the opening. Where an end is left
/// open, the bound stands for it, in ticks.
pub fn property_of(
    alloc: Global,
    parts: &mut Parts<'_>,
    body: PartId,
    bound: Option<u8>,
) -> Result<Lowered, NotLowered> {
    let node = part_at(parts, body);
    if let Part::Always(None, _) = node.part {
        return Err(hinted(Reason::Always, node.at, Hint::DropAlways));
    }
    let mut lowering = Lowering::new(alloc, bound);
    let property = lowering.property(parts, body, Polarity::Kept, MOST_DEPTH)?;
    Ok(Lowered {
        property: Box::into_inner(property),
        bounded: lowering.bounded,
    })
}
