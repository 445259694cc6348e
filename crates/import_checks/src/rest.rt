//! What is left of a property after the items of a case.

use import_properties::Property;

/// What is left of a property after the items of a case.
#[derive(Clone, Copy)]
pub enum Rest<'p> {
    Nothing,
    Asked(&'p Property),
}
