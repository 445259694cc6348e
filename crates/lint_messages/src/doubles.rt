//! Where the first of two equal names stands.

use crate::meant::Meant;
use diagnostics::{Place, place_of};
use parser::{File, ItemTree};
use source_files::{Origin, spot_in};
use std::alloc::{AllocError, Global};

/// The byte at which an item of that name stands, if it is before a byte.
fn byte_before(item: &ItemTree, name: &str, end: usize) -> Option<usize> {
    let token = match item {
        ItemTree::Counter(counter) => counter.name,
        ItemTree::Declaration(declaration) => declaration.name,
        ItemTree::Assertion(assertion) => assertion.label?,
    };
    if token.text == name && token.at < end {
        Some(token.at)
    } else {
        None
    }
}

/// The byte at which a name first stands for an item, if that is before a byte.
fn first_byte(file: &File, name: &str, end: usize) -> Option<usize> {
    for item in &file.items {
        if let Some(at) = byte_before(item, name, end) {
            return Some(at);
        }
    }
    None
}

/// A byte of the text as FILE:LINE:COLUMN; nothing where it stands in no file.
fn told_place(alloc: Global, origin: &Origin<'_>, at: usize) -> Result<String, AllocError> {
    let spot = spot_in(origin, at);
    let Some(part) = origin.parts.get(spot.part) else {
        return Ok(String::new(alloc));
    };
    let path = part.path.as_str();
    let Place { line, column } = place_of(part.text.as_str(), spot.at);
    format!(in alloc; "; the first one stands at {path}:{line}:{column}")
}

/// What is told of a name that stands for two items, by the byte of the second.
pub(crate) fn told_double(
    alloc: Global,
    meant: &Meant<'_>,
    file: &File,
    name: &str,
    at: usize,
) -> Result<String, AllocError> {
    let first = match first_byte(file, name, at) {
        None => String::new(alloc),
        Some(first) => told_place(alloc, &meant.origin, first)?,
    };
    let first = first.as_str();
    format!(in alloc; "Y2 Duplicate {name}{first}")
}
