//! Names of a dump with another range than `[n:0]`.

use crate::facts::Turned;
use crate::range::Range;
use std::alloc::{AllocError, Global};
use vcd_declarations::Header;

/// The number that digits are, if they are a decimal below 2^64.
fn number_of(digits: &[u8]) -> Option<u64> {
    match str::from_utf8(digits) {
        Ok(text) => text.parse::<u64>().ok(),
        Err(_) => None,
    }
}

/// The range of a text as `[31:2]`.
fn range_of(text: &[u8]) -> Option<Range> {
    let colon = text.iter().position(|byte| *byte == b':')?;
    let end = text.len().checked_sub(1)?;
    let first = number_of(text.get(1..colon)?)?;
    let last = number_of(text.get(colon + 1..end)?)?;
    Some(Range { first, last })
}

/// The names of a dump whose declared range isn't `[n:0]`, in the header's order. A range of which
/// a bound is no decimal is left out.
pub fn turned_names(alloc: Global, bytes: &[u8]) -> Result<Vec<Turned>, AllocError> {
    let mut turned = Vec::new(alloc);
    let mut header = Header::new(alloc, bytes);
    'variables: loop {
        let Some(variable) = header.next()? else {
            return Ok(turned);
        };
        let spelling = header.spell(alloc, &variable)?;
        let Some(range) = range_of(spelling.range()) else {
            continue;
        };
        if range.last == 0 {
            continue;
        }
        if let Ok(path) = str::from_utf8(spelling.path()) {
            turned.push(Turned {
                path: String::from_str(alloc, path)?,
                range,
            })?;
        }
    }
}
