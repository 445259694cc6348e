//! Variables of a dump that no rule can name.

use std::alloc::{AllocError, Global};
use vcd_declarations::Header;

/// A variable of a dump that no rule can name, and why.
#[derive(Drop)]
pub struct Unnamed {
    pub path: String,
    pub why: &'static str,
}

/// Why no rule can name a variable of that kind and size, if none can.
fn reason_of(kind: &[u8], size: u32) -> Option<&'static str> {
    if kind == b"real".as_slice() || kind == b"realtime".as_slice() {
        return Some("it is a real: compare it in the bench, and name a wire of that");
    }
    if kind == b"string".as_slice() {
        return Some("it is a string: compare it in the bench, and name a wire of that");
    }
    if kind == b"event".as_slice() {
        return Some("it is an event, without a value: turn a reg over where it is triggered");
    }
    if size == 0 {
        return Some("it has 0 bits");
    }
    if size > 128 {
        return Some("it has over 128 bits: name parts of it by wires in the bench");
    }
    None
}

/// The variables of a dump that no rule can name by their kind or their size, in the header's
/// order.
pub fn unnamed_in(alloc: Global, bytes: &[u8]) -> Result<Vec<Unnamed>, AllocError> {
    let mut unnamed = Vec::new(alloc);
    let mut header = Header::new(alloc, bytes);
    'variables: loop {
        let Some(variable) = header.next()? else {
            return Ok(unnamed);
        };
        let Some(why) = reason_of(variable.kind, variable.size) else {
            continue;
        };
        let spelling = header.spell(alloc, &variable)?;
        if let Ok(path) = str::from_utf8(spelling.path()) {
            unnamed.push(Unnamed {
                path: String::from_str(alloc, path)?,
                why,
            })?;
        }
    }
}
