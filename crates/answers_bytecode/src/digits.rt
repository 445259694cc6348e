//! Bytes that hexadecimal digits spell.

ghost use Rattle.std.specs.Prelude.{◌<◌};

use anyhow::Result;
use std::alloc::Global;

/// The value of a hexadecimal digit, 0 for other bytes.
fn digit(byte: u8) -> u8
    ensures { result < 16 }
{
    match byte {
        b'0'..=b'9' => byte - b'0',
        b'a'..=b'f' => byte - b'a' + 10,
        _ => 0,
    }
}

/// The bytes that hexadecimal digits spell, line after line, each of an even number of digits.
pub(crate) fn bytes_of(alloc: Global, digits: &str) -> Result<Vec<u8>> {
    let mut bytes = Vec::new(alloc);
    for line in digits.lines() {
        for pair in line.as_bytes().chunks_exact(2) {
            bytes.push(digit(pair[0]) * 16 + digit(pair[1]))?;
        }
    }
    Ok(bytes)
}
