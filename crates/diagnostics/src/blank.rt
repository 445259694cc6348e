//! Texts of which a part is blanked: a line feed stays, and a blank stands for each other byte. So
//! all that is left stands where it stood.

ghost use Rattle.std.specs.Prelude.{◌≡◌, ◌≤◌, ◌++◌, length, map, string_bytes, OnOk};
ghost use Rattle.diagnostics.specs.Blanked.{blank_for, blanked};

use std::alloc::AllocError;

/// What stands for a byte that is blanked.
fn blank_for(byte: u8) -> u8
    ensures { result ≡ blank_for byte }
{
    if byte == b'\n' { b'\n' } else { b' ' }
}

/// Blanks all of some bytes.
fn blank_all(bytes: &mut [u8])
    ensures { bytes.new ≡ map blank_for bytes.old }
{
    for byte in bytes.iter_mut() {
        *byte = blank_for(*byte);
    }
}

/// Blanks the bytes from `start` up to `end` in place.
pub(crate) fn blank(bytes: &mut Vec<u8>, start: usize, end: usize)
    requires order { start ≤ end }
    requires fits { end ≤ length bytes.old.items }
    ensures blanked { bytes.new.items ≡ blanked bytes.old.items start end }
    ensures long { length bytes.new.items ≡ length bytes.old.items }
{
    blank_all(&mut bytes.as_mut_slice()[start..end]);
}

/// Adds what stands for bytes that are blanked.
pub(crate) fn push_blanks(out: &mut String, bytes: &[u8]) -> Result<(), AllocError>
    ensures { OnOk result
        (string_bytes out.new ≡ string_bytes out.old ++ map blank_for bytes.now) }
{
    for byte in bytes {
        out.push_str(if *byte == b'\n' { "\n" } else { " " })?;
    }
    Ok(())
}
