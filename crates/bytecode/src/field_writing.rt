//! Fields of every kind of file, written.

ghost use Rattle.std.specs.Prelude.{◌≡◌, ◌<◌, ◌++◌, length, OnOk, string_bytes};
ghost use Rattle.bytecode.specs.Spelling.{two, sixteen, text_spelling};

use std::alloc::AllocError;

/// Puts a number of two bytes after what was written.
pub(crate) fn put_two(out: &mut Vec<u8>, value: u16) -> Result<(), AllocError>
    ensures { OnOk result (out.new.items ≡ out.old.items ++ two value) }
{
    out.extend_from_slice(&value.to_be_bytes())
}

/// Puts a number of sixteen bytes after what was written.
pub(crate) fn put_sixteen(out: &mut Vec<u8>, value: u128) -> Result<(), AllocError>
    ensures { OnOk result (out.new.items ≡ out.old.items ++ sixteen value) }
{
    let high = (value / 0x1_0000_0000_0000_0000) as u64;
    let low = (value % 0x1_0000_0000_0000_0000) as u64;
    out.extend_from_slice(&high.to_be_bytes())?;
    out.extend_from_slice(&low.to_be_bytes())
}

/// Puts a text after what was written.
pub(crate) fn put_text(out: &mut Vec<u8>, text: &str) -> Result<(), AllocError>
    requires { length text.now < 65536 }
    ensures { OnOk result (out.new.items ≡ out.old.items ++ text_spelling text.now) }
{
    put_two(out, text.len() as u16)?;
    out.extend_from_slice(text.as_bytes())
}
