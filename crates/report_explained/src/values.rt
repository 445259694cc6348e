//! Values as text.

ghost use Rattle.std.specs.Prelude.{IfOk, string_bytes};
ghost use Rattle.report_explained.specs.SheetText.{AreDigits, IsMarked, IsValueText};

use std::alloc::{AllocError, Global};

/// A value in hexadecimal digits.
fn digits_of(alloc: Global, value: u128) -> Result<String, AllocError>
    ensures { IfOk result (λ text. AreDigits value (string_bytes text)) }
{
    if value <= 0xffff_ffff_ffff_ffff {
        let value = value as u64;
        return format!(in alloc; "{value:x}");
    }
    format!(in alloc; "{value:x}")
}

/// A value in hexadecimal digits after their mark, as `'h1f`.
pub(crate) fn marked_text(alloc: Global, value: u128) -> Result<String, AllocError>
    ensures { IfOk result (λ text. IsMarked value (string_bytes text)) }
{
    let digits = digits_of(alloc, value)?;
    let mut marked = String::from_str(alloc, "'h")?;
    marked.push_str(digits.as_str())?;
    Ok(marked)
}

/// A value of so many bits: in decimal digits up to 4 bits and up to 9, else in hexadecimal ones
/// after a mark, as `'h1f`. So what has no mark is decimal.
///
/// # Errors
///
/// Want of memory alone.
pub fn value_text(alloc: Global, value: u128, width: u8) -> Result<String, AllocError>
    ensures { IfOk result (λ text. IsValueText width value (string_bytes text)) }
{
    if width <= 4 || value <= 9 {
        return format!(in alloc; "{value}");
    }
    marked_text(alloc, value)
}
