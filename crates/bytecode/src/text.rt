//! Words and paths.

ghost use Rattle.std.specs.Prelude.{◌≡◌, length, true, false, string_bytes};
ghost use Rattle.bytecode_programs.specs.Texts.{is_first, is_later, begins};
ghost use Rattle.bytecode.specs.Reading.{Gives, bytes_at, text_at};

use crate::field::{Field, two_at};
use crate::read::read;
use crate::stop::Stop;
use std::alloc::Global;
use std::str;

/// Whether a word may begin with the byte.
fn is_first(byte: u8) -> bool
    ensures { result ≡ is_first byte }
{
    (65 <= byte && byte <= 90) || (97 <= byte && byte <= 122) || byte == 95
}

/// Whether a word may go on with the byte.
fn is_later(byte: u8) -> bool
    ensures { result ≡ is_later byte }
{
    is_first(byte) || (48 <= byte && byte <= 57) || byte == 36
}

/// Whether the bytes are a word, or with dots words that are joined by them.
fn is_text(bytes: &[u8], dots: bool) -> bool
    ensures { result ≡ begins dots bytes.now }
{
    let mut begins = true;
    for byte in bytes {
        if begins {
            if !is_first(*byte) {
                return false;
            }
            begins = false;
            continue;
        }
        if *byte == 46 {
            if !dots {
                return false;
            }
            begins = true;
            continue;
        }
        if !is_later(*byte) {
            return false;
        }
    }
    !begins
}

/// A length of two bytes, and as many.
#[tactic(auto, unfolding(crate::specs::Reading::bytes_at))]
fn bytes_at(bytes: &[u8]) -> Field<'_, &[u8]>
    ensures { Gives (λ x. (x.0.now, x.1.now)) result (bytes_at bytes.now) }
{
    let (count, rest) = read!(two_at(bytes));
    let count = count as usize;
    if rest.len() < count {
        return Err(Stop::Cut);
    }
    Ok(rest.split_at(count))
}

/// A word, or with dots words that are joined by them.
pub(crate) fn text_at(alloc: Global, bytes: &[u8], dots: bool) -> Field<'_, String>
    ensures { Gives (λ x. (string_bytes x.0, x.1.now)) result (text_at (begins dots) bytes.now) }
{
    let (text, rest) = read!(bytes_at(bytes));
    if !is_text(text, dots) {
        return Err(Stop::Field(bytes.len()));
    }
    let Ok(text) = str::from_utf8(text) else {
        unreachable!()
    };
    Ok((String::from_str(alloc, text)?, rest))
}
