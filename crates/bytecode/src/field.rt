//! Fields of every kind of file: numbers, texts.

ghost use Rattle.std.specs.Prelude.{◌≡◌, ℕ, length, Some, IsTrue, ◌↔◌};
ghost use Rattle.std.specs.Int.{w16, w32, w64};
ghost use Rattle.bytecode.specs.Reading.{Gives, byte_at, number_at, sixteen_at, width_at};

use crate::read::read;
use crate::stop::Stop;

/// A field, and the bytes after it.
pub(crate) type Field<'b, T> = Result<(T, &'b [u8]), Stop>;

/// A byte.
#[tactic(auto, unfolding(crate::specs::Reading::byte_at))]
pub(crate) fn byte_at(bytes: &[u8]) -> Field<'_, u8>
    ensures { Gives (λ x. (x.0, x.1.now)) result (byte_at bytes.now) }
{
    match bytes {
        [] => Err(Stop::Cut),
        [byte, rest @ ..] => Ok((*byte, rest)),
    }
}

/// A number of two bytes.
pub(crate) fn two_at(bytes: &[u8]) -> Field<'_, u16>
    ensures { Gives (λ x. (x.0, x.1.now)) result (number_at w16 bytes.now) }
{
    if bytes.len() < 2 {
        return Err(Stop::Cut);
    }
    let (front, rest) = bytes.split_at(2);
    Ok((u16::from_be_bytes([front[0], front[1]]), rest))
}

/// A number of four bytes.
pub(crate) fn four_at(bytes: &[u8]) -> Field<'_, u32>
    ensures { Gives (λ x. (x.0, x.1.now)) result (number_at w32 bytes.now) }
{
    if bytes.len() < 4 {
        return Err(Stop::Cut);
    }
    let (front, rest) = bytes.split_at(4);
    Ok((
        u32::from_be_bytes([front[0], front[1], front[2], front[3]]),
        rest,
    ))
}

/// A number of eight bytes.
fn eight_at(bytes: &[u8]) -> Field<'_, u64>
    ensures { Gives (λ x. (x.0, x.1.now)) result (number_at w64 bytes.now) }
{
    if bytes.len() < 8 {
        return Err(Stop::Cut);
    }
    let (front, rest) = bytes.split_at(8);
    let number = u64::from_be_bytes([
        front[0], front[1], front[2], front[3], front[4], front[5], front[6], front[7],
    ]);
    Ok((number, rest))
}

/// A number of sixteen bytes.
#[tactic(auto, unfolding(crate::specs::Reading::sixteen_at))]
pub(crate) fn sixteen_at(bytes: &[u8]) -> Field<'_, u128>
    ensures { Gives (λ x. (x.0, x.1.now)) result (sixteen_at bytes.now) }
{
    let (high, rest) = read!(eight_at(bytes));
    let (low, rest) = read!(eight_at(rest));
    Ok((
        u128::from(high) * 0x1_0000_0000_0000_0000 + u128::from(low),
        rest,
    ))
}

/// A width, 1 to 128.
pub(crate) fn width_at(bytes: &[u8]) -> Field<'_, u8>
    ensures { Gives (λ x. (x.0, x.1.now)) result (width_at bytes.now) }
{
    let (width, rest) = read!(byte_at(bytes));
    if 1 <= width && width <= 128 {
        return Ok((width, rest));
    }
    Err(Stop::Field(bytes.len()))
}
