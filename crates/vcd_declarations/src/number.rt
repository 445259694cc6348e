//! Sizes.

ghost use Rattle.std.specs.Prelude.{◌≡◌};
ghost use Rattle.vcd_declarations.specs.Declarations.{size_in};

use vcd_reader::decimal;

/// The size that the digits are; 0 where they are no decimal below 2^32.
pub(crate) fn size_of(digits: &[u8]) -> u32
    ensures { result ≡ size_in digits.now }
{
    match decimal(digits, 0xffff_ffff) {
        None => 0,
        Some(size) => size as u32,
    }
}
