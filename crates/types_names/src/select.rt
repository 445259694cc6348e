//! Selects of bits.

ghost use Rattle.std.specs.Prelude.{◌≡◌};
ghost use Rattle.types_names.specs.Width.{low_of};

use parser_grammar::Select;

/// The low bit of a select.
pub fn low_of(select: Select) -> u128
    ensures { result ≡ low_of select }
{
    match select.low {
        Some(low) => low.value,
        None => select.high.value,
    }
}
