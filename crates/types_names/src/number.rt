//! Numbers of the text.

ghost use Rattle.std.specs.Prelude.{◌≡◌};
ghost use Rattle.types_names.specs.Width.{literal_width, literal_value};

use crate::width::Width;
use lexer::Number;
use signals::Bits;

/// A number's width and value.
pub fn number_bits(number: Number) -> Bits
    ensures width { result.width ≡ literal_width number }
    ensures value { result.value ≡ literal_value number }
{
    Bits::low(Width::within(number.width()).bits, number.value)
}
