//! Widths of names.

ghost use Rattle.std.specs.Prelude.{◌≡◌, ◌≤◌};

/// A width in bits, 1 to 128.
#[derive(Clone, Copy)]
pub struct Width {
    pub bits: u8,
    pub ghost some_bits: { 1 ≤ bits },
    pub ghost at_most_128: { bits ≤ 128 },
}

impl Width {
    ghost use Rattle.types_names.specs.Scopes.{width_in};

    /// The width, and 1 where it is not 1 to 128.
    pub fn within(bits: u8) -> Width
        ensures { result.bits ≡ width_in bits }
    {
        if bits == 0 || bits > 128 {
            return Width { bits: 1 };
        }
        Width { bits }
    }
}
