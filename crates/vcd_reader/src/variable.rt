//! The variables of a header.

ghost use Rattle.std.specs.Prelude.{◌≡◌, ◌≤◌, true};
ghost use Rattle.vcd_reader.specs.Variables.{can_bind, has_no_digits};

/// A variable of the header.
#[derive(Drop)]
pub(crate) struct Variable {
    /// The place inside the scopes that were open.
    pub(crate) scope: u32,
    pub(crate) name: Vec<u8>,
    pub(crate) code: Vec<u8>,
    /// Bits, as declared.
    pub(crate) size: u32,
    /// Whether its changes are vectors of 1 to 128 digits.
    pub(crate) bindable: bool,
    ghost low: { bindable ≡ true → 1 ≤ size },
    ghost high: { bindable ≡ true → size ≤ 128 },
}

/// A variable of a dump that can be bound.
#[derive(Clone, Copy, PartialEq, Eq)]
pub struct VarId {
    pub(crate) place: usize,
}

/// A path that can be bound, with its width in bits, 1 to 128.
#[derive(Drop)]
pub struct Name {
    /// The scopes and the name, joined by dots.
    pub path: Vec<u8>,
    pub width: u32,
}

fn is_no_vector(kind: &[u8]) -> bool
    ensures { result ≡ has_no_digits kind.now }
{
    kind == b"real".as_slice()
        || kind == b"realtime".as_slice()
        || kind == b"string".as_slice()
        || kind == b"event".as_slice()
}

/// Whether a variable of that type and size can be bound.
pub(crate) fn has_digits(kind: &[u8], size: u32) -> bool
    ensures { result ≡ can_bind kind.now size }
{
    1 <= size && size <= 128 && !is_no_vector(kind)
}
