//! Some bits of a signal or a counter.

ghost use Rattle.std.specs.Prelude.{◌≡◌, ◌↔◌, ◌<◌, ◌≤◌, IsSome, IfSome};

use crate::name::Name;

/// The bits of a name from `low` up to and with `high`, numbered from 0 at the right.
#[derive(Clone, Copy, PartialEq, Eq, Debug)]
pub struct Slice {
    pub name: Name,
    pub high: u8,
    pub low: u8,
    pub ghost ordered: { low ≤ high },
    pub ghost inside: { high < name.width },
}

impl Slice {
    /// None where the bits are not all the name's, or `high` is below `low`.
    pub fn new(name: Name, high: u8, low: u8) -> Option<Slice>
        ensures valid { IsSome result ↔ ((low ≤ high) × (high < name.width)) }
        ensures name { IfSome result (λ s. s.name ≡ name) }
        ensures high { IfSome result (λ s. s.high ≡ high) }
        ensures low { IfSome result (λ s. s.low ≡ low) }
    {
        if high < low || high >= name.width {
            return None;
        }
        Some(Slice { name, high, low })
    }
}
