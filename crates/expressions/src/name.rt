//! What an expression reads: a signal or a counter.

ghost use Rattle.std.specs.Prelude.{◌≡◌, ◌↔◌, ◌≤◌, IsSome, IfSome};

/// Where a name's values stand.
#[derive(Clone, Copy, PartialEq, Eq, Debug)]
pub enum Origin {
    /// In a column of the sampled rows.
    Signal,
    /// In a column of the counters.
    Counter,
}

/// A signal or a counter: its column, from 0, and its width, 1 to 128.
#[derive(Clone, Copy, PartialEq, Eq, Debug)]
pub struct Name {
    pub origin: Origin,
    pub place: usize,
    pub width: u8,
    pub ghost some_bits: { 1 ≤ width },
    pub ghost at_most_128: { width ≤ 128 },
}

impl Name {
    /// None where the width is not 1 to 128.
    pub fn new(origin: Origin, place: usize, width: u8) -> Option<Name>
        ensures valid { IsSome result ↔ ((1 ≤ width) × (width ≤ 128)) }
        ensures origin { IfSome result (λ n. n.origin ≡ origin) }
        ensures place { IfSome result (λ n. n.place ≡ place) }
        ensures width { IfSome result (λ n. n.width ≡ width) }
    {
        if width == 0 || width > 128 {
            return None;
        }
        Some(Name {
            origin,
            place,
            width,
        })
    }
}
