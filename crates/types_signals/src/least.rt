//! The earlier of two places.

ghost use Rattle.std.specs.Prelude.{◌≡◌};
ghost use Rattle.types_names.specs.Faults.{earlier};

/// The smaller of two places, or the only one that is there.
pub fn earlier(first: Option<usize>, second: Option<usize>) -> Option<usize>
    ensures { result ≡ earlier first second }
{
    match (first, second) {
        (Some(one), Some(other)) => Some(one.min(other)),
        (Some(one), None) => Some(one),
        (None, other) => other,
    }
}
