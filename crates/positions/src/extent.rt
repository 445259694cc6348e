//! Whether a sequence matches an empty segment, and whether it weighs anything.

ghost use Rattle.std.specs.Prelude.{◌≡◌, ◌≤◌};
ghost use Rattle.assertions.specs.Emptiness.{admits_empty};
ghost use Rattle.assertions.specs.Written.{weight, IsOrdered};
ghost use Rattle.assertions.specs.Shapes.{written_form};
ghost use Rattle.positions.specs.Plans.{weighs};

use assertions::{HEAVIEST, Sequence, weight_of};

/// Whether it weighs anything: else no match of it takes a tick.
pub(crate) fn is_weighty(sequence: &Sequence) -> bool
    requires ordered { IsOrdered (written_form sequence.now) }
    requires bound { weight (written_form sequence.now) ≤ 127 }
    ensures { result ≡ weighs (written_form sequence.now) }
{
    weight_of(sequence).unwrap_or(HEAVIEST) > 0
}

/// Whether it matches an empty segment.
pub(crate) fn is_nullable(sequence: &Sequence) -> bool
    ensures { result ≡ admits_empty (written_form sequence.now) }
{
    match sequence {
        Sequence::Boolean(_) => false,
        Sequence::Delay(first, least, most, second) => {
            (*least <= 1 && *most >= 1) && (is_nullable(first) && is_nullable(second))
        }
        Sequence::Lead(least, _, body) => *least == 0 && is_nullable(body),
        Sequence::Repeat(body, least, _) => *least == 0 || is_nullable(body),
        Sequence::Or(first, second) => is_nullable(first) || is_nullable(second),
        Sequence::And(first, second) => is_nullable(first) && is_nullable(second),
        Sequence::Intersect(first, second) => is_nullable(first) && is_nullable(second),
        Sequence::Throughout(_, body) => is_nullable(body),
    }
}
