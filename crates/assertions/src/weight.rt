//! What sequences weigh.

ghost use Rattle.std.specs.Prelude.{◌≡◌, ◌+◌, ◌*◌, ◌≤◌, ◌↔◌, min, IsTrue, MatchOption};
ghost use Rattle.assertions.specs.Written.{weight, IsOrdered};
ghost use Rattle.assertions.specs.Shapes.{written_form, IsUnfit};

use crate::sequence::Sequence;

/// The most that an antecedent or a consequent may weigh.
pub const HEAVIEST: usize = 127;

/// Whether in each range the least comes first.
fn is_ordered(sequence: &Sequence) -> bool
    ensures { IsTrue result ↔ IsOrdered (written_form sequence.now) }
{
    match sequence {
        Sequence::Boolean(_) => true,
        Sequence::Delay(first, least, most, second) => {
            *least <= *most && is_ordered(first) && is_ordered(second)
        }
        Sequence::Lead(least, most, body) => *least <= *most && is_ordered(body),
        Sequence::Repeat(body, least, most) => *least <= *most && is_ordered(body),
        Sequence::Or(first, second) => is_ordered(first) && is_ordered(second),
        Sequence::And(first, second) => is_ordered(first) && is_ordered(second),
        Sequence::Intersect(first, second) => is_ordered(first) && is_ordered(second),
        Sequence::Throughout(_, body) => is_ordered(body),
    }
}

/// The number, or 128 where it is over that.
fn cap(weight: usize) -> usize
    ensures { result ≡ min weight 128 }
{
    weight.min(HEAVIEST + 1)
}

/// What the sequence weighs, or 128 where that is more.
fn capped_weight(sequence: &Sequence) -> usize
    ensures { result ≡ min (weight (written_form sequence.now)) 128 }
{
    match sequence {
        Sequence::Boolean(_) => 1,
        Sequence::Delay(first, _, most, second) => {
            cap(capped_weight(first) + capped_weight(second) + *most as usize)
        }
        Sequence::Lead(_, most, body) => cap(capped_weight(body) + *most as usize),
        Sequence::Repeat(body, _, most) => cap(*most as usize * capped_weight(body)),
        Sequence::Or(first, second) => cap(capped_weight(first) + capped_weight(second)),
        Sequence::And(first, second) => {
            cap((capped_weight(first) + 1) * (capped_weight(second) + 1))
        }
        Sequence::Intersect(first, second) => cap(capped_weight(first) * capped_weight(second)),
        Sequence::Throughout(_, body) => capped_weight(body),
    }
}

/// What the sequence weighs, or none where that is over 127 or the first of a range is over the
/// second.
pub fn weight_of(sequence: &Sequence) -> Option<usize>
    ensures { MatchOption result
        (IsUnfit (written_form sequence.now))
        (λ weight_is. (weight_is ≡ weight (written_form sequence.now)) × (weight_is ≤ 127)
        × IsOrdered (written_form sequence.now)) }
{
    let weight = capped_weight(sequence);
    if weight > HEAVIEST || !is_ordered(sequence) {
        return None;
    }
    Some(weight)
}
