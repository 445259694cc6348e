//! Sides of assertions, and what is wrong with them.

ghost use Rattle.std.specs.Prelude.{◌≡◌};
ghost use Rattle.types_names.specs.Faults.{least};
ghost use Rattle.types.specs.Sides.{places_where, is_wide, is_degenerate, is_side_empty};

use crate::facts::Facts;
use assertions::HEAVIEST;
use types_signals::earlier;

/// What is known of an antecedent or a consequent, with the byte of its first token but brackets.
#[derive(Clone, Copy)]
pub(crate) struct Side {
    pub facts: Facts,
    /// Whether it matches a tick or more, were every boolean true, if it weighs at most 127.
    pub ticks: bool,
    /// Whether only its first match counts.
    pub first: bool,
    pub at: usize,
}

/// The first side that weighs over 127.
pub(crate) fn first_wide(sides: &[Side]) -> Option<usize>
    ensures { result ≡ least (places_where is_wide sides.now) }
{
    let mut fault = None;
    for side in sides {
        if usize::from(side.facts.weight) > HEAVIEST {
            fault = earlier(fault, Some(side.at));
        }
    }
    fault
}

/// The first side that matches no tick, or whose first match takes none where only that counts.
pub(crate) fn first_degenerate(sides: &[Side]) -> Option<usize>
    ensures { result ≡ least (places_where is_degenerate sides.now) }
{
    let mut fault = None;
    for side in sides {
        if !side.ticks || (side.first && side.facts.empty) {
            fault = earlier(fault, Some(side.at));
        }
    }
    fault
}

/// The first side that matches an empty segment.
pub(crate) fn first_empty(sides: &[Side]) -> Option<usize>
    ensures { result ≡ least (places_where is_side_empty sides.now) }
{
    let mut fault = None;
    for side in sides {
        if side.facts.empty {
            fault = earlier(fault, Some(side.at));
        }
    }
    fault
}
