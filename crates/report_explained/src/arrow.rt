//! What stands between the sides of an assertion.

ghost use Rattle.std.specs.Prelude.{◌≡◌};
ghost use Rattle.assertions.specs.Shapes.{written_form};
ghost use Rattle.report_explained.specs.Arrows.{is_one, arrow_of, back_of};

use assertions::{Assertion, Boolean, Sequence};

/// What stands between the antecedent and the consequent, if there is an antecedent.
#[derive(Clone, Copy, PartialEq, Eq)]
pub enum Arrow {
    /// There is no antecedent: a sequence stands alone.
    Alone,
    /// `|->`: the consequent begins at the clock with which a match of the antecedent ends.
    Overlapped,
    /// `|=>`: it begins at the clock after it.
    Following,
}

/// Whether a sequence is the constant 1, which no text writes: it stands for an antecedent where
/// none is written, and ends the antecedent of `|=>`.
fn is_one(sequence: &Sequence) -> bool
    ensures { result ≡ is_one (written_form sequence.now) }
{
    matches!(sequence, Sequence::Boolean(Boolean::One))
}

/// What stands between the sides of an assertion.
pub(crate) fn arrow_of(assertion: &Assertion) -> Arrow
    ensures { result ≡ arrow_of (written_form assertion.now.antecedent) }
{
    match &assertion.antecedent {
        Sequence::Delay(_, _, _, last) => {
            if is_one(last) {
                Arrow::Following
            } else {
                Arrow::Overlapped
            }
        }
        other => {
            if is_one(other) {
                Arrow::Alone
            } else {
                Arrow::Overlapped
            }
        }
    }
}

impl Arrow {
    /// How many clocks before the one from which the consequent is asked a match of the antecedent
    /// ended.
    pub fn back(self) -> usize
        ensures { result ≡ back_of self }
    {
        match self {
            Arrow::Following => 1,
            _ => 0,
        }
    }
}
