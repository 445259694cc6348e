//! Assertions, with a bound on what they weigh.

ghost use Rattle.std.specs.Prelude.{◌≡◌, ◌≤◌, ◌⊎◌, MatchOption};
ghost use Rattle.assertions.specs.Written.{weight, IsOrdered};
ghost use Rattle.assertions.specs.Shapes.{written_form, IsUnfit};
ghost use Rattle.assertions.specs.Ordered.{IsOrdered-prop};

use crate::sequence::{Boolean, Sequence};
use crate::weight::weight_of;

/// An assertion `antecedent |-> consequent`: from the last tick of each match of the antecedent
/// that isn't empty the consequent must match, or with `first_match` round the antecedent from that
/// of its first one. Neither weighs more than 127.
#[derive(Drop)]
pub struct Assertion {
    /// Its label, or `assert_N` where it has none.
    pub name: String,
    /// Whether `first_match` stands round the antecedent.
    pub first: bool,
    /// The antecedent of `|->`.
    pub antecedent: Sequence,
    pub consequent: Sequence,
    /// An attempt that sees this true is disabled.
    pub disabling: Option<Boolean>,
    /// For each place that a boolean may name, the place of its expression in the suite.
    pub booleans: Vec<usize>,
    pub ghost antecedent_ordered: { IsOrdered (written_form antecedent) } by { IsOrdered-prop
        (written_form antecedent) },
    pub ghost antecedent_bound: { weight (written_form antecedent) ≤ 127 },
    pub ghost consequent_ordered: { IsOrdered (written_form consequent) } by { IsOrdered-prop
        (written_form consequent) },
    pub ghost consequent_bound: { weight (written_form consequent) ≤ 127 },
}

impl Assertion {
    /// An assertion, or none where the first of a range is over the second, or a side weighs more
    /// than 127.
    pub fn new(
        name: String,
        first: bool,
        antecedent: Sequence,
        consequent: Sequence,
        disabling: Option<Boolean>,
        booleans: Vec<usize>,
    ) -> Option<Assertion>
        ensures { MatchOption result
            (IsUnfit (written_form antecedent) ⊎ IsUnfit (written_form consequent))
            (λ made. (made.name ≡ name) × (made.first ≡ first) × (made.antecedent ≡ antecedent)
            × (made.consequent ≡ consequent) × (made.disabling ≡ disabling)
            × (made.booleans ≡ booleans)) }
    {
        if weight_of(&antecedent).is_none() || weight_of(&consequent).is_none() {
            return None;
        }
        Some(Assertion {
            name,
            first,
            antecedent,
            consequent,
            disabling,
            booleans,
        })
    }
}
