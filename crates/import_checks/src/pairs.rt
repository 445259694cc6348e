//! Two properties that begin together.

ghost use Rattle.std.specs.Prelude.{IfSome};
ghost use Rattle.import_checks.specs.Properties.{IsPair};

use crate::places::part_at;
use import_elaboration::{Part, PartId, Parts};

/// How two properties that begin together are joined.
#[derive(Clone, Copy, PartialEq, Eq)]
pub enum Pair {
    /// `p and q`
    And,
    /// `p or q`
    Or,
    /// `p implies q`
    Implies,
    /// `p iff q`
    Iff,
    /// `p until q`
    Until,
    /// `p until_with q`
    UntilWith,
}

/// The two properties of a part, where they are joined so.
pub(crate) fn pair_at(parts: &Parts<'_>, id: PartId, pair: Pair) -> Option<(PartId, PartId)>
    ensures { IfSome result (λ r. IsPair parts.now id pair r.0 r.1) }
{
    match (pair, part_at(parts, id)?) {
        (Pair::And, Part::And(first, second)) => Some((first, second)),
        (Pair::Or, Part::Or(first, second)) => Some((first, second)),
        (Pair::Implies, Part::Implies(first, second)) => Some((first, second)),
        (Pair::Iff, Part::Iff(first, second)) => Some((first, second)),
        (Pair::Until, Part::Until(first, second)) => Some((first, second)),
        (Pair::UntilWith, Part::UntilWith(first, second)) => Some((first, second)),
        _ => None,
    }
}
