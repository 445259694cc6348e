//! How booleans are joined.

ghost use Rattle.std.specs.Prelude.{IfSome};
ghost use Rattle.import_checks.specs.Booleans.{IsJoined};

use import_elaboration::{Part, PartId};

/// How two booleans are joined.
#[derive(Clone, Copy, PartialEq, Eq)]
pub enum Joint {
    /// Both are true.
    Both,
    /// One of them is.
    Either,
    /// The second is, or the first is not.
    Implying,
    /// Both are, or none is.
    Alike,
}

/// The two sides of a part, and how they are joined where they are booleans.
pub(crate) fn joint_of(part: Part) -> Option<(Joint, PartId, PartId)>
    ensures { IfSome result (λ r. IsJoined part r.0 r.1 r.2) }
{
    match part {
        Part::And(first, second) => Some((Joint::Both, first, second)),
        Part::Intersect(first, second) => Some((Joint::Both, first, second)),
        Part::Or(first, second) => Some((Joint::Either, first, second)),
        Part::Implies(first, second) => Some((Joint::Implying, first, second)),
        Part::Iff(first, second) => Some((Joint::Alike, first, second)),
        _ => None,
    }
}
