//! The operators of sequences and properties (IEEE 1800-2017, table 16-3).

use import_tokens::{Keyword, Kind, Symbol};

/// An operator between sequences or properties.
#[derive(Clone, Copy, PartialEq, Eq)]
pub(crate) enum FormJoint {
    Throughout,
    Within,
    Intersect,
    And,
    Or,
    Iff,
    Until,
    UntilWith,
    Implies,
    Overlapped,
    Following,
    FollowedOverlapped,
    FollowedBy,
}

impl FormJoint {
    /// How tightly it joins: 8 at `throughout`, 1 at `|->`.
    pub(crate) fn level(self) -> u8 {
        match self {
            FormJoint::Throughout => 8,
            FormJoint::Within => 7,
            FormJoint::Intersect => 6,
            FormJoint::And => 5,
            FormJoint::Or => 4,
            FormJoint::Iff => 3,
            FormJoint::Until | FormJoint::UntilWith | FormJoint::Implies => 2,
            _ => 1,
        }
    }

    /// The level of what stands after it: its own where it groups to the right.
    pub(crate) fn level_after(self) -> u8 {
        match self {
            FormJoint::Within => 8,
            FormJoint::Intersect => 7,
            FormJoint::And => 6,
            FormJoint::Or => 5,
            _ => self.level(),
        }
    }
}

/// The operator that a token is between sequences or properties, if it is one.
pub(crate) fn form_joint_of(kind: Kind) -> Option<FormJoint> {
    match kind {
        Kind::Keyword(keyword) => word_joint_of(keyword),
        Kind::Symbol(Symbol::Overlapped) => Some(FormJoint::Overlapped),
        Kind::Symbol(Symbol::Following) => Some(FormJoint::Following),
        Kind::Symbol(Symbol::FollowedOverlapped) => Some(FormJoint::FollowedOverlapped),
        Kind::Symbol(Symbol::FollowedBy) => Some(FormJoint::FollowedBy),
        _ => None,
    }
}

fn word_joint_of(keyword: Keyword) -> Option<FormJoint> {
    match keyword {
        Keyword::Throughout => Some(FormJoint::Throughout),
        Keyword::Within => Some(FormJoint::Within),
        Keyword::Intersect => Some(FormJoint::Intersect),
        Keyword::And => Some(FormJoint::And),
        Keyword::Or => Some(FormJoint::Or),
        Keyword::Iff => Some(FormJoint::Iff),
        Keyword::Until | Keyword::StrongUntil => Some(FormJoint::Until),
        Keyword::UntilWith | Keyword::StrongUntilWith => Some(FormJoint::UntilWith),
        Keyword::Implies => Some(FormJoint::Implies),
        _ => None,
    }
}
