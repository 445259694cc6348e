//! Sequences and properties with all declared names written out.

use crate::value::{ValueId, ValueList};

/// The place of a part among all of an opening.
#[derive(Clone, Copy, PartialEq, Eq)]
pub struct PartId(pub usize);

/// So many, from one number up to another; without end where there is no other.
#[derive(Clone, Copy, PartialEq, Eq)]
pub struct Count {
    pub least: u32,
    pub most: Option<u32>,
}

/// The place of an assignment, and how many follow one another.
#[derive(Clone, Copy, PartialEq, Eq)]
pub struct Assignments {
    pub first: usize,
    pub count: usize,
}

/// An assignment to a local variable (IEEE 1800-2017, 16.10).
#[derive(Clone, Copy)]
pub struct LocalAssignment {
    /// The number of the variable.
    pub local: usize,
    pub value: ValueId,
}

/// The place of an item of a `case` among all of an opening.
#[derive(Clone, Copy, PartialEq, Eq)]
pub struct ChoiceId(pub usize);

/// An item of a `case` (16.12.16), and the one before it.
#[derive(Clone, Copy)]
pub struct Choice {
    /// The values, or none for `default`.
    pub values: Option<ValueList>,
    pub body: PartId,
    pub before: Option<ChoiceId>,
}

/// A sequence (16.9) or a property (16.12); each form is that of `import_trees::Form`.
#[derive(Clone, Copy)]
pub enum Part {
    Boolean(ValueId),
    Lead(Count, PartId),
    Delay(PartId, Count, PartId),
    Repeat(PartId, Count),
    Goto(ValueId, Count),
    Nonconsecutive(ValueId, Count),
    Throughout(ValueId, PartId),
    Within(PartId, PartId),
    Intersect(PartId, PartId),
    FirstMatch(PartId),
    Assigned(PartId, Assignments),
    And(PartId, PartId),
    Or(PartId, PartId),
    Not(PartId),
    Strength(PartId),
    Implication(PartId, PartId),
    NextImplication(PartId, PartId),
    FollowedBy(PartId, PartId),
    NextFollowedBy(PartId, PartId),
    Implies(PartId, PartId),
    Iff(PartId, PartId),
    Until(PartId, PartId),
    UntilWith(PartId, PartId),
    /// `nexttime`, so many ticks.
    Next(u32, PartId),
    /// `always`, with bounds where they are written.
    Always(Option<Count>, PartId),
    Eventually(Option<Count>, PartId),
    If(ValueId, PartId),
    IfElse(ValueId, PartId, PartId),
    /// `case`, with the last of its items.
    Case(ValueId, Option<ChoiceId>),
}

/// A part, at the byte of its text.
#[derive(Clone, Copy)]
pub struct PartNode {
    pub part: Part,
    pub is_sequence: bool,
    pub at: usize,
}
