//! Sequences and properties, as they are written.

use crate::expression::{ExpressionId, ExpressionList};

/// The place of a sequence or a property among all that were read.
#[derive(Clone, Copy, PartialEq, Eq)]
pub struct FormId(pub usize);

/// `[least:most]`; most may be `$`, and is least where one number is written.
#[derive(Clone, Copy, PartialEq, Eq)]
pub struct Range {
    pub least: ExpressionId,
    pub most: ExpressionId,
}

/// Assignments to local variables in a row, among all of them.
#[derive(Clone, Copy, PartialEq, Eq)]
pub struct AssignmentList {
    pub first: usize,
    pub count: usize,
}

/// An assignment to a local variable (IEEE 1800-2017, 16.10).
#[derive(Clone, Copy)]
pub struct Assignment<'t> {
    pub name: &'t [u8],
    pub value: ExpressionId,
}

/// A sequence (16.9) or a property (16.12). Those that are sequences say so in their node.
#[derive(Clone, Copy)]
pub enum Form {
    Boolean(ExpressionId),
    /// `##range body` at the front.
    Lead(Range, FormId),
    /// `first ##range second`.
    Delay(FormId, Range, FormId),
    /// `body[*range]`.
    Repeat(FormId, Range),
    /// `b[->range]`.
    Goto(ExpressionId, Range),
    /// `b[=range]`.
    Nonconsecutive(ExpressionId, Range),
    /// `b throughout body`.
    Throughout(ExpressionId, FormId),
    Within(FormId, FormId),
    Intersect(FormId, FormId),
    FirstMatch(FormId),
    /// `(body, x = e)`.
    Assigned(FormId, AssignmentList),
    And(FormId, FormId),
    Or(FormId, FormId),
    Not(FormId),
    /// `strong` and `weak`.
    Strength(FormId),
    /// `|->`
    Implication(FormId, FormId),
    /// `|=>`
    NextImplication(FormId, FormId),
    /// `#-#`
    FollowedBy(FormId, FormId),
    /// `#=#`
    NextFollowedBy(FormId, FormId),
    Implies(FormId, FormId),
    Iff(FormId, FormId),
    Until(FormId, FormId),
    UntilWith(FormId, FormId),
    /// `nexttime`, so many ticks where a number is written.
    Next(Option<ExpressionId>, FormId),
    Always(Option<Range>, FormId),
    Eventually(Option<Range>, FormId),
    If(ExpressionId, FormId),
    IfElse(ExpressionId, FormId, FormId),
    /// `case (e) item .. endcase`; an item is a `CaseItem`, the last of them by its place.
    Case(ExpressionId, Option<CaseId>),
}

/// The place of an item of a `case` among all of them.
#[derive(Clone, Copy, PartialEq, Eq)]
pub struct CaseId(pub usize);

/// An item of a `case` (16.12.16), and the one before it.
#[derive(Clone, Copy)]
pub struct CaseItem {
    /// The values, or none for `default`.
    pub values: Option<ExpressionList>,
    pub body: FormId,
    pub before: Option<CaseId>,
}

/// A sequence or a property, and where it is told of.
#[derive(Clone, Copy)]
pub struct FormNode {
    pub form: Form,
    pub is_sequence: bool,
    /// The byte of its text.
    pub at: usize,
}
