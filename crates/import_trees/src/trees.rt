//! All that was read.

use crate::expression::{ExpressionId, ExpressionNode};
use crate::form::{Assignment, CaseItem, FormNode};
use std::alloc::Global;

/// The trees that were read; a tree is a place in one of these lists.
#[derive(Drop)]
pub struct Trees<'t> {
    pub expressions: Vec<ExpressionNode<'t>>,
    pub forms: Vec<FormNode>,
    /// What stands in lists of expressions, list after list.
    pub listed: Vec<ExpressionId>,
    pub assignments: Vec<Assignment<'t>>,
    pub cases: Vec<CaseItem>,
}

impl<'t> Trees<'t> {
    pub(crate) fn new(alloc: Global) -> Trees<'t> {
        Trees {
            expressions: Vec::new(alloc),
            forms: Vec::new(alloc),
            listed: Vec::new(alloc),
            assignments: Vec::new(alloc),
            cases: Vec::new(alloc),
        }
    }
}
