//! Steps.

use crate::operation::Operation;

/// An operation, and the place that it fills.
#[derive(Clone, Copy)]
pub(crate) struct Step {
    pub(crate) to: u16,
    pub(crate) operation: Operation,
}
