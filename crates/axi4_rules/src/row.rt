//! A row of the table.

/// The name of a rule or a counter, and what it says, in two halves.
#[derive(Clone, Copy)]
pub(crate) struct Row<'t> {
    pub name: &'t str,
    pub first: &'t str,
    pub second: &'t str,
}
