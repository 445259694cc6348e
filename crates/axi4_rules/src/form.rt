//! The forms of a line.

/// A rule that isn't looked at in reset, a rule that is, or a counter.
#[derive(Clone, Copy)]
pub(crate) enum Form {
    Rule,
    Always,
    Counter,
}
