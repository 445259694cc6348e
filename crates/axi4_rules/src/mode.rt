//! The mode of a port.

/// How many transactions may be outstanding in one direction.
#[derive(Clone, Copy)]
pub enum Mode {
    /// Any number.
    Multi,
    /// Never two, which the rules rest on and don't check.
    Single,
}
