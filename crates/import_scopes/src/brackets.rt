//! Where the brackets of an assertion end.

/// Where the brackets of an assertion end.
#[derive(Clone, Copy)]
pub(crate) enum Brackets {
    /// The place after the last one.
    Closed(usize),
    /// No bracket closes the first one before this place, at which another item begins.
    Open(usize),
}
