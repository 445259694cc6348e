//! Steps and their changes.

/// A change of a code, which is named by its number. `Dump::cut` gives the value that it gives a
/// variable.
#[derive(Clone, Copy)]
pub struct Change {
    pub code: u32,
    pub(crate) high: u32,
    pub(crate) low: u64,
}

/// The changes at one time.
#[derive(Drop)]
pub struct Step {
    pub time: u64,
    pub changes: Vec<Change>,
}
