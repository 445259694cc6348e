//! Limits that a program declares.

/// How much a run of the program may take.
#[derive(Clone, Copy, PartialEq, Eq, Debug)]
pub struct Limits {
    /// Ticks before the current one whose samples are kept.
    pub history: u16,
    /// Values on the stack.
    pub stack: u16,
    /// Attempts alive at one time.
    pub attempts: u16,
    /// Obligations alive at one time.
    pub obligations: u16,
    /// Instructions at one tick.
    pub budget: u32,
}
