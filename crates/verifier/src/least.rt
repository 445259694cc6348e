//! Least limits.

/// The least limits that serve a program.
#[derive(Clone, Copy, PartialEq, Eq, Debug)]
pub struct LeastLimits {
    /// Ticks before the current one whose samples are kept.
    pub history: usize,
    /// Values on the stack.
    pub stack: usize,
    /// Attempts alive at one time.
    pub attempts: usize,
    /// Obligations alive at one time.
    pub obligations: usize,
    /// Instructions, visits and settlings at one tick.
    pub budget: usize,
}
