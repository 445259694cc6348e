//! A batch.

use crate::streaks::Streaks;

/// What a monitor decided over a run of clocks.
#[derive(Drop)]
pub struct Batch {
    /// The monitor's number among those of its job.
    pub monitor: usize,
    /// The clocks: from the first up to the second, which is not in it.
    pub first: u64,
    pub end: u64,
    /// The attempts, by the clock at which they were decided, then by start.
    pub decided: Streaks,
}
