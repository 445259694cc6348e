//! Programs that are too few or too many for a job.

/// U3: a job is to have no program, or more than 4,096.
#[derive(Clone, Copy, Debug)]
pub struct BadJob;
