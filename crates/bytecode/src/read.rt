//! How a reader goes on after a step.

/// What a step reads. Where it stops, so does its caller.
macro_rules! read {
    ($step:expr) => {
        match $step {
            Ok(read) => read,
            Err(stop) => return Err(stop),
        }
    };
}

pub(crate) use read;
