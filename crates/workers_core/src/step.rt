//! Steps of a core, and what they answer.

/// What a worker, or the thread that leads the rounds, does at once.
#[derive(Clone, Copy, PartialEq, Eq, Debug)]
pub enum Step {
    /// Opens a round: the next window.
    Slide,
    /// The worker takes the monitor that waits in front.
    Claim(usize),
    /// The worker runs its monitor over so many clocks.
    Advance(usize, u64),
    /// The worker publishes its monitor's batch, and is done with it.
    Publish(usize),
    /// Ends a round: all monitors wait again.
    Gather,
}

/// What became of a step.
#[derive(Clone, Copy, PartialEq, Eq, Debug)]
pub enum Reply {
    /// The step is done.
    Done,
    /// The step isn't allowed, and nothing changed.
    Refused,
    /// There was no memory, and nothing changed.
    Memory,
}
