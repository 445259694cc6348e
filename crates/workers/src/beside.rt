//! What the calling thread of a round does beside the workers.

/// Something to do once, and what is known of what it gives.
pub trait Beside<T> {
    /// When it may be done.
    ghost may: { Self → Type 0 };

    /// What it gives.
    ghost tells: { Self → T → Type 0 };

    /// Does it.
    fn begin(self) -> T
        requires { may self }
        ensures { tells self result };
}
