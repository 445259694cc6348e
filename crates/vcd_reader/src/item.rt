//! What the tokens of a body say.

/// What a token is by its own text: scalars and vectors by the number of their last 128 digits.
#[derive(Clone, Copy)]
pub(crate) enum Seen {
    Time(u64),
    Scalar(u128),
    Vector(u128),
    Text,
    Lone,
    Section,
    Bad,
}

/// What a few tokens of the body say.
#[derive(Clone, Copy)]
pub(crate) enum Item {
    Timed(u64, usize),
    Changed(u32, u128),
    Skipped,
}
