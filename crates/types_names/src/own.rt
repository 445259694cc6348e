//! What names stand for.

/// What a name that the text declares stands for. Places count from 0.
#[derive(Clone, Copy)]
pub enum Own {
    /// A counter: its place among the counters of the text, and its width.
    Counter(usize, u8),
    /// A named sequence: its place among the named sequences of the text.
    Sequence(usize),
}

/// What a path stands for.
#[derive(Clone, Copy)]
pub enum Meaning {
    /// A path of the dump, with its width.
    Signal(u8),
    Own(Own),
}

/// A kind of fault in an expression.
#[derive(Clone, Copy)]
pub enum Sought {
    /// A path that stands for nothing that an expression can read (Y1).
    Unknown,
    /// A concatenation of more than 128 bits (Y3).
    Wide,
    /// A select of bits that its name doesn't have (Y4).
    OutOfRange,
}
