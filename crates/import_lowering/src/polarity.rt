//! Whether a property is kept or negated where it stands.

/// How many negations stand round a property: an even number, an odd one, or both in turn.
#[derive(Clone, Copy, PartialEq, Eq)]
pub(crate) enum Polarity {
    Kept,
    Negated,
    Both,
}

impl Polarity {
    /// With one more negation round it.
    pub(crate) fn opposite(self) -> Polarity {
        match self {
            Polarity::Kept => Polarity::Negated,
            Polarity::Negated => Polarity::Kept,
            Polarity::Both => Polarity::Both,
        }
    }
}
