//! Senses.

/// Whether a property is meant as it stands, or its negation is.
#[derive(Clone, Copy)]
pub(crate) enum Sense {
    Kept,
    Negated,
}

impl Sense {
    ghost use Rattle.std.specs.Prelude.{◌≡◌};
    ghost use Rattle.import_rewriting.specs.Senses.{opposite};

    /// The other one.
    pub(crate) fn opposite(self) -> Sense
        ensures { result ≡ opposite self }
    {
        match self {
            Sense::Kept => Sense::Negated,
            Sense::Negated => Sense::Kept,
        }
    }
}
