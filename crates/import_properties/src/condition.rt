//! Booleans of properties.

/// A boolean. What a leaf says is not known here: leaves are numbered by who makes the tree, and
/// are true or false at each tick.
#[derive(Clone, Copy, PartialEq, Eq)]
pub enum Condition {
    /// The constant 1.
    One,
    /// The constant 0.
    Zero,
    /// A leaf, by its number.
    Leaf(usize),
    /// The negation of a leaf.
    Negated(usize),
}

impl Condition {
    ghost use Rattle.std.specs.Prelude.{◌≡◌};
    ghost use Rattle.import_properties.specs.Conditions.{negation};

    /// The boolean that is true where this one is false.
    pub fn negation(self) -> Condition
        ensures { result ≡ negation self }
    {
        match self {
            Condition::One => Condition::Zero,
            Condition::Zero => Condition::One,
            Condition::Leaf(place) => Condition::Negated(place),
            Condition::Negated(place) => Condition::Leaf(place),
        }
    }
}
