//! Sides of a program.

/// Which of the two sections of blocks.
#[derive(Clone, Copy, PartialEq, Eq, Debug)]
pub enum Side {
    Antecedent,
    Consequent,
}
