//! Where the blocks of a program begin.

/// The numbers of the first instructions of the blocks, in each section.
#[derive(Drop)]
pub(crate) struct Bases {
    pub(crate) antecedent: Vec<usize>,
    pub(crate) consequent: Vec<usize>,
}
