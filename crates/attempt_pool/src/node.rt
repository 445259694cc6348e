//! What one place of a pool's block holds.

/// The places of the nodes before and after this one, and its record once it had one.
#[derive(Clone, Copy)]
pub(crate) struct Node<T> {
    pub(crate) prev: usize,
    pub(crate) next: usize,
    pub(crate) item: Option<T>,
}
