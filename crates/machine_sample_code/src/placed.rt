//! Operands at their places.

/// An operand of sample code: its width, and the place that holds its value.
#[derive(Clone, Copy)]
pub(crate) struct Placed {
    pub(crate) width: u8,
    pub(crate) place: u16,
}
