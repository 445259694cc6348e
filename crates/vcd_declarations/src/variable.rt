//! What a `$var` says.

/// What stands in the section of a variable: `$var kind size code reference.. $end`.
#[derive(Clone, Copy)]
pub struct Variable<'a> {
    /// `wire`, `reg`, `real`, .., or any other word.
    pub kind: &'a [u8],
    /// Bits, as declared.
    pub size: u32,
    pub code: &'a [u8],
    /// The tokens of the name and the range, with the space between them.
    pub reference: &'a [u8],
}
