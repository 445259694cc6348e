//! The case of a port's signal names.

/// How signal names after the prefix are written.
#[derive(Clone, Copy)]
pub enum Case {
    /// `awvalid`
    Lower,
    /// `AWVALID`
    Upper,
}
