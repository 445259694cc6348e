//! Which build of the program this is.

/// The line that says so. `make install` and `make quick` write one of their own into their copies
/// of this file (`scripts/tools/trees.py`).
pub(crate) const BUILD: &str = "built in place\n";
