//! Which failed attempts are explained.

ghost use Rattle.std.specs.Prelude.{◌≡◌};
ghost use Rattle.report_explained.specs.Chosen.{is_named, begins_at};

use report_lines::Failure;

/// Which failed attempts are explained: those of one assertion or of all, the one that began at a
/// clock or all, and of each assertion at most so many.
#[derive(Clone, Copy)]
pub struct Wanted<'w> {
    /// The assertion's name.
    pub only: Option<&'w str>,
    /// The clock at which the attempt began.
    pub start: Option<u64>,
    pub most: u64,
}

impl Wanted<'_> {
    /// Whether the failed attempts of an assertion of this name are explained.
    pub(crate) fn has_assertion(&self, name: &str) -> bool
        ensures { result ≡ is_named self.now name.now }
    {
        match self.only {
            None => true,
            Some(only) => only == name,
        }
    }

    /// Whether an attempt that began when this one did is explained.
    pub(crate) fn has_start(&self, failure: &Failure) -> bool
        ensures { result ≡ begins_at self.now.start failure.now }
    {
        match self.start {
            None => true,
            Some(start) => failure.start == start,
        }
    }
}
