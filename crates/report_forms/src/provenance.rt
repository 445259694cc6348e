//! Where a report comes from.

/// Where a report comes from: what the readers of another form are told beside it.
#[derive(Clone, Copy)]
pub struct Provenance<'a> {
    /// The dump's path.
    pub dump: &'a str,
    /// The path of the assertions' text.
    pub text: &'a str,
    /// The time of each clock, from the first on, in the dump's unit.
    pub times: &'a [u64],
}

impl Provenance<'_> {
    ghost use Rattle.std.specs.Prelude.{◌≡◌};
    ghost use Rattle.report_forms.specs.Provenances.{provenance_of, time_at};

    /// The time of a clock, 0 where none is given.
    pub fn time(&self, clock: u64) -> u64
        ensures { result ≡ time_at (provenance_of self.now) clock }
    {
        self.times.get(clock as usize).copied().unwrap_or(0)
    }
}
