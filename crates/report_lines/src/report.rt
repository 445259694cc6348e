//! What a report says.

ghost use Rattle.std.specs.Prelude.{◌≡◌, map, ℕ, sum_by};

use crate::line::{Counts, Line};

/// The report on all assertions.
#[derive(Drop)]
pub struct Report {
    /// The number of clocks of the trace.
    pub clocks: u64,
    /// What it says of each assertion, in the order of the text.
    pub lines: Vec<Line>,
    /// The sums of the lines' counts, each held at 2^64 - 1.
    pub total: Counts,
}

impl Counts {
    ghost use Rattle.report_lines.specs.Totals.{counts_sum};

    /// No attempt.
    pub fn none() -> Counts
        ensures { result ≡ record {
          holds = 0;
          vacuous = 0;
          fails = 0;
          disabled = 0;
          still_open = 0;
        } }
    {
        Counts {
            holds: 0,
            vacuous: 0,
            fails: 0,
            disabled: 0,
            still_open: 0,
        }
    }

    /// The sums, each held at 2^64 - 1.
    pub fn plus(self, more: Counts) -> Counts
        ensures { result ≡ counts_sum self more }
    {
        Counts {
            holds: self.holds.saturating_add(more.holds),
            vacuous: self.vacuous.saturating_add(more.vacuous),
            fails: self.fails.saturating_add(more.fails),
            disabled: self.disabled.saturating_add(more.disabled),
            still_open: self.still_open.saturating_add(more.still_open),
        }
    }
}

impl Report {
    ghost use Rattle.report_lines.specs.Lines.{line, report_of};
    ghost use Rattle.report_lines.specs.Shown.{data_of};

    /// The report over so many clocks with these lines.
    pub fn new(clocks: u64, lines: Vec<Line>) -> Report
        ensures { data_of result ≡ report_of clocks (map line lines.items) }
    {
        let mut total = Counts::none();
        for line in &lines {
            total = total.plus(line.counts);
        }
        Report {
            clocks,
            lines,
            total,
        }
    }
}
