//! The totals that a command answers.

ghost use Rattle.std.specs.Prelude.{◌≡◌};
ghost use Rattle.cli_faults.specs.Runs.{totals_of};

use report_lines::Report;

/// The totals of a report, in the order of its last line: how many attempts held, were vacuous,
/// failed, were disabled, and are open.
pub fn totals(report: &Report) -> [u64; 5]
    ensures { result ≡ totals_of report.now.total }
{
    let total = report.total;
    [
        total.holds,
        total.vacuous,
        total.fails,
        total.disabled,
        total.still_open,
    ]
}
