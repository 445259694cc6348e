//! The last line of a report, from the workers' tally.

ghost use Rattle.std.specs.Prelude.{◌≡◌, ℕ, All, IfOk, map, vec_len};
ghost use Rattle.std.specs.List.{sum_by};
ghost use Rattle.report_lines.specs.Lines.{line, report_of};
ghost use Rattle.report_lines.specs.Shown.{data_of};
ghost use Rattle.verdicts.specs.Shares.{parts};
ghost use Rattle.workers.specs.Adding.{added_by};
ghost use Rattle.workers.specs.Runs.{IsMember};
ghost use Rattle.workers.specs.Tallied.{AreTotals, shared_by};

use crate::round::Member;
use report_lines::{Counts, Line, Report};
use std::alloc::{AllocError, Global};
use verdicts::{Share, Tallying};

/// The shares of all workers.
pub(crate) fn shares_of<L: Tallying>(
    alloc: Global,
    members: Vec<Member<L>>,
) -> Result<Vec<Share<L>>, AllocError>
    requires { All IsMember members.items }
    ensures parts { IfOk result (λ shares. sum_by parts shares.items ≡ vec_len members) }
    ensures added { (k : ℕ) → IfOk result (λ shares.
        shared_by k shares.items ≡ added_by k members.items) }
{
    let mut shares = Vec::with_capacity(alloc, members.len())?;
    for member in members {
        let Member { share, claims: _ } = member;
        shares.push_reserved(share);
    }
    Ok(shares)
}

/// The report with these lines, whose last line says what the tally counted, and the sum of what is
/// open.
pub(crate) fn report_with(clocks: u64, lines: Vec<Line>, totals: [u64; 4]) -> Report
    requires { AreTotals totals lines.items }
    ensures { data_of result ≡ report_of clocks (map line lines.items) }
{
    let [holds, vacuous, fails, disabled] = totals;
    let report = Report::new(clocks, lines);
    let total = Counts {
        holds,
        vacuous,
        fails,
        disabled,
        still_open: report.total.still_open,
    };
    Report { total, ..report }
}
