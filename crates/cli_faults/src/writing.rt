//! The end of a command that reports.

ghost use Rattle.std.specs.Prelude.{◌≡◌, OnOk, IfOk, IfErr, false};
ghost use Rattle.std.specs.Io.KnownBytes.{Appends};
ghost use Rattle.report_lines.specs.Shown.{data_of};
ghost use Rattle.report_lines.specs.Texts.{report_text};
ghost use Rattle.cli_faults.specs.Runs.{totals_of, WhyNotWritten};

use crate::fault::Fault;
use crate::report_totals::totals;
use report_lines::{Report, ReportFault, write_report};
use signals::Sink;
use std::alloc::Global;

/// Writes a report and answers its totals, in the order of its last line.
///
/// # Errors
///
/// G1 where the sink failed, which then holds a beginning of the report after what it held before;
/// and want of memory, before anything is written.
pub fn written<W: Sink>(
    alloc: Global,
    report: &Report,
    out: &mut W,
) -> Result<[u64; 5], Fault<'static>>
    ensures written { OnOk result (Appends (W.state out.old).contents
        (W.state out.new).contents (report_text (data_of report.now))) }
    ensures counted { OnOk result ((W.state out.new).failures ≡ (W.state out.old).failures) }
    ensures flushed { OnOk result ((W.state out.new).keeps_back ≡ false) }
    ensures totals { IfOk result (λ five. five ≡ totals_of report.now.total) }
    ensures refused { IfErr result (WhyNotWritten (W.state out.old) (W.state out.new)
        (report_text (data_of report.now))) }
{
    // An arm knows which fault it is; by `?` the search doesn't find why that one stands.
    match write_report(alloc, report, out) {
        Ok(()) => Ok(totals(report)),
        Err(ReportFault::Memory) => Err(Fault::Memory),
        Err(ReportFault::Write) => Err(Fault::Report(ReportFault::Write)),
    }
}
