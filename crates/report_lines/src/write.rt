//! Writing a report.

ghost use Rattle.std.specs.Prelude.{◌≡◌, OnOk, IfErr, false};
ghost use Rattle.std.specs.Io.KnownBytes.{Appends};
ghost use Rattle.report_lines.specs.Shown.{data_of};
ghost use Rattle.report_lines.specs.Texts.{report_text};
ghost use Rattle.report_lines.specs.Written.{WhyUnwritten};

use crate::report::Report;
use crate::text::text_of;
use signals::{Sink, write_all};
use std::alloc::Global;
use thiserror::Error;

/// Why a report was not written, or not all of it.
#[derive(Clone, Copy, PartialEq, Eq, Debug, Error)]
pub enum ReportFault {
    /// G1: the device failed, or took no byte.
    #[error("G1 Write")]
    Write,
    /// There was no memory for the text; nothing was written.
    #[error("OutOfMemory")]
    Memory,
}

/// Writes the text of a report to the device, and flushes it.
///
/// Where the device fails, it holds a beginning of the text after what it held before.
pub fn write_report<W: Sink>(alloc: Global, report: &Report, out: &mut W) -> Result<(), ReportFault>
    ensures written { OnOk result (Appends (W.state out.old).contents
        (W.state out.new).contents (report_text (data_of report.now))) }
    ensures counted { OnOk result ((W.state out.new).failures ≡ (W.state out.old).failures) }
    ensures flushed { OnOk result ((W.state out.new).keeps_back ≡ false) }
    ensures refused { IfErr result (WhyUnwritten (W.state out.old) (W.state out.new)
        (report_text (data_of report.now))) }
{
    let Ok(text) = text_of(alloc, report) else {
        return Err(ReportFault::Memory);
    };
    if write_all(out, text.as_bytes()).is_err() {
        return Err(ReportFault::Write);
    }
    match out.flush() {
        Ok(()) => Ok(()),
        Err(_) => Err(ReportFault::Write),
    }
}
