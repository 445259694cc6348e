//! The line that tells a program's declared limits, and its way to a device.

ghost use Rattle.std.specs.Prelude.{◌≡◌, OnOk, IfErr, false};
ghost use Rattle.std.specs.Io.KnownBytes.{Appends};
ghost use Rattle.report_lines.specs.Written.{WhyUnwritten};
ghost use Rattle.cli_bytecode.specs.Limits.{limits_text};

use crate::limits_text::text_of;
use bytecode_programs::Limits;
use report_lines::ReportFault;
use signals::{Sink, write_all};
use std::alloc::Global;

/// Writes the line of these limits to the device, and flushes it.
///
/// Where the device fails, it holds a beginning of the line after what it held before.
pub(crate) fn write_limits<W: Sink>(
    alloc: Global,
    limits: &Limits,
    out: &mut W,
) -> Result<(), ReportFault>
    ensures written { OnOk result
        (Appends (W.state out.old).contents (W.state out.new).contents (limits_text limits.now)) }
    ensures counted { OnOk result ((W.state out.new).failures ≡ (W.state out.old).failures) }
    ensures flushed { OnOk result ((W.state out.new).keeps_back ≡ false) }
    ensures refused { IfErr result
        (WhyUnwritten (W.state out.old) (W.state out.new) (limits_text limits.now)) }
{
    let Ok(text) = text_of(alloc, limits) else {
        return Err(ReportFault::Memory);
    };
    if write_all(out, text.as_bytes()).is_err() {
        return Err(ReportFault::Write);
    }
    match out.flush() {
        Ok(()) => Ok(()),
        Err(_) => Err(ReportFault::Write),
    }
}
