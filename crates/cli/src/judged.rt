//! From bytes and text to the bytes of a report.

ghost use Rattle.std.specs.Prelude.{IfOk, IfErr};
ghost use Rattle.vcd_reader.specs.Dump.{Contents};
ghost use Rattle.vcd_reader.specs.Held.{HoldsContents};
ghost use Rattle.report_lines.specs.Shown.{data_of};
ghost use Rattle.cli.specs.Reported.{HasReport};
ghost use Rattle.cli.specs.Outcomes.{WhyNoReport, IsAnswered, WhyRunRefused};
ghost use Rattle.cli_faults.specs.Runs.{run_of};

use crate::text::{file_of, suite_of};
use cli_faults::{Fault, written};
use cycle_window::WindowSize;
use report_lines::Report;
use report_suites::report_by_judge;
use signals::{Sink, Source};
use std::alloc::Global;
use vcd_reader::{Dump, read_dump};

/// The report on a text over a dump.
fn report_judged<'a>(
    alloc: Global,
    dump: &Dump,
    text: &'a str,
    size: WindowSize,
) -> Result<Report, Fault<'a>>
    requires held { (c : Contents) × HoldsContents dump.now c }
    ensures ok { (c : Contents) → HoldsContents dump.now c
        → IfOk result (λ r. HasReport c text.entry.now (data_of r)) }
    ensures err { (c : Contents) → HoldsContents dump.now c
        → IfErr result (WhyNoReport c text.entry.now) }
{
    let file = file_of(alloc, text)?;
    let suite = suite_of(alloc, dump, &file)?;
    Ok(report_by_judge(alloc, dump, &suite, size)?)
}

/// Reads the dump that a source gives, judges a text over it through windows of a size, and writes
/// the report.
pub(crate) fn run_through<'a, S: Source, W: Sink>(
    alloc: Global,
    source: &mut S,
    text: &'a str,
    size: WindowSize,
    out: &mut W,
) -> Result<[u64; 5], Fault<'a>>
    ensures answered { IfOk result (IsAnswered (run_of text.entry.now
        (S.state source.old) (S.state source.new) (W.state out.old) (W.state out.new))) }
    ensures refused { IfErr result (WhyRunRefused (run_of text.entry.now
        (S.state source.old) (S.state source.new) (W.state out.old) (W.state out.new))) }
{
    let dump = read_dump(alloc, source)?;
    let report = report_judged(alloc, &dump, text, size)?;
    written(alloc, &report, out)
}
