//! The call of the command `explain`.

ghost use Rattle.std.specs.Prelude.{◌≡◌, OnOk, IfOk, IfErr, false, string_bytes};
ghost use Rattle.std.specs.List.{AllByRecursion};
ghost use Rattle.std.specs.Io.KnownBytes.{Appends};
ghost use Rattle.vcd_reader.specs.Dump.{Contents};
ghost use Rattle.vcd_reader.specs.Held.{HoldsContents};
ghost use Rattle.report_explained.specs.Told.{HasLine};
ghost use Rattle.cli_faults.specs.Runs.{run_of, WhyNotWritten};
ghost use Rattle.cli.specs.Explained.{IsTextOf, TellsFailures, WhyNotExplained};
ghost use Rattle.cli.specs.Explained.{IsExplanation, WhyExplainRefused};

use crate::explained::{Explained, explained_over};
use crate::heads::standings_of;
use cli_faults::Fault;
use cycle_window::WindowSize;
use report_explained::{Wanted, explained_text, told_of};
use report_forms::Provenance;
use report_lines::ReportFault;
use report_programs::Gate;
use signals::{Sink, Source, write_all};
use source_files::Origin;
use std::alloc::{AllocError, Global};
use std::sync::Wait;
use std::thread::Threads;
use vcd_reader::{Dump, read_dump_by};
use workers_core::TeamSize;

/// A text, and of how many failed attempts it tells.
#[derive(Drop)]
struct Told {
    text: String,
    count: u64,
}

/// Explanations as text.
fn text_of(
    alloc: Global,
    explained: &Explained<'_>,
    origin: &Origin<'_>,
) -> Result<Told, AllocError>
    requires { AllByRecursion (HasLine explained.now.trace.report.lines.items)
        explained.now.explanations.items }
    ensures { IfOk result (λ told.
        IsTextOf explained.now (string_bytes told.text) told.count) }
{
    let lines = explained.trace.report.lines.as_slice();
    let explanations = explained.explanations.as_slice();
    let standings = standings_of(alloc, &explained.heads, origin, explanations)?;
    let told = told_of(alloc, lines, explanations, standings.as_slice())?;
    let from = Provenance {
        dump: "",
        text: "",
        times: explained.trace.times.as_slice(),
    };
    let text = explained_text(alloc, &from, told.as_slice())?;
    Ok(Told {
        text,
        count: explanations.len() as u64,
    })
}

/// The text that explains the failed attempts that are wanted.
fn text_over<'a, G: Gate + Sync, R: Threads + Wait + Sync>(
    rt: &R,
    alloc: Global,
    dump: Dump,
    text: &'a str,
    origin: &Origin<'_>,
    wanted: &Wanted<'_>,
    team: TeamSize,
    gate: &G,
) -> Result<Told, Fault<'a>>
    requires held { (c : Contents) × HoldsContents dump c }
    ensures ok { (c : Contents) → HoldsContents dump c → IfOk result (λ told.
        TellsFailures c text.entry.now wanted.now (string_bytes told.text) told.count) }
    ensures err { (c : Contents) → HoldsContents dump c
        → IfErr result (WhyNotExplained c text.entry.now wanted.now) }
{
    let size = WindowSize::usual();
    let explained = explained_over(rt, alloc, dump, text, wanted, team, size, gate)?;
    Ok(text_of(alloc, &explained, origin)?)
}

/// Writes a text, and hands it on.
fn write_text<W: Sink>(out: &mut W, text: &str) -> Result<(), Fault<'static>>
    ensures written { OnOk result
        (Appends (W.state out.old).contents (W.state out.new).contents text.now) }
    ensures counted { OnOk result ((W.state out.new).failures ≡ (W.state out.old).failures) }
    ensures flushed { OnOk result ((W.state out.new).keeps_back ≡ false) }
    ensures refused { IfErr result
        (WhyNotWritten (W.state out.old) (W.state out.new) text.now) }
{
    if write_all(out, text.as_bytes()).is_err() {
        return Err(Fault::Report(ReportFault::Write));
    }
    match out.flush() {
        Ok(()) => Ok(()),
        Err(_) => Err(Fault::Report(ReportFault::Write)),
    }
}

/// Explains failed attempts of a text's assertions over the dump that a source gives: why each
/// failed, with the values that it saw. `origin` tells from which files the text was made; where an
/// assertion's place is told, its file is named, and the line of that. The text is judged by a
/// team, which does not change what is written.
///
/// The answer is how many attempts were explained.
///
/// # Errors
///
/// Those of [`check_one`](crate::check_one), but for C3, and N1 where the text has no assertion of
/// the name that is asked for, after the faults of the text; all before anything is written.
pub fn explain_one<'a, S: Source, W: Sink, G: Gate + Sync, R: Threads + Wait + Sync>(
    rt: &R,
    alloc: Global,
    source: &mut S,
    text: &'a str,
    origin: &Origin<'_>,
    wanted: &Wanted<'_>,
    team: TeamSize,
    gate: &G,
    out: &mut W,
) -> Result<u64, Fault<'a>>
    ensures answered { IfOk result (IsExplanation (run_of text.entry.now
        (S.state source.old) (S.state source.new) (W.state out.old) (W.state out.new))
        wanted.now) }
    ensures refused { IfErr result (WhyExplainRefused (run_of text.entry.now
        (S.state source.old) (S.state source.new) (W.state out.old) (W.state out.new))
        wanted.now) }
{
    let dump = read_dump_by(rt, alloc, source, team.workers())?;
    let told = text_over(rt, alloc, dump, text, origin, wanted, team, gate)?;
    write_text(out, told.text.as_str())?;
    Ok(told.count)
}
