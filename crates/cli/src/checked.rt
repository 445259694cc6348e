//! From bytes and text to the bytes of a report, by programs.

ghost use Rattle.std.specs.Prelude.{IfOk, IfErr, string_bytes};
ghost use Rattle.std.specs.List.{AllByRecursion};
ghost use Rattle.vcd_reader.specs.Dump.{Contents};
ghost use Rattle.vcd_reader.specs.Held.{HoldsContents, variables_of};
ghost use Rattle.cycle_window.specs.Bound.{IsClock};
ghost use Rattle.cycle_window.specs.Held.{AreClocksOf, code_in};
ghost use Rattle.report_lines.specs.Shown.{data_of};
ghost use Rattle.compiler.specs.Conditions.{FitsSuite};
ghost use Rattle.report_programs.specs.Lines.{IsWatched};
ghost use Rattle.cli.specs.Reported.{HasReport, SaysSuite};
ghost use Rattle.signals.specs.Source.{SourceState};
ghost use Rattle.cli.specs.Outcomes.{WhyNoneByPrograms, IsAnswered, WhyCheckRefused, WasRead};
ghost use Rattle.cli_faults.specs.Runs.{run_of};

use crate::programs::{lines_fault, report_by_programs};
use crate::text::{file_of, suite_of};
use assertions::Suite;
use cli_faults::{Fault, written};
use compiler_laws::suite_law;
use cycle_window::{Clocks, WindowSize};
use report_lines::Report;
use report_programs::{Gate, suite_report};
use signals::{Sink, Source};
use std::alloc::Global;
use std::sync::Wait;
use std::thread::Threads;
use vcd_reader::{Dump, read_dump, read_dump_by};
use workers_core::TeamSize;

/// A suite, and the ticks of its clock.
#[derive(Drop)]
pub(crate) struct TimedSuite {
    pub suite: Suite,
    pub clocks: Clocks,
}

/// The suite that a text says over a dump.
fn suite_over<'a>(alloc: Global, dump: &Dump, text: &'a str) -> Result<Suite, Fault<'a>>
    requires held { (c : Contents) × HoldsContents dump.now c }
    ensures says { (c : Contents) → HoldsContents dump.now c
        → IfOk result (SaysSuite c text.entry.now) }
    ensures watched { IfOk result (λ s.
        AllByRecursion (IsWatched (variables_of dump.now)) s.names.items) }
    ensures fit { IfOk result (λ s. AllByRecursion (FitsSuite s) s.assertions.items) }
    ensures err { (c : Contents) → HoldsContents dump.now c
        → IfErr result (WhyNoneByPrograms c text.entry.now) }
{
    suite_law();
    let file = file_of(alloc, text)?;
    let suite = suite_of(alloc, dump, &file)?;
    Ok(suite)
}

/// The suite that a text says over a dump, and the ticks of its clock there.
pub(crate) fn timed_suite<'a>(
    alloc: Global,
    dump: &Dump,
    text: &'a str,
) -> Result<TimedSuite, Fault<'a>>
    requires held { (c : Contents) × HoldsContents dump.now c }
    ensures says { (c : Contents) → HoldsContents dump.now c
        → IfOk result (λ t. SaysSuite c text.entry.now t.suite) }
    ensures clock { IfOk result (λ t.
        IsClock (variables_of dump.now) (string_bytes t.suite.clock) (code_in t.clocks)) }
    ensures ticks { IfOk result (λ t. AreClocksOf dump.now t.clocks) }
    ensures watched { IfOk result (λ t.
        AllByRecursion (IsWatched (variables_of dump.now)) t.suite.names.items) }
    ensures fit { IfOk result (λ t.
        AllByRecursion (FitsSuite t.suite) t.suite.assertions.items) }
    ensures err { (c : Contents) → HoldsContents dump.now c
        → IfErr result (WhyNoneByPrograms c text.entry.now) }
{
    let suite = suite_over(alloc, dump, text)?;
    let clocks = Clocks::of(alloc, dump, suite.clock())?;
    Ok(TimedSuite { suite, clocks })
}

/// The suite and its clocks, by as many threads at most as a team has workers.
pub(crate) fn timed_by_team<'a, R: Threads>(
    rt: &R,
    alloc: Global,
    dump: &Dump,
    text: &'a str,
    team: TeamSize,
) -> Result<TimedSuite, Fault<'a>>
    requires held { (c : Contents) × HoldsContents dump.now c }
    ensures says { (c : Contents) → HoldsContents dump.now c
        → IfOk result (λ t. SaysSuite c text.entry.now t.suite) }
    ensures clock { IfOk result (λ t.
        IsClock (variables_of dump.now) (string_bytes t.suite.clock) (code_in t.clocks)) }
    ensures ticks { IfOk result (λ t. AreClocksOf dump.now t.clocks) }
    ensures watched { IfOk result (λ t.
        AllByRecursion (IsWatched (variables_of dump.now)) t.suite.names.items) }
    ensures fit { IfOk result (λ t.
        AllByRecursion (FitsSuite t.suite) t.suite.assertions.items) }
    ensures err { (c : Contents) → HoldsContents dump.now c
        → IfErr result (WhyNoneByPrograms c text.entry.now) }
{
    let threads = team.workers();
    let suite = suite_over(alloc, dump, text)?;
    let clocks = Clocks::of_by(rt, alloc, dump, suite.clock(), threads)?;
    Ok(TimedSuite { suite, clocks })
}

/// The report on a text over a dump, by its assertions' programs, on this thread.
fn report_checked<'a>(
    alloc: Global,
    dump: Dump,
    text: &'a str,
    size: WindowSize,
) -> Result<Report, Fault<'a>>
    requires held { (c : Contents) × HoldsContents dump c }
    ensures ok { (c : Contents) → HoldsContents dump c
        → IfOk result (λ r. HasReport c text.entry.now (data_of r)) }
    ensures err { (c : Contents) → HoldsContents dump c
        → IfErr result (WhyNoneByPrograms c text.entry.now) }
{
    let TimedSuite { suite, clocks } = timed_suite(alloc, &dump, text)?;
    match report_by_programs(alloc, dump, clocks, &suite, size) {
        Ok(report) => Ok(report),
        Err(fault) => Err(lines_fault(fault)),
    }
}

/// The report over a dump by a team.
fn report_by_team<'a, G: Gate + Sync, R: Threads + Wait + Sync>(
    rt: &R,
    alloc: Global,
    dump: Dump,
    text: &'a str,
    team: TeamSize,
    size: WindowSize,
    gate: &G,
) -> Result<Report, Fault<'a>>
    requires held { (c : Contents) × HoldsContents dump c }
    ensures ok { (c : Contents) → HoldsContents dump c
        → IfOk result (λ r. HasReport c text.entry.now (data_of r)) }
    ensures err { (c : Contents) → HoldsContents dump c
        → IfErr result (WhyNoneByPrograms c text.entry.now) }
{
    let TimedSuite { suite, clocks } = timed_by_team(rt, alloc, &dump, text, team)?;
    match suite_report(rt, alloc, dump, clocks, &suite, team, size, gate) {
        Ok(report) => Ok(report),
        Err(fault) => Err(lines_fault(fault)),
    }
}

/// Reads the dump that a source gives, runs the programs of a text's assertions over it through
/// windows of a size, and writes the report.
pub(crate) fn check_through<'a, S: Source, W: Sink>(
    alloc: Global,
    source: &mut S,
    text: &'a str,
    size: WindowSize,
    out: &mut W,
) -> Result<[u64; 5], Fault<'a>>
    ensures answered { IfOk result (IsAnswered (run_of text.entry.now
        (S.state source.old) (S.state source.new) (W.state out.old) (W.state out.new))) }
    ensures refused { IfErr result (WhyCheckRefused (run_of text.entry.now
        (S.state source.old) (S.state source.new) (W.state out.old) (W.state out.new))) }
{
    let dump = read_dump(alloc, source)?;
    let report = report_checked(alloc, dump, text, size)?;
    written(alloc, &report, out)
}

/// Does what [`check_all`](crate::check_all) does, over a dump that was read: for each source that
/// gave that dump, what that call promises.
///
/// # Errors
///
/// What is wrong with the text, with its clock, with the first of its assertions that has no
/// program, and with their number, as for [`check_all`](crate::check_all), all before anything is
/// written; G1 where the sink failed; and want of memory.
pub fn check_over<'a, W: Sink, G: Gate + Sync, R: Threads + Wait + Sync>(
    rt: &R,
    alloc: Global,
    dump: Dump,
    text: &'a str,
    team: TeamSize,
    size: WindowSize,
    gate: &G,
    out: &mut W,
) -> Result<[u64; 5], Fault<'a>>
    requires held { (c : Contents) × HoldsContents dump c }
    ensures answered { (before after : SourceState) → WasRead before after dump
        → IfOk result (IsAnswered (run_of text.entry.now before after
        (W.state out.old) (W.state out.new))) }
    ensures refused { (before after : SourceState) → WasRead before after dump
        → IfErr result (WhyCheckRefused (run_of text.entry.now before after
        (W.state out.old) (W.state out.new))) }
{
    let report_of_all = report_by_team(rt, alloc, dump, text, team, size, gate)?;
    written(alloc, &report_of_all, out)
}

/// Reads the dump that a source gives, and does what [`check_over`] does.
pub(crate) fn check_by_team<'a, S: Source, W: Sink, G: Gate + Sync, R: Threads + Wait + Sync>(
    rt: &R,
    alloc: Global,
    source: &mut S,
    text: &'a str,
    team: TeamSize,
    size: WindowSize,
    gate: &G,
    out: &mut W,
) -> Result<[u64; 5], Fault<'a>>
    ensures answered { IfOk result (IsAnswered (run_of text.entry.now
        (S.state source.old) (S.state source.new) (W.state out.old) (W.state out.new))) }
    ensures refused { IfErr result (WhyCheckRefused (run_of text.entry.now
        (S.state source.old) (S.state source.new) (W.state out.old) (W.state out.new))) }
{
    let dump = read_dump_by(rt, alloc, source, team.workers())?;
    check_over(rt, alloc, dump, text, team, size, gate, out)
}
