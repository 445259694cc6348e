//! The command `explain`.

ghost use Rattle.std.specs.Prelude.{IfOk};
ghost use Rattle.vcd_reader.specs.Dump.{Contents};
ghost use Rattle.vcd_reader.specs.Held.{HoldsContents};

use crate::refused::print_refusals;
use crate::statuses::{report_moved_status, report_rest_status};
use cli::{Fault, NoGate, ShownFailures, Wanted, Waveform, Waves, explain_one, failures_over};
use cli_shell::{
    REFUSED_STATUS, Sources, StandardError, look_whether_fits, open, print_bytes,
    print_error_lines, read_chosen, read_labelled, shown_output, write_save,
};
use cli_team::header_in;
use lint::{Rest, rest_over};
use signals::Counted;
use source_files::Origin;
use std::alloc::{AllocError, Global};
use std::fs::Files;
use std::io::{Print, Read};
use std::sync::Wait;
use std::thread::Threads;
use vcd_reader::{Dump, read_dump_and_bytes};
use workers_core::TeamSize;

/// What is explained, and where what GTKWave is to show goes.
#[derive(Clone, Copy)]
pub(crate) struct ExplainAsked<'a> {
    pub vcd: &'a str,
    /// Patterns of the names of the assertions whose failures are explained; none where all are.
    pub only: &'a [String],
    /// Whether what is refused is told, and failures of the rest are explained.
    pub keep_going: bool,
    pub wanted: Wanted<'a>,
    pub gtkw: Option<&'a str>,
    /// How many bytes of stack there are.
    pub stack: usize,
}

/// By how many workers a text is judged whose failures are explained.
const WORKERS: u64 = 4;

/// The size of the team.
fn team_size() -> Result<TeamSize, Fault<'static>> {
    match TeamSize::new(WORKERS) {
        Ok(team) => Ok(team),
        Err(_) => Err(Fault::BadWorkers),
    }
}

/// Explains failed attempts; the text goes to standard output. The answer is how many.
fn explain_to_output<'a, R: Print + AllocGlobal + Threads + Wait + Sync, D: Read + Drop>(
    rt: &R,
    dump: D,
    sources: &'a Sources,
    wanted: &Wanted<'_>,
) -> Result<u64, Fault<'a>> {
    let team = team_size()?;
    let mut dump = Counted::new(dump);
    let mut out = shown_output(rt);
    explain_one(
        rt,
        rt.alloc(),
        &mut dump,
        sources.text.as_str(),
        &sources.origin(),
        wanted,
        team,
        &NoGate,
        &mut out,
    )
}

/// A dump in memory, and what GTKWave calls its variables, which is told from its header.
#[derive(Drop)]
struct NamedDump {
    dump: Dump,
    waves: Waves,
}

/// Reads a dump, and what GTKWave calls its variables.
fn read_named_dump<R: AllocGlobal + Threads, D: Read + Drop>(
    rt: &R,
    dump: D,
) -> Result<NamedDump, Fault<'static>>
    ensures { IfOk result (λ s. (c : Contents) × HoldsContents s.dump c) }
{
    let threads = team_size()?.workers();
    let mut dump = Counted::new(dump);
    let (dump, bytes) = read_dump_and_bytes(rt, rt.alloc(), &mut dump, threads)?;
    let waves = Waves::of(rt.alloc(), header_in(bytes.as_slice()))?;
    Ok(NamedDump { dump, waves })
}

/// Explains failed attempts of a text over a dump in memory; what GTKWave is to show goes to a
/// file, if one is asked for, and then the text to standard output. The answer is how many.
fn explain_dump<'a, R: Files + Print + AllocGlobal + Threads + Wait + Sync>(
    rt: &R,
    read: NamedDump,
    text: &'a str,
    origin: &Origin<'_>,
    asked: &ExplainAsked<'_>,
) -> Result<u64, Fault<'a>>
    requires held { (c : Contents) × HoldsContents read.dump c }
{
    let team = team_size()?;
    let NamedDump { dump, waves } = read;
    let failures = failures_in(rt, dump, &waves, text, origin, asked, team)?;
    if let Some(path) = asked.gtkw {
        write_save(rt, path, failures.save.as_slice())?;
    }
    print_bytes(rt, failures.text.as_bytes())?;
    Ok(failures.count)
}

/// What explains failed attempts of a text over a dump in memory.
fn failures_in<'a, R: AllocGlobal + Threads + Wait + Sync>(
    rt: &R,
    dump: Dump,
    waves: &Waves,
    text: &'a str,
    origin: &Origin<'_>,
    asked: &ExplainAsked<'_>,
    team: TeamSize,
) -> Result<ShownFailures, Fault<'a>>
    requires held { (c : Contents) × HoldsContents dump c }
{
    let waveform = Waveform {
        path: asked.vcd,
        waves,
    };
    failures_over(
        rt,
        rt.alloc(),
        dump,
        text,
        origin,
        &asked.wanted,
        team,
        &NoGate,
        &waveform,
    )
}

/// Reads a dump, and explains failed attempts over it, as [`explain_dump`] does.
fn explain_to_file<'a, R: Files + Print + AllocGlobal + Threads + Wait + Sync, D: Read + Drop>(
    rt: &R,
    dump: D,
    sources: &'a Sources,
    asked: &ExplainAsked<'_>,
) -> Result<u64, Fault<'a>> {
    let read = read_named_dump(rt, dump)?;
    explain_dump(rt, read, sources.text.as_str(), &sources.origin(), asked)
}

/// Adds the patterns by which assertions were chosen.
fn push_patterns(line: &mut String, only: &[String]) -> Result<(), AllocError> {
    let mut word = " of ";
    for pattern in only {
        line.push_str(word)?;
        line.push_str(pattern.as_str())?;
        word = ", ";
    }
    Ok(())
}

/// What was looked for where nothing was found.
fn none_found(alloc: Global, asked: &ExplainAsked<'_>) -> Result<String, AllocError> {
    let mut line = String::from_str(alloc, "svamon: no attempt")?;
    push_patterns(&mut line, asked.only)?;
    if let Some(start) = asked.wanted.start {
        let began = format!(in alloc; " that began at clock {start}")?;
        line.push_str(began.as_str())?;
    }
    line.push_str(" failed\n")?;
    Ok(line)
}

/// Prints what was looked for where nothing was found.
fn print_none_found<R: StandardError + AllocGlobal>(rt: &R, asked: &ExplainAsked<'_>) {
    if let Ok(line) = none_found(rt.alloc(), asked) {
        print_error_lines(rt, line.as_str());
    }
}

/// The status of so many explained attempts: 1 where there is one, 0 where there is none, and what
/// was looked for is printed then.
fn report_count_status<'a, R: StandardError + AllocGlobal>(
    rt: &R,
    asked: &ExplainAsked<'_>,
    explained: Result<u64, Fault<'a>>,
) -> Result<u8, Fault<'a>> {
    if explained? > 0 {
        return Ok(1);
    }
    print_none_found(rt, asked);
    Ok(0)
}

/// Explains failed attempts of a text's assertions over a dump, and answers the status; the line of
/// a fault goes to standard error.
fn explain_whole<
    R: Files + Print + StandardError + AllocGlobal + Threads + Wait + Sync,
    D: Read + Drop,
>(rt: &R, dump: D, sources: &Sources, asked: &ExplainAsked<'_>) -> u8 {
    let explained = match asked.gtkw {
        None => explain_to_output(rt, dump, sources, &asked.wanted),
        Some(_) => explain_to_file(rt, dump, sources, asked),
    };
    let outcome = report_count_status(rt, asked, explained);
    report_moved_status(rt, sources.added.as_slice(), outcome)
}

/// Explains failures of what is left of a text over a dump in memory, and answers the status; the
/// line of a fault goes to standard error.
fn explain_rest<R: Files + Print + StandardError + AllocGlobal + Threads + Wait + Sync>(
    rt: &R,
    dump: NamedDump,
    text: &str,
    rest: &Rest,
    origin: &Origin<'_>,
    asked: &ExplainAsked<'_>,
) -> u8
    requires held { (c : Contents) × HoldsContents dump.dump c }
{
    let explained = explain_dump(rt, dump, text, origin, asked);
    let outcome = report_count_status(rt, asked, explained);
    report_rest_status(rt, rest, origin.added, outcome)
}

/// Tells all that is refused of a text over a dump in memory, and explains failures of the rest:
/// status 2 where something was refused.
fn explain_keep_going<R: Files + Print + StandardError + AllocGlobal + Threads + Wait + Sync>(
    rt: &R,
    dump: NamedDump,
    sources: &Sources,
    asked: &ExplainAsked<'_>,
) -> Result<u8, Fault<'static>>
    requires held { (c : Contents) × HoldsContents dump.dump c }
{
    let origin = sources.origin();
    let rest = rest_over(rt.alloc(), &dump.dump, sources.text.as_str(), &origin)?;
    let Some(text) = print_refusals(rt, sources.text.as_str(), &rest) else {
        return Ok(REFUSED_STATUS);
    };
    Ok(explain_rest(rt, dump, text, &rest, &origin, asked))
}

/// Explains failures of a text over a dump, or of what is left of it where what is refused is to be
/// told and left out, and answers the status: 1 where one was explained, 0 where none was.
pub(crate) fn explain_sources<
    R: Files + Print + StandardError + AllocGlobal + Threads + Wait + Sync,
    D: Read + Drop,
>(rt: &R, dump: D, sources: &Sources, asked: &ExplainAsked<'_>) -> Result<u8, Fault<'static>> {
    look_whether_fits(rt.alloc(), sources.text.as_str(), asked.stack)?;
    if !asked.keep_going {
        return Ok(explain_whole(rt, dump, sources, asked));
    }
    let dump = read_named_dump(rt, dump)?;
    explain_keep_going(rt, dump, sources, asked)
}

/// Opens the dump, then reads the text, and explains its failures.
pub(crate) fn serve_explain<R: Files + Print + StandardError + AllocGlobal + Threads + Wait + Sync>(
    rt: &R,
    sva: &[String],
    axi: Option<&str>,
    asked: &ExplainAsked<'_>,
) -> Result<u8, Fault<'static>> {
    let dump = open(rt, asked.vcd)?;
    let sources = if asked.keep_going {
        read_labelled(rt, sva, axi, asked.only)?
    } else {
        read_chosen(rt, sva, axi, asked.only)?
    };
    explain_sources(rt, dump, &sources, asked)
}
