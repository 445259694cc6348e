//! The command `check`.

ghost use Rattle.std.specs.Prelude.{IfOk};
ghost use Rattle.vcd_reader.specs.Dump.{Contents};
ghost use Rattle.vcd_reader.specs.Held.{HoldsContents};

use crate::refused::{paths_with, print_refusals, refused_of};
use crate::statuses::{report_moved_status, report_rest_status};
use cli::{Fault, NoGate, PagedReport, Paths, page_over, report_over};
use cli_shell::{
    FormFiles, Provenance, REFUSED_STATUS, Refused, Sources, StandardError, look_whether_fits,
    open, print_report, read_chosen, read_labelled, status_of_totals, told_paths,
};
use cli_team::{TeamCase, open_team, status_with};
use cli_words::TeamFiles;
use cycle_window::WindowSize;
use lint::{Rest, rest_over};
use signals::Counted;
use source_files::Origin;
use std::fs::Files;
use std::io::{Print, Read};
use std::sync::Wait;
use std::thread::Threads;
use vcd_reader::{Dump, read_dump_by};
use workers_core::TeamSize;

/// By how many workers, and through windows of how many clocks.
#[derive(Clone, Copy)]
pub struct Team {
    pub workers: u64,
    pub window: u64,
}

impl Team {
    /// The team and the windows, where both sizes are in their ranges.
    pub fn sizes(self) -> Result<(TeamSize, WindowSize), Fault<'static>> {
        let windows = WindowSize::new(self.window)?;
        match TeamSize::new(self.workers) {
            Ok(team) => Ok((team, windows)),
            Err(_) => Err(Fault::BadWorkers),
        }
    }
}

/// What is judged, by whom, and where the report goes.
#[derive(Clone, Copy)]
pub struct Asked<'a> {
    pub vcd: &'a str,
    pub sva: &'a [String],
    pub axi: Option<&'a str>,
    /// A team's files, which are judged in place of a text where there are any.
    pub team_files: &'a TeamFiles,
    /// Patterns of the names of the assertions that are judged; none where all are.
    pub only: &'a [String],
    /// Whether what is refused is told, and the rest is judged.
    pub keep_going: bool,
    pub team: Team,
    pub files: FormFiles<'a>,
    /// How many bytes of stack there are.
    pub stack: usize,
}

impl<'a> Asked<'a> {
    /// The files of the text, or those of a team.
    fn files_of_text(&self) -> &'a [String] {
        if self.team_files.files.is_empty() {
            self.sva
        } else {
            self.team_files.files.as_slice()
        }
    }
}

/// How many failed attempts of each assertion a page shows.
const SHOWN: u64 = 3;

/// The report on a text over a dump in memory; the page is made where it is asked for, and names
/// what is refused of the text.
fn make_paged_report<'a, R: Files + AllocGlobal + Threads + Wait + Sync>(
    rt: &R,
    dump: Dump,
    text: &'a str,
    origin: &Origin<'_>,
    asked: &Asked<'_>,
    refused: &[Refused<'_>],
) -> Result<PagedReport, Fault<'a>>
    requires held { (c : Contents) × HoldsContents dump c }
{
    let (team, size) = asked.team.sizes()?;
    if asked.files.html.is_none() {
        let timed = report_over(rt, rt.alloc(), dump, text, team, size, &NoGate)?;
        let page = Vec::new(rt.alloc());
        return Ok(PagedReport { timed, page });
    }
    let told = told_paths(rt.alloc(), asked.files_of_text(), asked.axi)?;
    let told = paths_with(rt.alloc(), told.as_str(), refused)?;
    let paths = Paths {
        dump: asked.vcd,
        text: told.as_str(),
    };
    page_over(
        rt,
        rt.alloc(),
        dump,
        text,
        team,
        size,
        &NoGate,
        &paths,
        origin,
        SHOWN,
    )
}

/// Judges a text over a dump in memory by a team; the report goes to files in other forms, with
/// what was refused of the text before, and to standard output. The answer is the status.
fn judge_dump<'a, R: Files + Print + AllocGlobal + Threads + Wait + Sync>(
    rt: &R,
    dump: Dump,
    text: &'a str,
    origin: &Origin<'_>,
    asked: &Asked<'_>,
    refused: &[Refused<'_>],
) -> Result<u8, Fault<'a>>
    requires held { (c : Contents) × HoldsContents dump c }
{
    let made = make_paged_report(rt, dump, text, origin, asked, refused)?;
    let paths = told_paths(rt.alloc(), asked.files_of_text(), asked.axi)?;
    let from = Provenance {
        dump: asked.vcd,
        text: paths.as_str(),
        times: made.timed.times.as_slice(),
    };
    let report = &made.timed.report;
    let page = made.page.as_slice();
    let totals = print_report(rt, &asked.files, &from, refused, report, page);
    status_of_totals(totals)
}

/// Reads a dump by as many threads at most as the team has workers. Windows and workers out of
/// their range are refused before anything is read.
fn read_by_team<R: AllocGlobal + Threads, D: Read + Drop>(
    rt: &R,
    dump: D,
    team: Team,
) -> Result<Dump, Fault<'static>>
    ensures { IfOk result (λ read. (c : Contents) × HoldsContents read c) }
{
    let (team, _size) = team.sizes()?;
    let read = read_dump_by(rt, rt.alloc(), &mut Counted::new(dump), team.workers())?;
    Ok(read)
}

/// Reads a dump, and judges a text over it, as [`judge_dump`] does.
fn read_and_judge<'a, R: Files + Print + AllocGlobal + Threads + Wait + Sync, D: Read + Drop>(
    rt: &R,
    dump: D,
    text: &'a str,
    origin: &Origin<'_>,
    asked: &Asked<'_>,
) -> Result<u8, Fault<'a>> {
    let dump = read_by_team(rt, dump, asked.team)?;
    judge_dump(rt, dump, text, origin, asked, &[])
}

/// Judges what is left of a text over a dump in memory.
fn judge_rest<'a, R: Files + Print + AllocGlobal + Threads + Wait + Sync>(
    rt: &R,
    dump: Dump,
    text: &'a str,
    rest: &Rest,
    origin: &Origin<'_>,
    asked: &Asked<'_>,
) -> Result<u8, Fault<'a>>
    requires held { (c : Contents) × HoldsContents dump c }
{
    let refused = refused_of(rt.alloc(), rest)?;
    judge_dump(rt, dump, text, origin, asked, refused.as_slice())
}

/// Judges what is left of a text over a dump in memory, and answers the status; the line of a fault
/// goes to standard error.
fn check_rest<R: Files + Print + StandardError + AllocGlobal + Threads + Wait + Sync>(
    rt: &R,
    dump: Dump,
    text: &str,
    rest: &Rest,
    origin: &Origin<'_>,
    asked: &Asked<'_>,
) -> u8
    requires held { (c : Contents) × HoldsContents dump c }
{
    let outcome = judge_rest(rt, dump, text, rest, origin, asked);
    report_rest_status(rt, rest, origin.added, outcome)
}

/// Tells all that is refused of a text over a dump in memory, and judges the rest: status 2 where
/// something was refused.
fn check_keep_going<R: Files + Print + StandardError + AllocGlobal + Threads + Wait + Sync>(
    rt: &R,
    dump: Dump,
    sources: &Sources,
    asked: &Asked<'_>,
) -> Result<u8, Fault<'static>>
    requires held { (c : Contents) × HoldsContents dump c }
{
    let origin = sources.origin();
    let rest = rest_over(rt.alloc(), &dump, sources.text.as_str(), &origin)?;
    let Some(text) = print_refusals(rt, sources.text.as_str(), &rest) else {
        return Ok(REFUSED_STATUS);
    };
    Ok(check_rest(rt, dump, text, &rest, &origin, asked))
}

/// Judges a text over a dump, and answers the status; the line of a fault goes to standard error.
fn check_whole<
    R: Files + Print + StandardError + AllocGlobal + Threads + Wait + Sync,
    D: Read + Drop,
>(rt: &R, dump: D, sources: &Sources, asked: &Asked<'_>) -> u8 {
    let origin = sources.origin();
    let outcome = read_and_judge(rt, dump, sources.text.as_str(), &origin, asked);
    report_moved_status(rt, origin.added, outcome)
}

/// Judges a text over a dump, or what is left of it where what is refused is to be told and left
/// out.
fn check_sources<
    R: Files + Print + StandardError + AllocGlobal + Threads + Wait + Sync,
    D: Read + Drop,
>(rt: &R, dump: D, sources: &Sources, asked: &Asked<'_>) -> Result<u8, Fault<'static>> {
    look_whether_fits(rt.alloc(), sources.text.as_str(), asked.stack)?;
    if !asked.keep_going {
        return Ok(check_whole(rt, dump, sources, asked));
    }
    let dump = read_by_team(rt, dump, asked.team)?;
    check_keep_going(rt, dump, sources, asked)
}

/// Judges what is written of a team's files over a dump: status 2 where an assertion is refused,
/// here or where it is compiled.
fn check_team<R: Files + Print + StandardError + AllocGlobal + Threads + Wait + Sync>(
    rt: &R,
    asked: &Asked<'_>,
) -> Result<u8, Fault<'static>> {
    let Some(case) = open_team(rt, asked.vcd, asked.team_files, asked.only)? else {
        return Ok(REFUSED_STATUS);
    };
    let TeamCase {
        dump,
        sources,
        is_whole,
    } = case;
    let asked = Asked {
        keep_going: true,
        ..*asked
    };
    let status = check_sources(rt, dump, &sources, &asked)?;
    Ok(status_with(is_whole, status))
}

/// Opens the dump, then reads the text or a team's files, and judges it.
pub fn serve_check<R: Files + Print + StandardError + AllocGlobal + Threads + Wait + Sync>(
    rt: &R,
    asked: &Asked<'_>,
) -> Result<u8, Fault<'static>> {
    if !asked.team_files.files.is_empty() {
        return check_team(rt, asked);
    }
    let dump = open(rt, asked.vcd)?;
    let sources = if asked.keep_going {
        read_labelled(rt, asked.sva, asked.axi, asked.only)?
    } else {
        read_chosen(rt, asked.sva, asked.axi, asked.only)?
    };
    check_sources(rt, dump, &sources, asked)
}
