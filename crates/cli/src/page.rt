//! The report on a text over a dump as a page.

ghost use Rattle.std.specs.Prelude.{IfOk, IfErr};
ghost use Rattle.std.specs.List.{AllByRecursion};
ghost use Rattle.vcd_reader.specs.Dump.{Contents};
ghost use Rattle.vcd_reader.specs.Held.{HoldsContents};
ghost use Rattle.report_explained.specs.Told.{HasLine};
ghost use Rattle.report_lines.specs.Shown.{data_of};
ghost use Rattle.cli.specs.Explained.{IsPageOf, IsPageOver, WhyNotExplained, first_ones};
ghost use Rattle.cli.specs.Outcomes.{WhyNoneByPrograms};
ghost use Rattle.cli.specs.Reported.{HasReport};
ghost use Rattle.cli.specs.Timed.{TellsTimes};

use crate::explained::{Explained, explained_over};
use crate::heads::standings_of;
use crate::timed::TimedReport;
use cli_faults::Fault;
use cycle_window::WindowSize;
use report_explained::{Wanted, told_of};
use report_forms::Provenance;
use report_page::page;
use report_programs::Gate;
use source_files::Origin;
use std::alloc::{AllocError, Global};
use std::sync::Wait;
use std::thread::Threads;
use vcd_reader::Dump;
use workers_core::TeamSize;

/// The paths of a dump and of an assertions' text, which a page names.
#[derive(Clone, Copy)]
pub struct Paths<'p> {
    pub dump: &'p str,
    pub text: &'p str,
}

/// A report, the times of its clocks, and the page of it.
#[derive(Drop)]
pub struct PagedReport {
    pub timed: TimedReport,
    /// The page, in HTML.
    pub page: Vec<u8>,
}

/// The page of a report, with the failed attempts that were explained.
fn page_of(
    alloc: Global,
    explained: &Explained<'_>,
    paths: &Paths<'_>,
    origin: &Origin<'_>,
) -> Result<Vec<u8>, AllocError>
    requires { AllByRecursion (HasLine explained.now.trace.report.lines.items)
        explained.now.explanations.items }
    ensures { IfOk result (λ page. IsPageOf explained.now paths.now page.items) }
{
    let lines = explained.trace.report.lines.as_slice();
    let explanations = explained.explanations.as_slice();
    let standings = standings_of(alloc, &explained.heads, origin, explanations)?;
    let told = told_of(alloc, lines, explanations, standings.as_slice())?;
    let from = Provenance {
        dump: paths.dump,
        text: paths.text,
        times: explained.trace.times.as_slice(),
    };
    let bytes = page(alloc, &from, &explained.trace.report, told.as_slice())?;
    Ok(bytes)
}

/// The report that [`report_over`](crate::report_over) makes, and the same as a page of HTML; of
/// each assertion as many failed attempts are shown as `most` says, the first ones. `origin` tells
/// from which files the text was made.
///
/// # Errors
///
/// Those of [`report_over`](crate::report_over).
pub fn page_over<'a, G: Gate + Sync, R: Threads + Wait + Sync>(
    rt: &R,
    alloc: Global,
    dump: Dump,
    text: &'a str,
    team: TeamSize,
    size: WindowSize,
    gate: &G,
    paths: &Paths<'_>,
    origin: &Origin<'_>,
    most: u64,
) -> Result<PagedReport, Fault<'a>>
    requires held { (c : Contents) × HoldsContents dump c }
    ensures ok { (c : Contents) → HoldsContents dump c
        → IfOk result (λ p. HasReport c text.entry.now (data_of p.timed.report)) }
    ensures timed { (c : Contents) → HoldsContents dump c → IfOk result (λ p.
        TellsTimes c text.entry.now p.timed.report.clocks p.timed.times.items) }
    ensures page { (c : Contents) → HoldsContents dump c → IfOk result (λ p.
        IsPageOver c text.entry.now (first_ones most) (data_of p.timed.report) paths.now
        p.timed.times.items p.page.items) }
    ensures err { (c : Contents) → HoldsContents dump c
        → IfErr result (WhyNotExplained c text.entry.now (first_ones most)) }
{
    let wanted = Wanted {
        only: None,
        start: None,
        most,
    };
    let explained = explained_over(rt, alloc, dump, text, &wanted, team, size, gate)?;
    let page = page_of(alloc, &explained, paths, origin)?;
    let Explained { trace, .. } = explained;
    let timed = TimedReport {
        report: trace.report,
        times: trace.times,
    };
    Ok(PagedReport { timed, page })
}
