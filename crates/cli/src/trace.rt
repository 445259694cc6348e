//! A report, with the rows that it is on and the times of its clocks.

ghost use Rattle.std.specs.Prelude.{IfOk, IfErr, map};
ghost use Rattle.vcd_reader.specs.Dump.{Contents};
ghost use Rattle.vcd_reader.specs.Held.{HoldsContents, variables_of};
ghost use Rattle.expressions.specs.Rows.{HasCounts};
ghost use Rattle.report_lines.specs.Lines.{line};
ghost use Rattle.report_lines.specs.Shown.{data_of};
ghost use Rattle.report_suites.specs.Judged.{AreLinesOver};
ghost use Rattle.cli.specs.Explained.{IsTraced};
ghost use Rattle.cli.specs.Outcomes.{WhyNoneByPrograms};

use crate::checked::{TimedSuite, timed_by_team};
use crate::programs::lines_fault;
use crate::times::times_of;
use assertions::Suite;
use cli_faults::Fault;
use cycle_window::WindowSize;
use expressions::Rows;
use report_lines::Report;
use report_programs::{Gate, suite_report};
use report_suites::suite_rows;
use std::alloc::Global;
use std::sync::Wait;
use std::thread::Threads;
use vcd_reader::Dump;
use workers_core::TeamSize;

/// A suite, the rows and the times of its clocks, and the report on it.
#[derive(Drop)]
pub(crate) struct Trace {
    pub suite: Suite,
    pub rows: Rows,
    pub times: Vec<u64>,
    pub report: Report,
}

/// The report on a text over a dump, by a team through windows of a size, with the rows that it is
/// on and the times of its clocks.
pub(crate) fn trace_of<'a, G: Gate + Sync, R: Threads + Wait + Sync>(
    rt: &R,
    alloc: Global,
    dump: Dump,
    text: &'a str,
    team: TeamSize,
    size: WindowSize,
    gate: &G,
) -> Result<Trace, Fault<'a>>
    requires held { (c : Contents) × HoldsContents dump c }
    ensures ok { (c : Contents) → HoldsContents dump c → IfOk result (λ t.
        IsTraced c text.entry.now t.suite t.rows (data_of t.report) t.times.items) }
    ensures counted { IfOk result (λ t. HasCounts t.suite.counters.items t.rows) }
    ensures judged { IfOk result (λ t. AreLinesOver t.suite t.rows.signals
        t.suite.assertions.items (map line t.report.lines.items)) }
    ensures err { (c : Contents) → HoldsContents dump c
        → IfErr result (WhyNoneByPrograms c text.entry.now) }
{
    let TimedSuite { suite, clocks } = timed_by_team(rt, alloc, &dump, text, team)?;
    let rows = suite_rows(alloc, &dump, &clocks, &suite, size)?;
    let times = times_of(alloc, &dump, &clocks, rows.signals.len())?;
    match suite_report(rt, alloc, dump, clocks, &suite, team, size, gate) {
        Ok(report) => Ok(Trace {
            suite,
            rows,
            times,
            report,
        }),
        Err(fault) => Err(lines_fault(fault)),
    }
}
