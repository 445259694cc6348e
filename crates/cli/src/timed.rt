//! The report on a text over a dump, with the times of its clocks.

ghost use Rattle.std.specs.Prelude.{IfOk, IfErr};
ghost use Rattle.vcd_reader.specs.Dump.{Contents};
ghost use Rattle.vcd_reader.specs.Held.{HoldsContents};
ghost use Rattle.report_lines.specs.Shown.{data_of};
ghost use Rattle.cli.specs.Reported.{HasReport};
ghost use Rattle.cli.specs.Timed.{TellsTimes};
ghost use Rattle.cli.specs.Outcomes.{WhyNoneByPrograms};

use crate::checked::{TimedSuite, timed_by_team};
use crate::programs::lines_fault;
use crate::times::times_of;
use cli_faults::Fault;
use cycle_window::WindowSize;
use report_lines::Report;
use report_programs::{Gate, suite_report};
use std::alloc::Global;
use std::sync::Wait;
use std::thread::Threads;
use vcd_reader::Dump;
use workers_core::TeamSize;

/// A report, and the times of the clocks that it is over.
#[derive(Drop)]
pub struct TimedReport {
    pub report: Report,
    /// The time of each clock, from the first on, in the dump's unit.
    pub times: Vec<u64>,
}

/// Makes the report that [`check_all`](crate::check_all) writes, over a dump that was read, and has
/// the times of its clocks with it. Nothing is written.
///
/// # Errors
///
/// What is wrong with the text, with its clock, with the first of its assertions that has no
/// program, and with their number, as for [`check_all`](crate::check_all); and want of memory.
pub fn report_over<'a, G: Gate + Sync, R: Threads + Wait + Sync>(
    rt: &R,
    alloc: Global,
    dump: Dump,
    text: &'a str,
    team: TeamSize,
    size: WindowSize,
    gate: &G,
) -> Result<TimedReport, Fault<'a>>
    requires held { (c : Contents) × HoldsContents dump c }
    ensures ok { (c : Contents) → HoldsContents dump c
        → IfOk result (λ t. HasReport c text.entry.now (data_of t.report)) }
    ensures timed { (c : Contents) → HoldsContents dump c
        → IfOk result (λ t. TellsTimes c text.entry.now t.report.clocks t.times.items) }
    ensures err { (c : Contents) → HoldsContents dump c
        → IfErr result (WhyNoneByPrograms c text.entry.now) }
{
    let TimedSuite { suite, clocks } = timed_by_team(rt, alloc, &dump, text, team)?;
    let times = times_of(alloc, &dump, &clocks, clocks.len() as usize)?;
    match suite_report(rt, alloc, dump, clocks, &suite, team, size, gate) {
        Ok(report) => Ok(TimedReport { report, times }),
        Err(fault) => Err(lines_fault(fault)),
    }
}
