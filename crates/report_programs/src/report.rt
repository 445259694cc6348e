//! The report on a suite by several workers.

ghost use Rattle.std.specs.Prelude.{ℕ, List, IfOk, IfErr};
ghost use Rattle.std.specs.List.{AllByRecursion};
ghost use Rattle.vcd_reader.specs.Dump.{Contents};
ghost use Rattle.vcd_reader.specs.Held.{HoldsContents, variables_of};
ghost use Rattle.cycle_window.specs.Held.{AreClocksOf, code_in};
ghost use Rattle.report_lines.specs.Shown.{data_of};
ghost use Rattle.compiler.specs.Conditions.{FitsSuite};
ghost use Rattle.report_programs.specs.Lines.{IsWatched, AreVariables, rows_at, IsReportOf};
ghost use Rattle.report_programs.specs.Faults.{WhyNoLines};

use crate::fault::LinesFault;
use crate::job::suite_job;
use assertions::Suite;
use cycle_window::{Clocks, WindowSize};
use report_lines::Report;
use std::alloc::Global;
use std::sync::Wait;
use std::thread::Threads;
use vcd_reader::Dump;
use workers::{Gate, job_report, let_go};
use workers_core::TeamSize;

/// The report on all assertions of a suite, by a team through windows of a size. Neither the team
/// nor the size nor the gate changes it. The dump's memory is given back in a thread of its own
/// ([`let_go`](workers::let_go)).
pub fn suite_report<G: Gate + Sync, R: Threads + Wait + Sync>(
    rt: &R,
    alloc: Global,
    dump: Dump,
    clocks: Clocks,
    suite: &Suite,
    team: TeamSize,
    size: WindowSize,
    gate: &G,
) -> Result<Report, LinesFault>
    requires clocks { AreClocksOf dump clocks }
    requires watched { AllByRecursion (IsWatched (variables_of dump)) suite.now.names.items }
    requires fit { AllByRecursion (FitsSuite suite.now) suite.now.assertions.items }
    ensures report { (c : Contents) (signals : List ℕ) → HoldsContents dump c
        → AreVariables c suite.now signals
        → IfOk result (λ r. IsReportOf suite.now (rows_at c signals (code_in clocks))
        (data_of r)) }
    ensures refused { IfErr result (WhyNoLines suite.now) }
{
    let job = suite_job(alloc, dump, clocks, suite)?;
    let report = job_report(rt, alloc, &job, team, size, gate)?;
    let_go(rt, job);
    Ok(report)
}
