//! The lines of all assertions of a suite.

ghost use Rattle.std.specs.Prelude.{ℕ, List, IfOk, IfErr, map};
ghost use Rattle.std.specs.List.{AllByRecursion, AllZip};
ghost use Rattle.vcd_reader.specs.Dump.{Contents};
ghost use Rattle.vcd_reader.specs.Held.{HoldsContents, variables_of};
ghost use Rattle.cycle_window.specs.Held.{AreClocksOf, code_in};
ghost use Rattle.report_lines.specs.Lines.{line};
ghost use Rattle.compiler.specs.Conditions.{FitsSuite};
ghost use Rattle.report_programs.specs.Lines.{IsWatched, AreVariables, rows_at, IsLineOf};
ghost use Rattle.report_programs.specs.Faults.{WhyNoLines};

use crate::fault::LinesFault;
use crate::job::suite_job;
use assertions::Suite;
use cycle_window::{Clocks, WindowSize};
use report_lines::Line;
use std::alloc::Global;
use vcd_reader::Dump;
use workers_core::job_lines;

/// The lines of all assertions of a suite, in their order, by a core of one worker through windows
/// of a size, which changes no line.
pub fn lines_of(
    alloc: Global,
    dump: Dump,
    clocks: Clocks,
    suite: &Suite,
    size: WindowSize,
) -> Result<Vec<Line>, LinesFault>
    requires clocks { AreClocksOf dump clocks }
    requires watched { AllByRecursion (IsWatched (variables_of dump)) suite.now.names.items }
    requires fit { AllByRecursion (FitsSuite suite.now) suite.now.assertions.items }
    ensures lines { (c : Contents) (signals : List ℕ) → HoldsContents dump c
        → AreVariables c suite.now signals
        → IfOk result (λ ls. AllZip (IsLineOf suite.now (rows_at c signals (code_in clocks)))
        suite.now.assertions.items (map line ls.items)) }
    ensures refused { IfErr result (WhyNoLines suite.now) }
{
    let job = suite_job(alloc, dump, clocks, suite)?;
    Ok(job_lines(alloc, &job, size)?)
}
