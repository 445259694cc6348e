//! The report on a suite over a dump, by its assertions' programs.

ghost use Rattle.std.specs.Prelude.{◌≡◌, ℕ, List, IfOk, IfErr};
ghost use Rattle.std.specs.List.{AllByRecursion};
ghost use Rattle.vcd_reader.specs.Dump.{Contents};
ghost use Rattle.vcd_reader.specs.Held.{HoldsContents, variables_of};
ghost use Rattle.cycle_window.specs.Held.{AreClocksOf, code_in};
ghost use Rattle.report_lines.specs.Shown.{data_of};
ghost use Rattle.compiler.specs.Conditions.{FitsSuite};
ghost use Rattle.report_programs.specs.Lines.{IsWatched, AreVariables, rows_at};
ghost use Rattle.report_programs.specs.Faults.{WhyNoLines};
ghost use Rattle.report_suites.specs.Reported.{OverRows};
ghost use Rattle.cli.specs.Programs.{lines_fault};

use assertions::Suite;
use cli_faults::Fault;
use cycle_window::{Clocks, WindowSize};
use report_lines::Report;
use report_programs::{LinesFault, lines_of};
use std::alloc::Global;
use vcd_reader::Dump;

/// A fault of a suite's lines, as one of a command.
pub(crate) fn lines_fault(fault: LinesFault) -> Fault<'static>
    ensures { result ≡ lines_fault fault }
{
    match fault {
        LinesFault::Program(fault) => Fault::from(fault),
        LinesFault::BadJob => Fault::BadJob,
        LinesFault::Memory => Fault::Memory,
    }
}

/// The report on a suite at the ticks of its clock, through windows of a size.
pub(crate) fn report_by_programs(
    alloc: Global,
    dump: Dump,
    clocks: Clocks,
    suite: &Suite,
    size: WindowSize,
) -> Result<Report, LinesFault>
    requires clocks { AreClocksOf dump clocks }
    requires watched { AllByRecursion (IsWatched (variables_of dump)) suite.now.names.items }
    requires fit { AllByRecursion (FitsSuite suite.now) suite.now.assertions.items }
    ensures ok { (c : Contents) (signals : List ℕ) → HoldsContents dump c
        → AreVariables c suite.now signals
        → IfOk result (λ r. OverRows suite.now (rows_at c signals (code_in clocks))
        (data_of r)) }
    ensures err { IfErr result (WhyNoLines suite.now) }
{
    let count = clocks.len();
    let lines = lines_of(alloc, dump, clocks, suite, size)?;
    Ok(Report::new(count, lines))
}
