//! The job of a suite's programs.

ghost use Rattle.std.specs.Prelude.{◌≡◌, None, IfOk, IfErr};
ghost use Rattle.std.specs.List.{AllByRecursion, AllZip};
ghost use Rattle.vcd_reader.specs.Held.{variables_of};
ghost use Rattle.cycle_window.specs.Bound.{first_refused};
ghost use Rattle.cycle_window.specs.Held.{AreClocksOf};
ghost use Rattle.workers_core.specs.Wanted.{wanted_in};
ghost use Rattle.compiler.specs.Conditions.{FitsSuite};
ghost use Rattle.report_programs.specs.Lines.{IsWatched};
ghost use Rattle.report_programs.specs.Faults.{IsMadeOf, WhyBadJob, WhyNoLines};

use crate::fault::LinesFault;
use crate::programs::programs_of;
use assertions::Suite;
use cycle_window::Clocks;
use std::alloc::Global;
use vcd_reader::Dump;
use verifier::Verified;
use workers_core::Job;

/// The job of programs whose signals all name variables of their widths.
fn job_of(programs: Vec<Verified>, dump: Dump, clocks: Clocks) -> Result<Job, LinesFault>
    requires clocks { AreClocksOf dump clocks }
    requires fits { first_refused (variables_of dump) (wanted_in programs.items) ≡ None }
    ensures programs { IfOk result (λ j. j.programs.items ≡ programs.items) }
    ensures dump { IfOk result (λ j. j.dump ≡ dump) }
    ensures clocks { IfOk result (λ j. j.clocks ≡ clocks) }
    ensures fault { IfErr result (WhyBadJob programs.items) }
{
    Ok(Job::fitting(programs, dump, clocks)?)
}

/// The job of the programs of a suite's assertions, in their order.
pub(crate) fn suite_job(
    alloc: Global,
    dump: Dump,
    clocks: Clocks,
    suite: &Suite,
) -> Result<Job, LinesFault>
    requires clocks { AreClocksOf dump clocks }
    requires watched { AllByRecursion (IsWatched (variables_of dump)) suite.now.names.items }
    requires fit { AllByRecursion (FitsSuite suite.now) suite.now.assertions.items }
    ensures made { IfOk result (λ j.
        AllZip (IsMadeOf suite.now) suite.now.assertions.items j.programs.items) }
    ensures dump { IfOk result (λ j. j.dump ≡ dump) }
    ensures clocks { IfOk result (λ j. j.clocks ≡ clocks) }
    ensures refused { IfErr result (WhyNoLines suite.now) }
{
    let programs = programs_of(alloc, suite)?;
    job_of(programs, dump, clocks)
}
