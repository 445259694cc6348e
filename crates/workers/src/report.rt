//! The report of one program.

ghost use Rattle.std.specs.Prelude.{◌≡◌, ◌∷◌, [], IfOk, IfErr, map};
ghost use Rattle.vcd_reader.specs.Dump.{Contents};
ghost use Rattle.vcd_reader.specs.Held.{HoldsContents, variables_of};
ghost use Rattle.cycle_window.specs.Bound.{IsClock, IsClockFault, IsSignalFault};
ghost use Rattle.cycle_window.specs.Held.{code_in, AreClocksOf};
ghost use Rattle.report_lines.specs.Shown.{data_of};
ghost use Rattle.machine_batches.specs.Lines.{attempts_of};
ghost use Rattle.machine_batches.specs.Reported.{HasSignals, ReportsRun, WhyNoRun, wanted_slot};

use crate::letting_go::let_go;
use crate::runs::job_report;
use crate::worker::Gate;
use cycle_window::{Clocks, WindowFault, WindowSize};
use report_lines::Report;
use std::alloc::Global;
use std::sync::Wait;
use std::thread::Threads;
use vcd_reader::Dump;
use verifier::Verified;
use workers_core::{Job, TeamSize};

/// The clock that a program names, by as many threads at most as a team has workers.
fn clocks_of<R: Threads>(
    rt: &R,
    alloc: Global,
    dump: &Dump,
    verified: &Verified,
    team: TeamSize,
) -> Result<Clocks, WindowFault>
    ensures clock { IfOk result (λ k.
        IsClock (variables_of dump.now) verified.now.header.clock (code_in k)) }
    ensures ticks { IfOk result (AreClocksOf dump.now) }
    ensures fault { IfErr result
        (IsClockFault (variables_of dump.now) verified.now.header.clock) }
{
    let threads = team.workers();
    Clocks::of_by(rt, alloc, dump, verified.program().clock.as_str(), threads)
}

/// The job of one program, at the ticks of these clocks of the dump.
fn job_of(alloc: Global, dump: Dump, verified: Verified, clocks: Clocks) -> Result<Job, WindowFault>
    requires { AreClocksOf dump clocks }
    ensures programs { IfOk result (λ j. j.programs.items ≡ verified ∷ []) }
    ensures dump { IfOk result (λ j. j.dump ≡ dump) }
    ensures clocks { IfOk result (λ j. j.clocks ≡ clocks) }
    ensures fits { IfOk result (λ _. HasSignals (variables_of dump) verified) }
    ensures fault { IfErr result
        (IsSignalFault (variables_of dump) (map wanted_slot verified.signals)) }
{
    Job::of_one(alloc, verified, dump, clocks)
}

/// The report of a verified program over a dump, on the clock that it names, by a team through
/// windows of a size. Neither the team nor the size nor the gate changes it. Threads of the team
/// look for the ticks of the clock, too. The dump's memory is given back in a thread of its own
/// ([`let_go`](crate::letting_go::let_go)).
///
/// # Errors
///
/// C1 and C2 of the clock, C4 and C5 of the first signal that has one, and want of memory.
pub fn report_run<G: Gate + Sync, R: Threads + Wait + Sync>(
    rt: &R,
    alloc: Global,
    dump: Dump,
    verified: Verified,
    team: TeamSize,
    size: WindowSize,
    gate: &G,
) -> Result<Report, WindowFault>
    ensures report { (c : Contents) → HoldsContents dump c
        → IfOk result (λ r. ReportsRun c verified (data_of r)) }
    // One attempt begins at each clock, and each is counted once.
    ensures count { IfOk result (λ r. attempts_of r.total ≡ r.clocks) }
    // The first cause that stands.
    ensures refused { (c : Contents) → HoldsContents dump c
        → IfErr result (WhyNoRun c.variables verified) }
{
    let clocks = clocks_of(rt, alloc, &dump, &verified, team)?;
    let job = job_of(alloc, dump, verified, clocks)?;
    let _count = job.clocks().len();
    let report = job_report(rt, alloc, &job, team, size, gate)?;
    let_go(rt, job);
    Ok(report)
}
