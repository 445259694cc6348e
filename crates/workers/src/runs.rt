//! A run of a job by several workers.

ghost use Rattle.std.specs.Prelude.{◌≡◌, ◌≤◌, ◌<◌, All, IfOk, IfErr, length};
ghost use Rattle.vcd_reader.specs.Dump.{Contents};
ghost use Rattle.report_lines.specs.Shown.{data_of};
ghost use Rattle.machine_batches.specs.Lines.{attempts_of};
ghost use Rattle.workers_core.specs.Values.{Says, WhyNoCore, job_value};
ghost use Rattle.verdicts.specs.Blanks.{HaveParts, HaveNames};
ghost use Rattle.workers.specs.Between.{clocks_of};
ghost use Rattle.workers.specs.Reports.{IsJobReport};

use crate::lines::lines_of;
use crate::opening::{blank_lines, first_monitors, members_of};
use crate::rounds_run::run_rounds;
use crate::totals::{report_with, shares_of};
use crate::worker::Gate;
use cycle_window::WindowSize;
use report_lines::Report;
use std::alloc::{AllocError, Global};
use std::marker::Brand;
use std::sync::Wait;
use std::thread::Threads;
use verdicts::{Blanks, Tally, Tallying};
use workers_core::{Job, RunFault, TeamSize, window_of};

/// The run, with a tally of those names.
fn run_in<L: Tallying + Send + Sync, G: Gate + Sync, R: Threads + Wait + Sync>(
    rt: &R,
    alloc: Global,
    job: &Job,
    workers: usize,
    size: WindowSize,
    gate: &G,
    blanks: Blanks,
) -> Result<Report, AllocError>
    requires workers { (0 < workers) × (workers ≤ 64) × (workers ≡ L.shares) }
    requires parts { HaveParts workers blanks }
    requires names { HaveNames L.holds L.vacuous L.fails L.disabled blanks }
    ensures report { (c : Contents) → Says (job_value job.now) c
        → IfOk result (λ r. IsJobReport (job_value job.now) c (data_of r)) }
    ensures count { IfOk result (λ r.
        All (λ l. attempts_of l.counts ≡ clocks_of job.now) r.lines.items) }
{
    let Ok(window) = window_of(alloc, job, size) else {
        return Err(AllocError);
    };
    let Ok(other) = window_of(alloc, job, size) else {
        return Err(AllocError);
    };
    let (tally, shares) = Tally::<L>::new(alloc, blanks, workers)?;
    let members = members_of(alloc, shares)?;
    let monitors = first_monitors(alloc, job)?;
    let mut told = blank_lines(alloc, monitors.len())?;
    let (members, stopped, _done) = run_rounds(
        rt, alloc, job, window, other, &tally, gate, members, monitors, &mut told,
    )?;
    let lines = lines_of(alloc, job, job.programs(), stopped.as_slice(), told)?;
    let shares = shares_of(alloc, members)?;
    let totals = tally.total(rt, shares);
    Ok(report_with(job.clocks().len(), lines, totals))
}

/// The report of a job over its dump, by a team through windows of a size: a line for each program,
/// in source order, and the totals. Neither the team nor the size nor the gate changes it.
///
/// Each round's workers have ended when the next begins, and all when the call returns. It may wait
/// for them.
pub fn job_report<G: Gate + Sync, R: Threads + Wait + Sync>(
    rt: &R,
    alloc: Global,
    job: &Job,
    team: TeamSize,
    size: WindowSize,
    gate: &G,
) -> Result<Report, AllocError>
    ensures report { (c : Contents) → Says (job_value job.now) c
        → IfOk result (λ r. IsJobReport (job_value job.now) c (data_of r)) }
    // One attempt begins at each clock, and each is counted once.
    ensures count { IfOk result (λ r.
        All (λ l. attempts_of l.counts ≡ length (job_value job.now).ticks) r.lines.items) }
{
    let workers = team.workers();
    let blanks = Blanks::new(workers);
    run_in::<Brand, G, R>(rt, alloc, job, workers, size, gate, blanks)
}

/// The report of a job over its dump, by 1 to 64 workers through windows of so many clocks, 1 to
/// 65,536: a line for each program, in source order, and the totals. Neither the number of workers
/// nor the size nor the gate changes it.
///
/// Each round's workers have ended when the next begins, and all when the call returns. It may wait
/// for them.
pub fn run<G: Gate + Sync, R: Threads + Wait + Sync>(
    rt: &R,
    alloc: Global,
    job: &Job,
    workers: usize,
    size: usize,
    gate: &G,
) -> Result<Report, RunFault>
    ensures report { (c : Contents) → Says (job_value job.now) c
        → IfOk result (λ r. IsJobReport (job_value job.now) c (data_of r)) }
    // Windows of no clock, or of more than 65,536, and teams of none or of more than 64, have no
    // report.
    ensures size { IfOk result (λ _. (1 ≤ size) × (size ≤ 65536)) }
    ensures workers { IfOk result (λ _. (1 ≤ workers) × (workers ≤ 64)) }
    // One attempt begins at each clock, and each is counted once.
    ensures count { IfOk result (λ r.
        All (λ l. attempts_of l.counts ≡ length (job_value job.now).ticks) r.lines.items) }
    // The first cause that stands.
    ensures fault { IfErr result (WhyNoCore workers size) }
{
    let Ok(size) = WindowSize::new(size as u64) else {
        return Err(RunFault::BadSize);
    };
    let team = TeamSize::new(workers as u64)?;
    Ok(job_report(rt, alloc, job, team, size, gate)?)
}
