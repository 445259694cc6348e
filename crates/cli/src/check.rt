//! What the commands `check` and `judge` do, from a source to a sink: `check_all` and `judge_one`.
//! `check_one` does what `check` does, on the calling thread.

ghost use Rattle.std.specs.Prelude.{◌≡◌, ◌↔◌, ◌≤◌, Err, IfOk, IfErr};
ghost use Rattle.cycle_window.specs.Bound.{IsBadSize};
ghost use Rattle.cli_faults.specs.declared.fault.Fault.TheVariants.{BadSize, BadWorkers};
ghost use Rattle.workers_core.specs.Values.{IsBadTeam};
ghost use Rattle.cli.specs.Outcomes.{IsAnswered, WhyRunRefused, WhyNotChecked, WhyNotCheckedBy};
ghost use Rattle.cli_faults.specs.Runs.{run_of};

use crate::checked::{check_by_team, check_through};
use crate::judged::run_through;
use cli_faults::Fault;
use cycle_window::WindowSize;
use report_programs::Gate;
use signals::{Sink, Source};
use std::alloc::Global;
use std::sync::Wait;
use std::thread::Threads;
use workers_core::TeamSize;

/// Judges the assertions of a text over the dump that a source gives, by their programs, through
/// windows of so many clocks, and writes the report.
///
/// The answer is the report's totals: how many attempts held, were vacuous, failed, were disabled,
/// and are open. `window` is from 1 to 65,536, and does not change what is written.
///
/// # Errors
///
/// C3 where `window` is out of its range, before anything is read; then what is wrong with the dump
/// (V1 to V8), with the text (L1 to L3, P1 to P4, then Y1 to Y9), with its clock (C1, C2), with the
/// first of its assertions that has no program (K1 to K4), and with their number (U3: more than
/// 4,096), all before anything is written; G1 where the sink failed, which then holds a beginning
/// of the report after what it held before; and want of memory.
///
/// IEEE 1800-2017, clauses 11, 16.5 to 16.9, 16.12 to 16.15; IEEE 1364-2005, clause 18.2.
pub fn check_one<'a, S: Source, W: Sink>(
    alloc: Global,
    source: &mut S,
    text: &'a str,
    window: u64,
    out: &mut W,
) -> Result<[u64; 5], Fault<'a>>
    ensures answered { IfOk result (IsAnswered (run_of text.entry.now
        (S.state source.old) (S.state source.new) (W.state out.old) (W.state out.new))) }
    ensures refused { IfErr result (WhyNotChecked window (run_of text.entry.now
        (S.state source.old) (S.state source.new) (W.state out.old) (W.state out.new))) }
    ensures bad_size { IsBadSize window ↔ (result ≡ Err BadSize) }
{
    match WindowSize::new(window) {
        Ok(size) => check_through(alloc, source, text, size, out),
        Err(_) => Err(Fault::BadSize),
    }
}

/// Does what [`check_one`] does, by 1 to 64 workers, each a thread: `workers` and `gate` do
/// not change what is written either. It may wait for them, and all have ended when it returns. A
/// thread that gives the dump's memory back may still be at work.
///
/// # Errors
///
/// Those of [`check_one`], and U1 where `workers` is out of its range, which is tested after
/// C3 and before anything is read.
pub fn check_all<'a, S: Source, W: Sink, G: Gate + Sync, R: Threads + Wait + Sync>(
    rt: &R,
    alloc: Global,
    source: &mut S,
    text: &'a str,
    workers: u64,
    window: u64,
    gate: &G,
    out: &mut W,
) -> Result<[u64; 5], Fault<'a>>
    ensures answered { IfOk result (IsAnswered (run_of text.entry.now
        (S.state source.old) (S.state source.new) (W.state out.old) (W.state out.new))) }
    ensures refused { IfErr result (WhyNotCheckedBy workers window (run_of text.entry.now
        (S.state source.old) (S.state source.new) (W.state out.old) (W.state out.new))) }
    ensures bad_size { IsBadSize window ↔ (result ≡ Err BadSize) }
    ensures bad_team { (1 ≤ window) × (window ≤ 65536) × IsBadTeam workers
        → result ≡ Err BadWorkers }
{
    let Ok(size) = WindowSize::new(window) else {
        return Err(Fault::BadSize);
    };
    let Ok(team) = TeamSize::new(workers) else {
        return Err(Fault::BadWorkers);
    };
    check_by_team(rt, alloc, source, text, team, size, gate, out)
}

/// Does what [`check_one`] does, by the slow judge, which makes no programs.
///
/// # Errors
///
/// Those of [`check_one`], but for C3, K1 to K4 and U3.
pub fn judge_one<'a, S: Source, W: Sink>(
    alloc: Global,
    source: &mut S,
    text: &'a str,
    out: &mut W,
) -> Result<[u64; 5], Fault<'a>>
    ensures answered { IfOk result (IsAnswered (run_of text.entry.now
        (S.state source.old) (S.state source.new) (W.state out.old) (W.state out.new))) }
    ensures refused { IfErr result (WhyRunRefused (run_of text.entry.now
        (S.state source.old) (S.state source.new) (W.state out.old) (W.state out.new))) }
{
    run_through(alloc, source, text, WindowSize::usual(), out)
}
