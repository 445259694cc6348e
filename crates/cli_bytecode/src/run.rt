//! Runs of programs over dumps.

ghost use Rattle.std.specs.Prelude.{◌≡◌, ◌↔◌, ◌≤◌, Err, IfOk, IfErr};
ghost use Rattle.vcd_reader.specs.Dump.{Contents};
ghost use Rattle.vcd_reader.specs.Held.{HoldsContents};
ghost use Rattle.cycle_window.specs.Bound.{IsBadSize};
ghost use Rattle.report_lines.specs.Shown.{data_of};
ghost use Rattle.cli_faults.specs.declared.fault.Fault.TheVariants.{BadSize, BadWorkers};
ghost use Rattle.workers_core.specs.Values.{IsBadTeam};
ghost use Rattle.cli_faults.specs.Runs.{run_of};
ghost use Rattle.cli_bytecode.specs.Outcomes.{HasRunReport, WhyNoRunReport, IsRunAnswered};
ghost use Rattle.cli_bytecode.specs.Outcomes.{WhyRunFails, WhyNotRun};

use crate::verify::verified_of;
use cli_faults::{Fault, written};
use cycle_window::WindowSize;
use report_lines::Report;
use signals::{Sink, Source};
use std::alloc::Global;
use std::sync::Wait;
use std::thread::Threads;
use vcd_reader::{Dump, read_dump_by};
use workers::{Gate, report_run};
use workers_core::TeamSize;

/// The report of the program that bytes spell, over a dump.
fn report_of<G: Gate + Sync, R: Threads + Wait + Sync>(
    rt: &R,
    alloc: Global,
    dump: Dump,
    code: &[u8],
    team: TeamSize,
    size: WindowSize,
    gate: &G,
) -> Result<Report, Fault<'static>>
    ensures ok { (c : Contents) → HoldsContents dump c
        → IfOk result (λ r. HasRunReport c code.now (data_of r)) }
    ensures err { (c : Contents) → HoldsContents dump c
        → IfErr result (WhyNoRunReport c code.now) }
{
    let verified = verified_of(alloc, code)?;
    Ok(report_run(rt, alloc, dump, verified, team, size, gate)?)
}

/// The report of a program over the dump that a source gives, written.
fn run_through<S: Source, W: Sink, G: Gate + Sync, R: Threads + Wait + Sync>(
    rt: &R,
    alloc: Global,
    source: &mut S,
    code: &[u8],
    team: TeamSize,
    size: WindowSize,
    gate: &G,
    out: &mut W,
) -> Result<[u64; 5], Fault<'static>>
    ensures answered { IfOk result (IsRunAnswered (run_of code.now
        (S.state source.old) (S.state source.new) (W.state out.old) (W.state out.new))) }
    ensures refused { IfErr result (WhyRunFails (run_of code.now
        (S.state source.old) (S.state source.new) (W.state out.old) (W.state out.new))) }
{
    let dump = read_dump_by(rt, alloc, source, team.workers())?;
    let report = report_of(rt, alloc, dump, code, team, size, gate)?;
    written(alloc, &report, out)
}

/// Runs the program that bytes spell over the dump that a source gives, on the clock that it names,
/// by 1 to 64 workers, each a thread, through windows of so many clocks, and writes the report.
///
/// The answer is the report's totals: how many attempts held, were vacuous, failed, were disabled,
/// and are open. `window` is from 1 to 65,536. Neither it nor `workers` nor `gate` changes
/// what is written. The call may wait for the workers, and all have ended when it returns. A thread
/// that gives the dump's memory back may still be at work.
///
/// # Errors
///
/// C3 where `window` is out of its range, then U1 where `workers` is, before anything is read;
/// then what is wrong with the dump (V1 to V8), with the bytes (B1 to B6), with the program (F1 to
/// F16), with its clock (C1, C2) and with its signals (C4, C5), all before anything is written; G1
/// where the sink failed, which then holds a beginning of the report after what it held before; and
/// want of memory.
pub fn run_code<S: Source, W: Sink, G: Gate + Sync, R: Threads + Wait + Sync>(
    rt: &R,
    alloc: Global,
    source: &mut S,
    code: &[u8],
    workers: u64,
    window: u64,
    gate: &G,
    out: &mut W,
) -> Result<[u64; 5], Fault<'static>>
    ensures answered { IfOk result (IsRunAnswered (run_of code.now
        (S.state source.old) (S.state source.new) (W.state out.old) (W.state out.new))) }
    ensures refused { IfErr result (WhyNotRun workers window (run_of code.now
        (S.state source.old) (S.state source.new) (W.state out.old) (W.state out.new))) }
    ensures bad_size { IsBadSize window ↔ (result ≡ Err BadSize) }
    ensures bad_team { (1 ≤ window) × (window ≤ 65536) × IsBadTeam workers
        → result ≡ Err BadWorkers }
{
    let Ok(size) = WindowSize::new(window) else {
        return Err(Fault::BadSize);
    };
    let Ok(team) = TeamSize::new(workers) else {
        return Err(Fault::BadWorkers);
    };
    run_through(rt, alloc, source, code, team, size, gate, out)
}
