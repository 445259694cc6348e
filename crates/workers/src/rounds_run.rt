//! All rounds of a run.

ghost use Rattle.std.specs.Prelude.{◌≡◌, ◌≤◌, ◌<◌, All, IfOk, OnOk, vec_len};
ghost use Rattle.cycle_window.specs.Held.{size_in, end_in};
ghost use Rattle.workers_bench.specs.Windows.{IsWindowFor};
ghost use Rattle.workers.specs.Runs.{IsMember};
ghost use Rattle.workers.specs.Between.{IsBetween, IsNext, clocks_of};
ghost use Rattle.workers.specs.Tallied.{AreTallied};

use crate::filling::{Filling, filled_after};
use crate::round::{Member, round};
use crate::round_batches::{monitors_back, take_round};
use crate::worker::Gate;
use cycle_window::Window;
use std::alloc::{AllocError, Global};
use std::sync::Wait;
use std::thread::Threads;
use verdicts::{Board, Tally, Tallying};
use workers_bench::Numbered;
use workers_core::{GrowingLine, Job};

/// A round: all monitors through the next window. Beside it the window after that one is filled, in
/// the room of the one that is done. The round's batches are gone after it.
fn run_round<'j, L: Tallying + Send + Sync, G: Gate + Sync, R: Threads + Wait + Sync>(
    rt: &R,
    alloc: Global,
    job: &'j Job,
    done: Window<'j>,
    next: &Window<'j>,
    tally: &Tally<L>,
    gate: &G,
    members: Vec<Member<L>>,
    monitors: Vec<Numbered>,
    lines: &mut Vec<GrowingLine>,
) -> Result<(Vec<Member<L>>, Vec<Numbered>, Window<'j>), AllocError>
    requires between { IsBetween job.now done monitors.items lines.old.items }
    requires more { end_in done < clocks_of job.now }
    requires next { IsNext job.now done next.now }
    requires workers { (0 < vec_len members) × (vec_len members ≤ 64) }
    requires members { All IsMember members.items }
    requires tallied { AreTallied members.items lines.old.items }
    ensures between { IfOk result (λ r.
        IsBetween job.now next.now r.1.items lines.new.items) }
    ensures further { end_in done.entry < end_in next.now }
    ensures next { IfOk result (λ r.
        end_in next.now < clocks_of job.now → IsNext job.now next.now r.2) }
    ensures members { IfOk result (λ r.
        (vec_len r.0 ≡ vec_len members) × All IsMember r.0.items) }
    ensures tallied { IfOk result (λ r. AreTallied r.0.items lines.new.items) }
{
    let _count = job.clocks().len();
    let beside = Filling {
        job,
        window: done,
        before: next,
    };
    let board = Board::new(alloc)?;
    let (members, published, after) = round(
        rt, alloc, job, next, &board, tally, gate, members, monitors, beside,
    )?;
    take_round(lines, published.as_slice())?;
    let monitors = monitors_back(alloc, published)?;
    Ok((members, monitors, after))
}

/// All rounds, up to the trace's end, by two windows in turn: while the monitors go through one,
/// the other is filled. The window that was done last comes back.
pub(crate) fn run_rounds<'j, L: Tallying + Send + Sync, G: Gate + Sync, R: Threads + Wait + Sync>(
    rt: &R,
    alloc: Global,
    job: &'j Job,
    window: Window<'j>,
    other: Window<'j>,
    tally: &Tally<L>,
    gate: &G,
    members: Vec<Member<L>>,
    monitors: Vec<Numbered>,
    lines: &mut Vec<GrowingLine>,
) -> Result<(Vec<Member<L>>, Vec<Numbered>, Window<'j>), AllocError>
    requires between { IsBetween job.now window monitors.items lines.old.items }
    requires other { IsWindowFor job.now other }
    requires alike { size_in other ≡ size_in window }
    requires workers { (0 < vec_len members) × (vec_len members ≤ 64) }
    requires members { All IsMember members.items }
    requires tallied { AreTallied members.items lines.old.items }
    ensures between { IfOk result (λ r. IsBetween job.now r.2 r.1.items lines.new.items) }
    ensures end { IfOk result (λ r. clocks_of job.now ≤ end_in r.2) }
    ensures members { IfOk result (λ r.
        (vec_len r.0 ≡ vec_len members) × All IsMember r.0.items) }
    ensures tallied { IfOk result (λ r. AreTallied r.0.items lines.new.items) }
{
    let mut members = members;
    let mut monitors = monitors;
    let mut done = window;
    let mut next = filled_after(job, other, &done);
    'rounds: while done.bounds().1 < job.clocks().len() {
        let (back, stopped, after) = run_round(
            rt, alloc, job, done, &next, tally, gate, members, monitors, lines,
        )?;
        members = back;
        monitors = stopped;
        done = next;
        next = after;
    }
    Ok((members, monitors, done))
}
