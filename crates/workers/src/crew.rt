//! The workers of a round: the first in the calling thread, each other in a thread of its own.

ghost use Rattle.std.specs.Prelude.{◌≡◌, ◌≤◌, ◌<◌, ℕ, All, IfOk, length};
ghost use Rattle.std.specs.List.{slice_index_or};
ghost use Rattle.cycle_window.specs.Held.{first_in};
ghost use Rattle.workers_bench.specs.Windows.{IsWindowFor};
ghost use Rattle.workers.specs.Works.{IsSized};
ghost use Rattle.workers.specs.Crews.{MayWork, WorksFrom};

use crate::beside::Beside;
use crate::fan_out::fan_out;
use crate::worker::{Gate, Worked, work};
use cycle_window::Window;
use std::alloc::{AllocError, Global};
use std::sync::Wait;
use std::thread::Threads;
use verdicts::{Board, Share, Tally, Tallying};
use workers_bench::{Bench, Pass};

/// What a worker begins a round with.
#[derive(Drop)]
pub struct Task<L: Tallying> {
    pub worker: usize,
    pub pass: Pass,
    pub share: Share<L>,
    pub claims: u64,
}

/// Each worker but the first works in a thread of its own where one can be made, and the first in
/// this thread, which starts the others. `beside` is what this thread does beside the others,
/// before its own part. All have ended when it returns.
pub fn work_all<
    L: Tallying + Send + Sync,
    G: Gate + Sync,
    R: Threads + Wait + Sync,
    T: Drop,
    B: Beside<T> + Drop,
>(
    rt: &R,
    alloc: Global,
    bench: &Bench<'_>,
    tasks: Vec<Task<L>>,
    window: &Window<'_>,
    board: &Board,
    tally: &Tally<L>,
    gate: &G,
    beside: B,
) -> Result<(Vec<Worked<L>>, T), AllocError>
    requires window { IsWindowFor bench.now.job.now window.now × IsSized window.now }
    requires round { bench.now.at ≡ first_in window.now }
    requires tasks { All (MayWork bench.now) tasks.items }
    requires beside { B.may beside }
    ensures count { IfOk result (λ r. length r.0.items ≡ length tasks.items) }
    ensures each { IfOk result (λ r. (i : ℕ) (t : _) (w : _) → i < length tasks.items
        → WorksFrom bench.now board.now window.now (slice_index_or tasks.items i t)
        (slice_index_or r.0.items i w)) }
    ensures beside { IfOk result (λ r. B.tells beside r.1) }
{
    let one = |task: Task<L>| -> Worked<L>
        requires { IsWindowFor bench.now.job.now window.now × IsSized window.now
            × (bench.now.at ≡ first_in window.now) × MayWork bench.now task }
        ensures { WorksFrom bench.entry.now board.entry.now window.entry.now task result }
    {
        let Task {
            worker,
            pass,
            share,
            claims,
        } = task;
        work(
            rt, alloc, bench, pass, share, window, board, tally, gate, worker, claims,
        )
    };
    fan_out(rt, alloc, &one, tasks, beside)
}
