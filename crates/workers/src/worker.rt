//! What one worker does in a round.

ghost use Rattle.std.specs.Prelude.{◌≡◌, ◌≤◌, ◌^◌, ◌<◌, ℕ, List, Some, false, length, IfSome};
ghost use Rattle.crossbeam_queue.specs.Passes.{view};
ghost use Rattle.cycle_window.specs.Held.{first_in, end_in};
ghost use Rattle.workers_core.specs.declared.job.Job.{Job};
ghost use Rattle.workers_core.specs.Standing.{MonitorStands};
ghost use Rattle.workers_core.specs.Taken.{TookIn};
ghost use Rattle.verdicts.specs.Receipts.{IsReceiptOf, shown_by};
ghost use Rattle.verdicts.specs.Shares.{parts, amounts, EachAtMost};
ghost use Rattle.workers_bench.specs.Monitors.{IsMonitorAt};
ghost use Rattle.workers_bench.specs.Windows.{IsWindowFor};
ghost use Rattle.workers_bench.specs.Hands.{NumbersRise, end_after};
ghost use Rattle.workers_bench.specs.Passes.{pass_parts};
ghost use Rattle.workers_bench.specs.Benches.{IsPassOfBench};
ghost use Rattle.workers.specs.Works.{Works, IsSized, IsOnBoard, monitor_clock_of};

use crate::passage::pass_through;
use arrayvec::ArrayVec;
use cycle_window::Window;
use signals::Decided;
use std::alloc::Global;
use std::sync::Wait;
use verdicts::{Board, Receipt, Share, Tally, Tallying};
use workers_bench::{Bench, Numbered, Pass};
use workers_core::GrowingLine;

/// Who wants to know what workers do. It is called with nothing held.
pub trait Gate {
    /// A worker made its claim number `nth`, counted from 1.
    fn claimed(&self, worker: usize, nth: u64);

    /// A worker added a batch to the tally, and left these totals.
    fn tallied(&self, worker: usize, totals: [u64; 4]);
}

/// Nobody wants to know.
#[derive(Clone, Copy)]
pub struct NoGate;

impl Gate for NoGate {
    fn claimed(&self, _worker: usize, _nth: u64) {}

    fn tallied(&self, _worker: usize, _totals: [u64; 4]) {}
}

/// A monitor at the end of the window, the receipt of its batch, and the line of that batch alone.
#[derive(Drop)]
pub struct Published {
    pub monitor: Numbered,
    pub receipt: Receipt,
    pub line: GrowingLine,
}

/// What a worker gives back.
#[derive(Drop)]
pub struct Worked<L: Tallying> {
    pub pass: Pass,
    pub share: Share<L>,
    /// Its claims in the run so far.
    pub claims: u64,
    pub published: Vec<Published>,
    /// The monitor that it had claimed where memory was refused.
    pub kept: Option<Numbered>,
    /// Memory was refused.
    pub short: bool,
}

/// Runs a monitor through the window and publishes its batch. Where memory is refused there is no
/// receipt. What the buffer holds is lost.
pub(crate) fn run_one(
    rt: &impl Wait,
    alloc: Global,
    window: &Window<'_>,
    board: &Board,
    mut given: Numbered,
    decided: &mut ArrayVec<Decided, 1024>,
) -> (Numbered, Option<Receipt>)
    requires stands { MonitorStands window.now given.monitor.value }
    requires here { monitor_clock_of given ≡ first_in window.now }
    requires sized { IsSized window.now }
    ensures number { result.0.number ≡ given.number }
    ensures stands { (j : Job) → IsWindowFor j window.now
        → IsMonitorAt j (first_in window.now) given
        → IsMonitorAt j (monitor_clock_of result.0) result.0 }
    ensures published { IfSome result.1 (λ receipt. (j : Job) → IsWindowFor j window.now
        → IsMonitorAt j (first_in window.now) given
        → IsOnBoard j window.now board.now result.0 receipt) }
{
    match pass_through(alloc, window, &mut given, decided) {
        Err(_) => (given, None),
        Ok(batch) => match board.publish(rt, batch) {
            Ok(receipt) => (given, Some(receipt)),
            Err(_) => (given, None),
        },
    }
}

/// The line of a batch that was published, if one was, with its receipt. Where memory is refused
/// there is none.
pub(crate) fn line_of_batch(
    alloc: Global,
    board: &Board,
    receipt: Option<Receipt>,
) -> Option<(Receipt, GrowingLine)>
    requires of { IfSome receipt (IsReceiptOf board.now) }
    requires few { IfSome receipt (λ r. length (shown_by r).decided.items ≤ 2 ^ 17) }
    ensures same { IfSome result (λ made. receipt ≡ Some made.0) }
    ensures line { IfSome result (λ made. TookIn made.1 (shown_by made.0).decided.items) }
{
    let receipt = receipt?;
    let line = GrowingLine::of_streaks(alloc, &board.read(&receipt).decided).ok()?;
    Some((receipt, line))
}

/// Claims monitors, runs them through the window, and publishes and counts their batches, until the
/// bench is empty or memory is refused.
pub fn work<L: Tallying, G: Gate, R: Wait>(
    rt: &R,
    alloc: Global,
    bench: &Bench<'_>,
    mut pass: Pass,
    mut share: Share<L>,
    window: &Window<'_>,
    board: &Board,
    tally: &Tally<L>,
    gate: &G,
    worker: usize,
    mut claims: u64,
) -> Worked<L>
    requires pass { IsPassOfBench bench.now pass × ((view pass).puts ≡ false)
        × (0 < pass_parts pass) }
    requires taken { NumbersRise (view pass).taken
        × (end_after 0 (view pass).taken ≤ length bench.now.job.now.programs.items) }
    requires window { IsWindowFor bench.now.job.now window.now × IsSized window.now }
    requires round { bench.now.at ≡ first_in window.now }
    requires share { (0 < parts share) × EachAtMost (amounts share) (2 ^ 55) }
    requires claims { claims ≤ 2 ^ 55 }
    ensures { Works bench.now board.now window.now (view pass) share claims result }
{
    let mut published = Vec::new(alloc);
    let mut decided = ArrayVec::new();
    for _ in rt.forever() {
        if published.reserve(1).is_err() {
            return Worked {
                pass,
                share,
                claims,
                published,
                kept: None,
                short: true,
            };
        }
        let (back, claimed) = bench.claim(rt, pass);
        pass = back;
        let Some(monitor) = claimed else {
            return Worked {
                pass,
                share,
                claims,
                published,
                kept: None,
                short: false,
            };
        };
        claims += 1;
        gate.claimed(worker, claims);
        let (monitor, receipt) = run_one(rt, alloc, window, board, monitor, &mut decided);
        let Some((receipt, line)) = line_of_batch(alloc, board, receipt) else {
            return Worked {
                pass,
                share,
                claims,
                published,
                kept: Some(monitor),
                short: true,
            };
        };
        let totals = tally.add(rt, &mut share, board.read(&receipt));
        gate.tallied(worker, totals);
        published.push_reserved(Published {
            monitor,
            receipt,
            line,
        });
    }
    unreachable!()
}
