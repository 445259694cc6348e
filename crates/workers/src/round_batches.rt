//! What a round's batches count goes into the lines.

ghost use Rattle.std.specs.Prelude.{◌≡◌, ◌+◌, ◌^◌, ◌<◌, ℕ, Some, All, OnOk, IfOk, length, map};
ghost use Rattle.std.specs.Prelude.{slice_get};
ghost use Rattle.machine_batches.specs.Lines.{attempts_of};
ghost use Rattle.verdicts.specs.Receipts.{shown_by};
ghost use Rattle.workers_core.specs.declared.growing_line.GrowingLine.{GrowingLine};
ghost use Rattle.workers_core.specs.Taken.{TookIn};
ghost use Rattle.workers_bench.specs.declared.numbered.Numbered.{Numbered};
ghost use Rattle.workers.specs.declared.worker.Published.{Published};
ghost use Rattle.workers.specs.Works.{HasLine};
ghost use Rattle.workers.specs.Taking.{Takes, numbered_of};

use crate::worker::Published;
use std::alloc::{AllocError, Global};
use workers_bench::Numbered;
use workers_core::GrowingLine;

/// Takes the line of each monitor's batch into the line of its number.
pub(crate) fn take_round(
    lines: &mut Vec<GrowingLine>,
    published: &[Published],
) -> Result<(), AllocError>
    requires long { length lines.old.items ≡ length published.now }
    requires counted { All HasLine published.now }
    requires room { (i : ℕ) (l : GrowingLine) (p : Published) → slice_get lines.old.items i ≡ Some l
        → slice_get published.now i ≡ Some p
        → attempts_of l.counts + length (shown_by p.receipt).decided.items < 2 ^ 64 }
    ensures long { length lines.new.items ≡ length lines.old.items }
    ensures took { OnOk result ((i : ℕ) (l m : GrowingLine) (p : Published)
        → slice_get lines.old.items i ≡ Some l → slice_get published.now i ≡ Some p
        → slice_get lines.new.items i ≡ Some m → Takes l (shown_by p.receipt).decided.items m) }
{
    for number in 0..published.len() {
        lines[number].take_line(&published[number].line)?;
    }
    Ok(())
}

/// The monitors that published, in their order.
pub(crate) fn monitors_back(
    alloc: Global,
    published: Vec<Published>,
) -> Result<Vec<Numbered>, AllocError>
    ensures { IfOk result (λ all. all.items ≡ map numbered_of published.items) }
{
    let mut all = Vec::with_capacity(alloc, published.len())?;
    for one in published {
        let Published {
            monitor,
            receipt: _,
            line: _,
        } = one;
        all.push_reserved(monitor);
    }
    Ok(all)
}
