//! What the batches of a board come to, monitor by monitor.

ghost use Rattle.std.specs.Prelude.{◌≡◌, ◌+◌, ◌^◌, ◌<◌, ◌++◌, ℕ, List, [], Some, IfOk, OnOk};
ghost use Rattle.std.specs.Prelude.{length, map, slice_get};
ghost use Rattle.signals.specs.declared.verdict.Decided.{Decided};
ghost use Rattle.machine_batches.specs.Lines.{attempts_of};
ghost use Rattle.workers_core.specs.States.{published_by};
ghost use Rattle.workers_core.specs.Parts.{batch_state};
ghost use Rattle.workers_core.specs.declared.growing_line.GrowingLine.{GrowingLine};
ghost use Rattle.workers_core.specs.Taken.{TookIn, of_monitor};

use crate::growing_line::GrowingLine;
use machine_batches::Batch;
use std::alloc::{AllocError, Global};

/// So many lines of which nothing was taken in.
fn blank_lines(alloc: Global, count: usize) -> Result<Vec<GrowingLine>, AllocError>
    ensures long { IfOk result (λ ls. length ls.items ≡ count) }
    ensures none { IfOk result (λ ls. (i : ℕ) (l : GrowingLine)
        → slice_get ls.items i ≡ Some l → TookIn l []) }
{
    let mut lines = Vec::with_capacity(alloc, count)?;
    for _monitor in 0..count {
        lines.push(GrowingLine::new(alloc))?;
    }
    Ok(lines)
}

/// Takes a batch into the line of its monitor, where there is one.
fn take_batch(lines: &mut [GrowingLine], batch: &Batch) -> Result<(), AllocError>
    requires { (l : GrowingLine) → slice_get lines.old batch.now.monitor ≡ Some l
        → attempts_of l.counts + length batch.now.decided.items < 2 ^ 64 }
    ensures long { length lines.new ≡ length lines.old }
    ensures took { (before : ℕ → List Decided)
        → ((i : ℕ) (l : GrowingLine) → slice_get lines.old i ≡ Some l → TookIn l (before i))
        → OnOk result ((i : ℕ) (l : GrowingLine)
        → slice_get lines.new i ≡ Some l → TookIn l (before i ++ of_monitor batch.now i)) }
{
    if batch.monitor >= lines.len() {
        return Ok(());
    }
    lines[batch.monitor].take_streaks(&batch.decided)
}

/// The lines of so many monitors, which took in what each published, in the order in which it did.
pub(crate) fn lines_published(
    alloc: Global,
    board: &[Batch],
    count: usize,
) -> Result<Vec<GrowingLine>, AllocError>
    requires { (i : ℕ) → i < count → length (published_by (map batch_state board.now) i) < 2 ^ 64 }
    ensures long { IfOk result (λ ls. length ls.items ≡ count) }
    ensures took { IfOk result (λ ls. (i : ℕ) (l : GrowingLine) → slice_get ls.items i ≡ Some l
        → TookIn l (published_by (map batch_state board.now) i)) }
{
    let mut lines = blank_lines(alloc, count)?;
    for batch in board {
        take_batch(lines.as_mut_slice(), batch)?;
    }
    Ok(lines)
}
