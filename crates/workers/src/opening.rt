//! What a run begins with.

ghost use Rattle.std.specs.Prelude.{◌≡◌, ℕ, [], All, IfOk, Some, length, map, vec_len};
ghost use Rattle.std.specs.Prelude.{slice_get};
ghost use Rattle.verdicts.specs.Shares.{IsFresh};
ghost use Rattle.workers_bench.specs.Monitors.{IsMonitorAt};
ghost use Rattle.workers_bench.specs.Hands.{numbers};
ghost use Rattle.workers.specs.Taking.{monitor_of};
ghost use Rattle.workers.specs.Runs.{upto, IsMember};
ghost use Rattle.workers.specs.Adding.{added_by};
ghost use Rattle.workers_core.specs.declared.growing_line.GrowingLine.{GrowingLine};
ghost use Rattle.workers_core.specs.Taken.{TookIn};

use crate::round::Member;
use std::alloc::{AllocError, Global};
use verdicts::{Share, Tallying};
use workers_bench::Numbered;
use workers_core::{GrowingLine, Job, Monitor, monitors_of};

/// Monitors with their numbers.
fn numbered(alloc: Global, monitors: Vec<Monitor>) -> Result<Vec<Numbered>, AllocError>
    ensures order { IfOk result (λ all. numbers all.items ≡ upto 0 (vec_len monitors)) }
    ensures count { IfOk result (λ all. vec_len all ≡ vec_len monitors) }
    ensures monitors { IfOk result (λ all. map monitor_of all.items ≡ monitors.items) }
{
    let mut all = Vec::with_capacity(alloc, monitors.len())?;
    for monitor in monitors {
        let number = all.len();
        let Ok(monitor) = Box::new(alloc, monitor) else {
            return Err(AllocError);
        };
        all.push_reserved(Numbered { number, monitor });
    }
    Ok(all)
}

/// The job's monitors before their first clock, each with its number, in source order.
pub fn first_monitors(alloc: Global, job: &Job) -> Result<Vec<Numbered>, AllocError>
    ensures order { IfOk result (λ all.
        numbers all.items ≡ upto 0 (length job.now.programs.items)) }
    ensures count { IfOk result (λ all. vec_len all ≡ length job.now.programs.items) }
    ensures start { IfOk result (λ all. All (IsMonitorAt job.now 0) all.items) }
{
    let monitors = monitors_of(alloc, job.programs())?;
    let all = numbered(alloc, monitors)?;
    Ok(all)
}

/// The workers of a run, each with its share.
pub(crate) fn members_of<L: Tallying>(
    alloc: Global,
    shares: Vec<Share<L>>,
) -> Result<Vec<Member<L>>, AllocError>
    requires { All IsFresh shares.items }
    ensures count { IfOk result (λ all. vec_len all ≡ vec_len shares) }
    ensures members { IfOk result (λ all. All IsMember all.items) }
    ensures none { (k : ℕ) → IfOk result (λ all. added_by k all.items ≡ 0) }
{
    let mut all = Vec::with_capacity(alloc, shares.len())?;
    for share in shares {
        all.push_reserved(Member { share, claims: 0 });
    }
    Ok(all)
}

/// So many lines of which nothing was taken in.
pub(crate) fn blank_lines(alloc: Global, count: usize) -> Result<Vec<GrowingLine>, AllocError>
    ensures long { IfOk result (λ ls. vec_len ls ≡ count) }
    ensures none { IfOk result (λ ls. (i : ℕ) (l : GrowingLine)
        → slice_get ls.items i ≡ Some l → TookIn l []) }
{
    let mut lines = Vec::with_capacity(alloc, count)?;
    for _monitor in 0..count {
        lines.push(GrowingLine::new(alloc))?;
    }
    Ok(lines)
}
