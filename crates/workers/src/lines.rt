//! The lines after the last clock.

ghost use Rattle.std.specs.Prelude.{◌≡◌, ℕ, All, IfOk, Some, length, map, slice_get};
ghost use Rattle.vcd_reader.specs.Dump.{Contents};
ghost use Rattle.report_lines.specs.Lines.{line};
ghost use Rattle.machine_batches.specs.Lines.{IsLineOver, attempts_of};
ghost use Rattle.workers_core.specs.Values.{Says, job_value, rows_over};
ghost use Rattle.workers_core.specs.declared.growing_line.GrowingLine.{GrowingLine};
ghost use Rattle.workers_core.specs.Lines.{AreLinesOf};
ghost use Rattle.workers_bench.specs.declared.numbered.Numbered.{Numbered};
ghost use Rattle.workers_bench.specs.Monitors.{IsMonitorAt};
ghost use Rattle.workers.specs.Between.{IsTold, clocks_of};
ghost use Rattle.workers.specs.Tallied.{count_in, told_by, lines_said};

use report_lines::Line;
use std::alloc::{AllocError, Global};
use std::mem;
use verifier::Verified;
use workers_bench::Numbered;
use workers_core::{GrowingLine, Job};

/// The line of the program of a number, of what its monitor published and of the attempts that are
/// still live, as open.
fn program_line(
    alloc: Global,
    job: &Job,
    verified: &Verified,
    stopped: &Numbered,
    told: GrowingLine,
) -> Result<Line, AllocError>
    requires at { IsMonitorAt job.now (clocks_of job.now) stopped.now }
    requires program { slice_get job.now.programs.items stopped.now.number ≡ Some verified.now }
    requires told { IsTold job.now (clocks_of job.now) stopped.now.number told }
    ensures line { (c : Contents) → Says (job_value job.now) c → IfOk result (λ l.
        IsLineOver verified.now (rows_over (job_value job.now) c verified.now) (line l)) }
    ensures count { IfOk result (λ l. attempts_of l.counts ≡ clocks_of job.now) }
    ensures kinds { (k : ℕ) → IfOk result (λ l. count_in k l.counts ≡ count_in k told.counts) }
{
    let _count = job.clocks().len();
    let name = String::from_str(alloc, verified.program().name.as_str())?;
    let live = stopped.monitor.open_attempts();
    let mut all = told;
    all.take_in(live.as_slice())?;
    Ok(all.into_line(name))
}

/// The lines of all programs.
pub(crate) fn lines_of(
    alloc: Global,
    job: &Job,
    programs: &[Verified],
    stopped: &[Numbered],
    told: Vec<GrowingLine>,
) -> Result<Vec<Line>, AllocError>
    requires programs { programs.now ≡ job.now.programs.items }
    requires many { length stopped.now ≡ length job.now.programs.items }
    requires order { (i : ℕ) (x : Numbered) → slice_get stopped.now i ≡ Some x → x.number ≡ i }
    requires at { All (IsMonitorAt job.now (clocks_of job.now)) stopped.now }
    requires lines { length told.items ≡ length job.now.programs.items }
    requires told { (i : ℕ) (l : GrowingLine) → slice_get told.items i ≡ Some l
        → IsTold job.now (clocks_of job.now) i l }
    ensures lines { (c : Contents) → Says (job_value job.now) c
        → IfOk result (λ ls. AreLinesOf (job_value job.now) c (map line ls.items)) }
    ensures count { IfOk result (λ ls.
        All (λ l. attempts_of l.counts ≡ clocks_of job.now) ls.items) }
    ensures kinds { (k : ℕ) → IfOk result (λ ls. lines_said k ls.items ≡ told_by k told.items) }
{
    let mut told = told;
    let mut lines = Vec::with_capacity(alloc, programs.len())?;
    for (number, verified) in programs.iter().enumerate() {
        let own = mem::replace(&mut told[number], GrowingLine::new(alloc));
        lines.push(program_line(alloc, job, verified, &stopped[number], own)?)?;
    }
    Ok(lines)
}
