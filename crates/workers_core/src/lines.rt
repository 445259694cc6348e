//! The lines of a job's programs.

ghost use Rattle.std.specs.Prelude.{◌≡◌, ◌≤◌, All, IfOk, Some, length, map, slice_get};
ghost use Rattle.vcd_reader.specs.Dump.{Contents};
ghost use Rattle.report_lines.specs.Lines.{line};
ghost use Rattle.machine_batches.specs.Lines.{IsLineOver, attempts_of};
ghost use Rattle.workers_core.specs.Values.{Says, job_value, rows_over};
ghost use Rattle.workers_core.specs.Lines.{AreLinesOf};
ghost use Rattle.workers_core.specs.States.{published_by};
ghost use Rattle.workers_core.specs.Rounds.{HasTrace, Rests};
ghost use Rattle.workers_core.specs.Taken.{TookIn};

use crate::core_rounds::drive;
use crate::cores::Core;
use crate::growing_line::GrowingLine;
use crate::job::Job;
use crate::published_lines::lines_published;
use crate::team_size::TeamSize;
use cycle_window::WindowSize;
use report_lines::Line;
use std::alloc::{AllocError, Global};
use std::mem;
use verifier::Verified;

/// The line of the program of a number, after the last clock, of what its monitor published and
/// of the attempts that are live.
fn program_line(
    alloc: Global,
    core: &Core<'_>,
    number: usize,
    verified: &Verified,
    published: GrowingLine,
) -> Result<Line, AllocError>
    requires trace { HasTrace core.now.job }
    requires rests { Rests core.now }
    requires end { length core.now.job.ticks ≤ core.now.state.end }
    requires program { slice_get core.now.job.programs number ≡ Some verified.now }
    requires took { TookIn published (published_by core.now.state.board number) }
    ensures line { (c : Contents) → Says core.now.job c → IfOk result (λ l.
        IsLineOver verified.now (rows_over core.now.job c verified.now) (line l)) }
    ensures count { IfOk result (λ l. attempts_of l.counts ≡ length core.now.job.ticks) }
{
    core.follows_machine();
    let _clocks = core.clocks();
    let name = String::from_str(alloc, verified.program().name.as_str())?;
    let live = core.open_attempts(number);
    let mut all = published;
    all.take_in(live.as_slice())?;
    Ok(all.into_line(name))
}

/// The lines of all programs, after the last clock.
fn lines_of(alloc: Global, core: &Core<'_>, programs: &[Verified]) -> Result<Vec<Line>, AllocError>
    requires trace { HasTrace core.now.job }
    requires rests { Rests core.now }
    requires end { length core.now.job.ticks ≤ core.now.state.end }
    requires programs { programs.now ≡ core.now.job.programs }
    ensures lines { (c : Contents) → Says core.now.job c
        → IfOk result (λ ls. AreLinesOf core.now.job c (map line ls.items)) }
    ensures count { IfOk result (λ ls.
        All (λ l. attempts_of l.counts ≡ length core.now.job.ticks) ls.items) }
{
    core.follows_machine();
    let _clocks = core.clocks();
    let mut published = lines_published(alloc, core.board(), programs.len())?;
    let mut lines = Vec::with_capacity(alloc, programs.len())?;
    for (number, verified) in programs.iter().enumerate() {
        let own = mem::replace(&mut published[number], GrowingLine::new(alloc));
        lines.push(program_line(alloc, core, number, verified, own)?)?;
    }
    Ok(lines)
}

/// The lines of a job's programs over its dump, in source order, by one worker through windows of a
/// size, which changes no line.
pub fn job_lines(alloc: Global, job: &Job, size: WindowSize) -> Result<Vec<Line>, AllocError>
    ensures lines { (c : Contents) → Says (job_value job.now) c
        → IfOk result (λ ls. AreLinesOf (job_value job.now) c (map line ls.items)) }
    // One attempt begins at each clock, and each is counted once.
    ensures count { IfOk result (λ ls.
        All (λ l. attempts_of l.counts ≡ length (job_value job.now).ticks) ls.items) }
{
    let _some = size.clocks();
    let mut core = Core::of_sizes(alloc, job, TeamSize::one(), size)?;
    drive(alloc, &mut core, job.programs().len())?;
    lines_of(alloc, &core, job.programs())
}
