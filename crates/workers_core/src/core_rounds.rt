//! Rounds of a core of one worker, up to the trace's end.

ghost use Rattle.std.specs.Prelude.{◌≡◌, ◌≢◌, ◌+◌, ◌<◌, ◌≤◌, OnOk, IfOk, length};
ghost use Rattle.workers_core.specs.declared.step.Step.TheVariants as steps;
ghost use Rattle.workers_core.specs.declared.step.Reply.TheVariants as replies;
ghost use Rattle.workers_core.specs.Rounds.{HasTrace, Rests, HasDone, KeepsWindow, Allows};
ghost use Rattle.workers_core.specs.Rounds.{StepLeadsTo};

use crate::cores::Core;
use crate::step::{Reply, Step};
use std::alloc::{AllocError, Global};

/// What the reply to an allowed step comes to.
fn done(reply: Reply) -> Result<(), AllocError>
    requires { reply ≢ replies.Refused }
    ensures { OnOk result (reply ≡ replies.Done) }
{
    match reply {
        Reply::Done => Ok(()),
        Reply::Memory => Err(AllocError),
        Reply::Refused => unreachable!(),
    }
}

/// An allowed step. For want of memory nothing changes.
fn take(alloc: Global, core: &mut Core<'_>, step: Step) -> Result<(), AllocError>
    requires trace { HasTrace core.old.job }
    requires allowed { Allows core.old step }
    ensures led { OnOk result (StepLeadsTo core.old step core.new.state) }
    ensures job { core.new.job ≡ core.old.job }
    ensures size { core.new.size ≡ core.old.size }
{
    done(core.step(alloc, step))
}

/// The next window, and how many clocks it has.
fn open_round(alloc: Global, core: &mut Core<'_>) -> Result<u64, AllocError>
    requires trace { HasTrace core.old.job }
    requires rests { Rests core.old }
    requires some { 1 ≤ core.old.size }
    requires more { core.old.state.end < length core.old.job.ticks }
    ensures begun { OnOk result (HasDone 0 core.new) }
    ensures clocks { IfOk result (λ n. core.new.state.first + n ≡ core.new.state.end) }
    ensures further { OnOk result (core.old.state.end < core.new.state.end) }
    ensures job { core.new.job ≡ core.old.job }
    ensures size { core.new.size ≡ core.old.size }
{
    take(alloc, core, Step::Slide)?;
    let (first, end) = core.window();
    Ok(end - first)
}

/// Every monitor in turn: claimed, run over the window's clocks, and its batch published.
fn run_monitors(
    alloc: Global,
    core: &mut Core<'_>,
    count: usize,
    clocks: u64,
) -> Result<(), AllocError>
    requires trace { HasTrace core.old.job }
    requires count { count ≡ length core.old.job.programs }
    requires begun { HasDone 0 core.old }
    requires clocks { core.old.state.first + clocks ≡ core.old.state.end }
    ensures over { OnOk result (HasDone count core.new) }
    ensures window { OnOk result (KeepsWindow core.old core.new) }
    ensures job { core.new.job ≡ core.old.job }
    ensures size { core.new.size ≡ core.old.size }
{
    for _monitor in 0..count {
        take(alloc, core, Step::Claim(0))?;
        core.follows_machine();
        take(alloc, core, Step::Advance(0, clocks))?;
        take(alloc, core, Step::Publish(0))?;
    }
    Ok(())
}

/// A round: all monitors through the next window.
fn run_round(alloc: Global, core: &mut Core<'_>, count: usize) -> Result<(), AllocError>
    requires trace { HasTrace core.old.job }
    requires count { count ≡ length core.old.job.programs }
    requires rests { Rests core.old }
    requires some { 1 ≤ core.old.size }
    requires more { core.old.state.end < length core.old.job.ticks }
    ensures rests { OnOk result (Rests core.new) }
    ensures further { OnOk result (core.old.state.end < core.new.state.end) }
    ensures job { core.new.job ≡ core.old.job }
    ensures size { core.new.size ≡ core.old.size }
{
    let clocks = open_round(alloc, core)?;
    run_monitors(alloc, core, count, clocks)?;
    take(alloc, core, Step::Gather)
}

/// All rounds, up to the trace's end.
pub(crate) fn drive(alloc: Global, core: &mut Core<'_>, count: usize) -> Result<(), AllocError>
    requires trace { HasTrace core.old.job }
    requires count { count ≡ length core.old.job.programs }
    requires rests { Rests core.old }
    requires some { 1 ≤ core.old.size }
    ensures rests { OnOk result (Rests core.new) }
    ensures end { OnOk result (length core.old.job.ticks ≤ core.new.state.end) }
    ensures job { core.new.job ≡ core.old.job }
{
    'rounds: while core.window().1 < core.clocks() {
        run_round(alloc, core, count)?;
    }
    Ok(())
}
