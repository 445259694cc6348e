//! A core: a job's monitors at work, step by step.

ghost use Rattle.std.specs.Prelude.{◌≡◌, ◌<◌, ◌≤◌, Some, IfOk, IfErr, length, map, slice_get};
ghost use Rattle.vcd_reader.specs.Dump.{Contents};
ghost use Rattle.machine_checked.specs.Runs.{open_ones};
ghost use Rattle.workers_core.specs.States.{Replies, next};

use crate::core_parts::CoreParts;
use crate::job::Job;
use crate::run_fault::RunFault;
use crate::step::{Reply, Step};
use crate::team_size::TeamSize;
use arrayvec::ArrayVec;
use cycle_window::WindowSize;
use machine_batches::Batch;
use signals::Decided;
use std::alloc::{AllocError, Global};
use std::marker::Model;

/// A window over the trace, a job's monitors, who has which, and the board of published batches.
#[derive(Drop)]
pub struct Core<'j> {
    job: &'j Job,
    parts: CoreParts<'j>,
}

impl<'j> Model for Core<'j> {
    ghost use Rattle.workers_core.specs.Values.{CoreValue, core_value_of};
    ghost use Rattle.workers_core.specs.Cores.{IsCore};

    ghost Value = { CoreValue };

    ghost view = { λ core. core_value_of core.job.now core.parts };

    ghost invariant = { λ core. IsCore core.job.now core.parts };
}

impl<'j> Core<'j> {
    ghost use Rattle.workers_core.specs.Values.{job_value, opening_core, setting_of, Says};
    ghost use Rattle.workers_core.specs.Values.{WhyNoCore};
    ghost use Rattle.workers_core.specs.Following.{FollowsMachine};
    ghost use Rattle.workers_core.specs.Parts.{batch_state};
    ghost use Rattle.workers_core.specs.States.{MonitorState};

    /// A core of 1 to 64 workers, through windows of so many clocks, 1 to 65,536.
    pub fn new(
        alloc: Global,
        job: &'j Job,
        workers: usize,
        size: usize,
    ) -> Result<Core<'j>, RunFault>
        ensures opened { IfOk result (λ core.
            core ≡ opening_core (job_value job.now) workers size) }
        ensures size { IfOk result (λ _. (1 ≤ size) × (size ≤ 65536)) }
        ensures workers { IfOk result (λ _. (1 ≤ workers) × (workers ≤ 64)) }
        // The first cause that stands.
        ensures fault { IfErr result (WhyNoCore workers size) }
    {
        let Ok(size) = WindowSize::new(size as u64) else {
            return Err(RunFault::BadSize);
        };
        let team = TeamSize::new(workers as u64)?;
        Ok(Core::of_sizes(alloc, job, team, size)?)
    }

    /// A core of a team, through windows of a size.
    pub fn of_sizes(
        alloc: Global,
        job: &'j Job,
        team: TeamSize,
        size: WindowSize,
    ) -> Result<Core<'j>, AllocError>
        ensures { IfOk result (λ core. core ≡ opening_core (job_value job.now) team size) }
    {
        let parts = CoreParts::new(alloc, job, team, size)?;
        Ok(Core { job, parts })
    }

    /// One step. What isn't allowed is refused, and nothing changes then, nor for want of memory.
    pub fn step(&mut self, alloc: Global, step: Step) -> Reply
        ensures reply { (c : Contents) → Says self.old.job c
            → Replies self.old.state (next (setting_of self.old c) self.old.state step)
            self.new.state result }
        ensures job { self.new.job ≡ self.old.job }
        ensures size { self.new.size ≡ self.old.size }
    {
        let job = self.job;
        match step {
            Step::Slide => self.parts.slide(&job.dump, &job.clocks),
            Step::Claim(worker) => self.parts.claim(worker),
            Step::Advance(worker, clocks) => self.parts.advance(worker, clocks),
            Step::Publish(worker) => self.parts.publish(alloc, worker),
            Step::Gather => self.parts.gather(alloc),
        }
    }

    /// How many clocks the trace has.
    pub fn clocks(&self) -> u64
        ensures { result ≡ length self.now.job.ticks }
    {
        self.job.clocks.len()
    }

    /// The window's clocks: from the first up to the second, which is not in it.
    pub fn window(&self) -> (u64, u64)
        ensures first { result.0 ≡ self.now.state.first }
        ensures end { result.1 ≡ self.now.state.end }
    {
        self.parts.window.bounds()
    }

    /// The attempts of a monitor that are live at its place, as open ones, by start.
    pub fn open_attempts(&self, monitor: usize) -> ArrayVec<Decided, 1024>
        requires { monitor < length self.now.state.monitors }
        ensures { (m : MonitorState) → slice_get self.now.state.monitors monitor ≡ Some m
            → result.items ≡ open_ones m.state.standing.attempts }
    {
        let mut live = ArrayVec::new();
        self.parts.monitors[monitor].machine.open_starts(&mut live);
        live
    }

    /// The published batches, in the order in which they were published.
    pub fn board(&self) -> &[Batch]
        ensures { map batch_state result.now ≡ self.now.state.board }
    {
        self.parts.board.as_slice()
    }

    /// A law, and a call that does nothing. Whatever list of steps was made: the job's ticks are
    /// the trace's, each monitor stands once in the core's lists and is in the state of the checked
    /// machine over the trace's first rows up to its place, each batch on the board is that of its
    /// monitor for its clocks, and a monitor's batches leave nothing out.
    pub fn follows_machine(&self)
        ensures follows { (c : Contents) → Says self.now.job c → FollowsMachine self.now c }
        // The dump has contents.
        ensures says { ∥ ((c : Contents) × Says self.now.job c) ∥₁ }
    {
        let _ = &self.parts;
    }
}
