//! The parts of a core that its steps move.

ghost use Rattle.std.specs.Prelude.{◌≡◌, ◌<◌, ◌≤◌, map, Option, Some, None, IfOk, slice_get};
ghost use Rattle.std.specs.Prelude.{length};
ghost use Rattle.vcd_reader.specs.Dump.{Contents};
ghost use Rattle.cycle_window.specs.Held.{IsOver, IsWindowOf, AreClocksOf, ticks_in, size_in};
ghost use Rattle.workers_core.specs.States.{Setting, Replies, held};
ghost use Rattle.workers_core.specs.States.{next_slide, next_claim, next_advance, next_publish};
ghost use Rattle.workers_core.specs.States.{next_gather};
ghost use Rattle.workers_core.specs.Parts.{worker_state};

use crate::conditions::{are_at, are_free, are_idle, held_by, is_free_worker, stands_below};
use crate::job::Job;
use crate::monitor::Monitor;
use crate::opening::{idle_workers, monitors_of, numbers_below, window_of};
use crate::order::{empty_done, numbers_of};
use crate::step::Reply;
use crate::team_size::TeamSize;
use crate::worker::{Worker, put_down};
use arrayvec::ArrayVec;
use cycle_window::{Clocks, Window, WindowSize};
use machine_batches::Batch;
use std::alloc::{AllocError, Global};
use std::collections::VecDeque;
use vcd_reader::Dump;

/// The window, the monitors, who has which, and the board.
#[derive(Drop)]
pub(crate) struct CoreParts<'j> {
    pub(crate) window: Window<'j>,
    /// In source order: a monitor's number is its place here.
    pub(crate) monitors: Vec<Monitor>,
    /// The numbers of those that wait, front first.
    pub(crate) waiting: VecDeque<usize>,
    pub(crate) workers: Vec<Worker>,
    pub(crate) board: Vec<Batch>,
}

impl<'j> CoreParts<'j> {
    ghost use Rattle.workers_core.specs.Parts.{core_state, AreSoundParts, KeepsParts, SeeAs};
    ghost use Rattle.workers_core.specs.Cores.{IsOpened};

    /// All monitors wait before the first clock, at an empty window of a size.
    pub(crate) fn new(
        alloc: Global,
        job: &'j Job,
        team: TeamSize,
        size: WindowSize,
    ) -> Result<CoreParts<'j>, AllocError>
        ensures opened { IfOk result (IsOpened job.now team size) }
    {
        let Ok(window) = window_of(alloc, job, size) else {
            return Err(AllocError);
        };
        let monitors = monitors_of(alloc, job.programs.as_slice())?;
        let waiting = numbers_below(alloc, monitors.len())?;
        let count = team.workers();
        let workers = idle_workers(alloc, count)?;
        Ok(CoreParts {
            window,
            monitors,
            waiting: VecDeque::from(waiting),
            workers,
            board: Vec::new(alloc),
        })
    }

    /// The front monitor goes into a worker's empty hand.
    pub(crate) fn claim(&mut self, worker: usize) -> Reply
        ensures reply { Replies (core_state self.old) (next_claim (core_state self.old) worker)
            (core_state self.new) result }
        ensures sound { AreSoundParts self.old → AreSoundParts self.new }
        ensures kept { KeepsParts self.old self.new }
        ensures window { self.new.window ≡ self.old.window }
    {
        if self.waiting.is_empty() {
            return Reply::Refused;
        }
        let front = self.waiting[0];
        let (_, end) = self.window.bounds();
        let below = stands_below(self.monitors.as_slice(), front, end);
        if !is_free_worker(self.workers.as_slice(), worker) || !below {
            return Reply::Refused;
        }
        self.workers[worker].hand = Some(front);
        self.waiting.pop_front();
        Reply::Done
    }

    /// A worker's monitor runs so many clocks.
    pub(crate) fn advance(&mut self, worker: usize, clocks: u64) -> Reply
        requires sound { AreSoundParts self.old }
        ensures reply { (g : Setting) (c : Contents) → IsOver self.old.window c
            → SeeAs g self.old.window c self.old.monitors.items
            → Replies (core_state self.old) (next_advance g (core_state self.old) worker clocks)
            (core_state self.new) result }
        ensures sound { AreSoundParts self.new }
        ensures kept { KeepsParts self.old self.new }
        ensures window { self.new.window ≡ self.old.window }
        ensures waiting { self.new.waiting ≡ self.old.waiting }
        ensures workers { self.new.workers ≡ self.old.workers }
    {
        let Some(number) = held_by(self.workers.as_slice(), worker) else {
            return Reply::Refused;
        };
        if number >= self.monitors.len() {
            return Reply::Refused;
        }
        let (_, end) = self.window.bounds();
        let now = self.monitors[number].machine.now();
        if clocks == 0 || clocks > end.saturating_sub(now) {
            return Reply::Refused;
        }
        let monitor = &mut self.monitors[number];
        if monitor.reserve(clocks).is_err() {
            return Reply::Memory;
        }
        let mut decided = ArrayVec::new();
        monitor.advance(&self.window, now + clocks, &mut decided);
        Reply::Done
    }

    /// A worker's monitor publishes its batch, and goes into the worker's done list.
    pub(crate) fn publish(&mut self, alloc: Global, worker: usize) -> Reply
        requires sound { AreSoundParts self.old }
        ensures reply { Replies (core_state self.old) (next_publish (core_state self.old) worker)
            (core_state self.new) result }
        ensures sound { AreSoundParts self.new }
        ensures kept { KeepsParts self.old self.new }
        ensures window { self.new.window ≡ self.old.window }
    {
        let Some(number) = held_by(self.workers.as_slice(), worker) else {
            return Reply::Refused;
        };
        if number >= self.monitors.len() {
            return Reply::Refused;
        }
        let (_, end) = self.window.bounds();
        if self.monitors[number].machine.now() != end {
            return Reply::Refused;
        }
        if self.board.reserve(1).is_err() {
            return Reply::Memory;
        }
        if put_down(self.workers.as_mut_slice(), worker, number).is_err() {
            return Reply::Memory;
        }
        let monitor = &mut self.monitors[number];
        let batch = monitor.take_batch(alloc, number);
        let kept = self.board.push(batch);
        prove!(kept.is_ok());
        Reply::Done
    }

    /// The done lists go back to waiting.
    pub(crate) fn gather(&mut self, alloc: Global) -> Reply
        ensures reply { Replies (core_state self.old) (next_gather (core_state self.old))
            (core_state self.new) result }
        ensures sound { AreSoundParts self.old → AreSoundParts self.new }
        ensures kept { KeepsParts self.old self.new }
        ensures window { self.new.window ≡ self.old.window }
    {
        if !self.waiting.is_empty() || !are_free(self.workers.as_slice()) {
            return Reply::Refused;
        }
        match numbers_of(alloc, self.workers.as_slice()) {
            Err(_) => Reply::Memory,
            Ok(all) => {
                self.waiting = VecDeque::from(all);
                empty_done(self.workers.as_mut_slice());
                Reply::Done
            }
        }
    }

    /// The next window.
    pub(crate) fn slide(&mut self, dump: &Dump, clocks: &Clocks) -> Reply
        requires same { IsWindowOf self.old.window dump.now clocks.now }
        ensures reply { (g : Setting) → g.clocks ≡ length (ticks_in clocks.now)
            → g.size ≡ size_in self.old.window
            → Replies (core_state self.old) (next_slide g (core_state self.old))
            (core_state self.new) result }
        ensures sound { AreSoundParts self.old → AreSoundParts self.new }
        ensures same { IsWindowOf self.new.window dump.now clocks.now }
        ensures kept { KeepsParts self.old self.new }
        ensures waiting { self.new.waiting ≡ self.old.waiting }
        ensures workers { self.new.workers ≡ self.old.workers }
    {
        let (_, end) = self.window.bounds();
        let idle = are_idle(self.workers.as_slice());
        let at = are_at(self.monitors.as_slice(), end);
        if !idle || !at || end >= clocks.len() {
            return Reply::Refused;
        }
        self.window.slide(dump, clocks);
        Reply::Done
    }
}
