//! The bench, on which a round's monitors wait until a worker claims them.

ghost use Rattle.std.specs.Prelude.{◌≡◌, ◌≤◌, [], vec_capacity};
ghost use Rattle.crossbeam_queue.specs.Passes.{ruled_capacity};

use crate::numbered::Numbered;
use crate::passes::{Deals, Fair, Gathers, Hand, Puts, Rounding, Takes, Whole};
use crossbeam_queue::RuledArrayQueue;
use std::alloc::{AllocError, Global};
use std::marker::Brand;
use std::sync::Wait;
use workers_core::Job;

/// What one thread did at a bench: its part of the rule. It has no bytes.
pub type Pass = crossbeam_queue::Pass<Numbered, Hand>;

/// The monitors of a job's round from a clock on. Puts and claims hold no lock.
#[derive(Drop)]
pub struct Bench<'j> {
    job: &'j Job,
    at: u64,
    queue: RuledArrayQueue<Numbered, Hand, Fair>,
    /// Room for what the queue holds when the round ends.
    rest: Vec<Numbered>,
    ghost empty: { rest.items ≡ [] },
    ghost spare: { ruled_capacity queue ≤ vec_capacity rest },
}

mod ends;

use ends::{drain, gather};

impl<'j> Bench<'j> {
    ghost use Rattle.std.specs.Prelude.{◌≡◌, ◌≤◌, ◌<◌, ◌+◌, ℕ, true, IfOk, IfSome, IfNone, All};
    ghost use Rattle.std.specs.Prelude.{vec_len, length};
    ghost use Rattle.crossbeam_queue.specs.Passes.{view};
    ghost use Rattle.workers_bench.specs.Monitors.{IsMonitorAt};
    ghost use Rattle.workers_bench.specs.Hands.{whole, total, end_after, with_put, TakesOne};
    ghost use Rattle.workers_bench.specs.Hands.{numbers};
    ghost use Rattle.workers_bench.specs.Benches.{IsPassOfBench, room_of, round_of, round_at};
    ghost use Rattle.workers_bench.specs.Passes.{PutsNone, TakesNone, pass_parts, taken_of};

    /// A bench for the job's round from the clock `at`, with room for so many monitors, 1 to 4,096;
    /// the pass that puts; and for each of 1 to 64 workers a pass that takes. No other call takes
    /// memory.
    pub fn new(
        alloc: Global,
        job: &'j Job,
        at: u64,
        room: usize,
        workers: usize,
    ) -> Result<(Bench<'j>, Pass, Vec<Pass>), AllocError>
        requires room { (1 ≤ room) × (room ≤ 4096) }
        requires workers { (1 ≤ workers) × (workers ≤ 64) }
        ensures room { IfOk result (λ made. room_of made.0 ≡ room) }
        ensures job { IfOk result (λ made. (made.0.job.now ≡ job.now) × (made.0.at ≡ at)) }
        ensures putting { IfOk result (λ made.
            IsPassOfBench made.0 made.1 × PutsNone (round_at job.now at) workers made.1) }
        ensures count { IfOk result (λ made. vec_len made.2 ≡ workers) }
        ensures taking { IfOk result (λ made.
            All (λ pass. IsPassOfBench made.0 pass × TakesNone (round_at job.now at) pass)
            made.2.items) }
    {
        Bench::open::<Brand>(alloc, job, at, room, workers)
    }

    fn open<K: Rounding>(
        alloc: Global,
        job: &'j Job,
        at: u64,
        room: usize,
        workers: usize,
    ) -> Result<(Bench<'j>, Pass, Vec<Pass>), AllocError>
        requires round { round_at job.now at ≡ K.round }
        requires room { (1 ≤ room) × (room ≤ 4096) }
        requires workers { (1 ≤ workers) × (workers ≤ 64) }
        ensures room { IfOk result (λ made. room_of made.0 ≡ room) }
        ensures job { IfOk result (λ made. (made.0.job.now ≡ job.now) × (made.0.at ≡ at)) }
        ensures putting { IfOk result (λ made.
            IsPassOfBench made.0 made.1 × PutsNone K.round workers made.1) }
        ensures count { IfOk result (λ made. vec_len made.2 ≡ workers) }
        ensures taking { IfOk result (λ made.
            All (λ pass. IsPassOfBench made.0 pass × TakesNone K.round pass) made.2.items) }
    {
        let rest = Vec::with_capacity(alloc, room)?;
        let mut passes = Vec::with_capacity(alloc, workers)?;
        let (queue, mut pass) = RuledArrayQueue::<Numbered, Hand, Fair>::ruled(alloc, room)?;
        for _i in 0..workers {
            passes.push_reserved(queue.another::<Deals<K>>(&mut pass));
        }
        Ok((
            Bench {
                job,
                at,
                queue,
                rest,
            },
            pass,
            passes,
        ))
    }

    /// Puts a monitor after the others, and gives the pass back. The monitor comes back only where
    /// the bench was full.
    pub fn put(&self, rt: &impl Wait, mut pass: Pass, monitor: Numbered) -> (Pass, Option<Numbered>)
        requires of { IsPassOfBench self.now pass }
        requires may { ((view pass).puts ≡ true) × (0 < pass_parts pass) }
        requires job { IsMonitorAt self.now.job.now self.now.at monitor }
        requires order { end_after 0 (view pass).put ≤ monitor.number }
        ensures of { IsPassOfBench self.now result.0 }
        ensures put { IfNone result.1 (view result.0 ≡ with_put (view pass) monitor.number) }
        ensures back { IfSome result.1 (λ m. (m ≡ monitor) × (view result.0 ≡ view pass)) }
        ensures full { IfSome result.1 (λ m. room_of self.now ≤ length (view pass).put) }
    {
        let back = self.queue.push_as::<Puts, _>(rt, &mut pass, monitor).err();
        (pass, back)
    }

    /// Takes the front monitor, if there is one, and gives the pass back.
    pub fn claim(&self, rt: &impl Wait, mut pass: Pass) -> (Pass, Option<Numbered>)
        requires of { IsPassOfBench self.now pass }
        requires may { 0 < pass_parts pass }
        ensures of { IsPassOfBench self.now result.0 }
        ensures some { IfSome result.1 (λ m. TakesOne (view pass) m (view result.0)) }
        ensures job { IfSome result.1 (λ m. IsMonitorAt self.now.job.now self.now.at m) }
        ensures none { IfNone result.1 (view result.0 ≡ view pass) }
        ensures same { pass_parts result.0 ≡ pass_parts pass }
    {
        let monitor = self.queue.pop_as::<Takes, _>(rt, &mut pass);
        (pass, monitor)
    }

    /// The monitors that the bench still holds, with all its passes brought together: the pass that
    /// puts, and all those that take.
    pub fn finish(self, rt: &impl Wait, pass: Pass, passes: Vec<Pass>) -> Vec<Numbered>
        requires of { IsPassOfBench self pass × All (IsPassOfBench self) passes.items }
        requires may { ((view pass).puts ≡ true) × (0 < pass_parts pass) }
        requires all { pass_parts pass + total pass_parts passes.items ≡ whole }
        // What was put is what the passes took and what is left, each as often: however the numbers
        // are weighed, the two weigh the same.
        ensures rest { (h : ℕ → ℕ) → total h (view pass).put
            ≡ (taken_of h pass + total (taken_of h) passes.items)
            + total h (numbers result.items) }
        ensures job { All (IsMonitorAt self.entry.job.now self.entry.at) result.items }
    {
        let Bench {
            job: _,
            at: _,
            queue,
            rest,
        } = self;
        let pass = gather(&queue, pass, passes);
        drain(rt, &queue, pass, rest)
    }
}
