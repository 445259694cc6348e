//! A monitor at work.

ghost use Rattle.std.specs.Prelude.{◌≡◌, IfOk, OnOk, ◌+◌, ◌-◌, ◌^◌, ◌<◌, ◌≤◌, length};
ghost use Rattle.std.specs.Prelude.{slice_range};
ghost use Rattle.std.specs.Prelude.{vec_capacity};
ghost use Rattle.vcd_reader.specs.Dump.{Contents};
ghost use Rattle.cycle_window.specs.Held.{end_in, IsOver};
ghost use Rattle.workers_core.specs.States.{advanced};
ghost use Rattle.machine_batches.specs.Batches.{rows_between};
ghost use Rattle.machine_checked.specs.Runs.{open_ones};

use arrayvec::ArrayVec;
use cycle_window::Window;
use machine::Machine;
use machine_batches::{Batch, Streak, Streaks};
use signals::Decided;
use std::alloc::{AllocError, Global};
use std::mem;
use verifier::Verified;

/// How many places of a row stay unused at its end: 128 bytes, so that it shares no line of a cache
/// with the block after, which another thread may write.
const SPARE: usize = 8;

/// A program of a job at work.
#[derive(Drop)]
pub struct Monitor {
    pub(crate) machine: Machine,
    /// Its signals' part of a row: from the first place up to the second, which is not in it.
    pub(crate) from: usize,
    pub(crate) to: usize,
    /// The part at a clock.
    pub(crate) row: Vec<u128>,
    /// How many attempts its program may have live.
    pub(crate) attempts: usize,
    /// The clock from which on the decided attempts are kept.
    pub(crate) since: u64,
    pub(crate) decided: Streaks,
    /// Unused: 128 bytes, so that what a clock writes shares no line of a cache with the monitor
    /// that lies after this one, which another thread may advance.
    spare: [u64; 16],
    ghost wide: { to - from ≤ vec_capacity row },
}

impl Monitor {
    ghost use Rattle.workers_core.specs.Standing.{monitor_state, seen, AreSampled, IsSame};
    ghost use Rattle.workers_core.specs.Standing.{MonitorStands, StandsBehind, HasGone};
    ghost use Rattle.workers_core.specs.Standing.{IsOneMore, AreMore, IsUnmoved, IsCleared};
    ghost use Rattle.workers_core.specs.Parts.{batch_state};
    ghost use Rattle.workers_core.specs.States.{batch};
    ghost use Rattle.workers_core.specs.Opening.{IsNew, monitor_part, part_at, opened_monitor};

    /// A program before its first clock, with its part of a row from a place on.
    pub(crate) fn new(
        alloc: Global,
        verified: &Verified,
        from: usize,
    ) -> Result<Monitor, AllocError>
        ensures opened { IfOk result (λ m. monitor_state m ≡ opened_monitor verified.now) }
        ensures part { IfOk result (λ m. monitor_part m ≡ part_at from verified.now) }
        ensures new { IfOk result IsNew }
    {
        let width = verified.program().signals.len();
        let Some(to) = from.checked_add(width) else {
            return Err(AllocError);
        };
        let row = Vec::with_capacity(alloc, width + SPARE)?;
        let attempts = usize::from(verified.limits().attempts);
        let copied = verified.copy(alloc)?;
        let Ok(machine) = Machine::new(alloc, copied) else {
            return Err(AllocError);
        };
        Ok(Monitor {
            machine,
            from,
            to,
            row,
            attempts,
            since: 0,
            decided: Streaks::new(alloc),
            spare: [0; 16],
        })
    }

    /// A clock over its part of the row. There is room for what it decides, which stands in the
    /// buffer, too. `changed` says that the part is another one than at the clock before.
    fn clock(&mut self, changed: bool, decided: &mut ArrayVec<Decided, 1024>)
        requires row { AreSampled self.old.machine.program self.old.row.items }
        requires room { self.old.machine.program.header.limits.attempts ≤ 1024 }
        requires spare { length self.old.machine.state.standing.attempts + 1
            ≤ self.old.decided.room }
        requires more { self.old.machine.state.standing.now + 1 < 2 ^ 64 }
        ensures clock { IsOneMore self.old self.old.row.items self.new }
        ensures row { self.new.row ≡ self.old.row }
    {
        decided.clear();
        let row = self.row.as_slice();
        self.machine.clock_hinted(row, changed, decided);
        self.decided.extend(decided.as_slice());
    }

    /// So many clocks over its part of the row, where the machine passes over them at once: how
    /// many it ran, these or none. There is room for what they decide.
    fn repeat(&mut self, clocks: u64) -> u64
        requires row { AreSampled self.old.machine.program self.old.row.items }
        requires spare { clocks ≤ self.old.decided.room }
        requires more { self.old.machine.state.standing.now + clocks < 2 ^ 64 }
        ensures few { result ≤ clocks }
        ensures clocks { AreMore self.old self.old.row.items result self.new }
        ensures row { self.new.row ≡ self.old.row }
    {
        if clocks == 0 {
            return 0;
        }
        let row = self.row.as_slice();
        match self.machine.repeat(row, clocks) {
            None => 0,
            Some(first) => {
                self.decided.push_streak(Streak::from_first(first, clocks));
                clocks
            }
        }
    }

    /// So many clocks over its part of the row. There is room for what they decide. `changed` says
    /// that the part is another one than at the clock before them.
    fn run(&mut self, clocks: u64, changed: bool, decided: &mut ArrayVec<Decided, 1024>)
        requires row { AreSampled self.old.machine.program self.old.row.items }
        requires room { self.old.machine.program.header.limits.attempts ≤ 1024 }
        requires spare { length self.old.machine.state.standing.attempts + clocks
            ≤ self.old.decided.room }
        requires more { self.old.machine.state.standing.now + clocks < 2 ^ 64 }
        ensures { AreMore self.old self.old.row.items clocks self.new }
    {
        let mut left = clocks;
        let mut changed = changed;
        while left > 0 {
            self.clock(changed, decided);
            changed = false;
            left -= 1;
            let passed = self.repeat(left);
            left -= passed;
        }
    }

    /// Makes room for what so many clocks decide: an attempt each, and those that are live.
    pub fn reserve(&mut self, clocks: u64) -> Result<(), AllocError>
        ensures same { IsUnmoved self.old self.new }
        ensures room { OnOk result (self.new.attempts + clocks ≤ self.new.decided.room) }
    {
        let Some(room) = self.attempts.checked_add(clocks as usize) else {
            return Err(AllocError);
        };
        self.decided.reserve(room)
    }

    /// The clocks up to one of the window's. There is room for what they decide. What the buffer
    /// holds is lost: each clock's verdicts go through it. Where its part of the row stays, it is
    /// put once, and clocks that the machine passes over at once take no time of their own.
    pub fn advance(&mut self, window: &Window<'_>, to: u64, decided: &mut ArrayVec<Decided, 1024>)
        requires stands { MonitorStands window.now self.old }
        requires ahead { self.old.machine.state.standing.now ≤ to }
        requires inside { to ≤ end_in window.now }
        requires spare { length self.old.machine.state.standing.attempts
            + (to - self.old.machine.state.standing.now) ≤ self.old.decided.room }
        ensures stands { MonitorStands window.now self.new }
        ensures same { IsSame self.old self.new }
        ensures place { self.new.machine.state.standing.now ≡ to }
        ensures moved { (c : Contents) → IsOver window.now c →
            advanced (seen window.now c self.old) (to - self.old.machine.state.standing.now)
            (monitor_state self.old)
            ≡ monitor_state self.new }
    {
        let mut clock = self.machine.now();
        let mut changed = false;
        while clock < to {
            window.put_part(&mut self.row, clock, self.from, self.to);
            let same = window.same_after(clock, self.from, self.to);
            let clocks = 1 + same.min(to - 1 - clock);
            self.run(clocks, changed, decided);
            clock += clocks;
            changed = true;
        }
    }

    /// [`advance`](Monitor::advance) through a window over a part of a trace that begins behind so
    /// many clocks, which the monitor counts and the window doesn't.
    pub fn advance_behind(
        &mut self,
        window: &Window<'_>,
        before: u64,
        to: u64,
        decided: &mut ArrayVec<Decided, 1024>,
    )
        requires stands { StandsBehind before window.now self.old }
        requires ahead { self.old.machine.state.standing.now ≤ to }
        requires inside { to ≤ before + end_in window.now }
        requires spare { length self.old.machine.state.standing.attempts
            + (to - self.old.machine.state.standing.now) ≤ self.old.decided.room }
        ensures stands { StandsBehind before window.now self.new }
        ensures same { IsSame self.old self.new }
        ensures place { self.new.machine.state.standing.now ≡ to }
        ensures gone { (c : Contents) → IsOver window.now c → HasGone
            (rows_between (seen window.now c self.old)
            (self.old.machine.state.standing.now - before) (to - before)) self.old self.new }
    {
        let mut tick = self.machine.now() - before;
        let last = to - before;
        let mut changed = false;
        while tick < last {
            window.put_part(&mut self.row, tick, self.from, self.to);
            let same = window.same_after(tick, self.from, self.to);
            let clocks = 1 + same.min(last - 1 - tick);
            self.run(clocks, changed, decided);
            tick += clocks;
            changed = true;
        }
    }

    /// Its live attempts, as open ones, by start.
    pub fn open_attempts(&self) -> ArrayVec<Decided, 1024>
        requires { self.now.machine.program.header.limits.attempts ≤ 1024 }
        ensures { result.items ≡ open_ones self.now.machine.state.standing.attempts }
    {
        let mut live = ArrayVec::new();
        self.machine.open_starts(&mut live);
        live
    }

    /// What was decided since the last batch, as the batch of the clocks since.
    pub fn take_batch(&mut self, alloc: Global, number: usize) -> Batch
        ensures batch { batch_state result ≡ batch number (monitor_state self.old) }
        ensures cleared { IsCleared self.old self.new }
    {
        let mut decided = mem::replace(&mut self.decided, Streaks::new(alloc));
        decided.shrink_to_fit();
        let first = self.since;
        let end = self.machine.now();
        self.since = end;
        Batch {
            monitor: number,
            first,
            end,
            decided,
        }
    }
}
