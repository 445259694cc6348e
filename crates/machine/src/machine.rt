//! The machine.

use crate::attempts::tell_open;
use crate::progress::Progress;
use arrayvec::ArrayVec;
use signals::Decided;
use std::alloc::Global;
use std::marker::Model;
use verifier::Verified;

/// A verified program at work, with all the memory that it needs.
#[derive(Drop)]
pub struct Machine {
    verified: Verified,
    progress: Progress,
}

impl Model for Machine {
    ghost use Rattle.machine.specs.Again.{running_in, IsMachine};
    ghost use Rattle.machine.specs.Running.{Running};

    ghost Value = { Running };

    ghost view = { λ m. running_in m.verified m.progress };

    ghost invariant = { λ m. IsMachine m.verified m.progress };
}

impl Machine {
    ghost use Rattle.std.specs.Prelude.{◌≡◌, ◌+◌, ◌^◌, ◌<◌, ◌≤◌, ◌++◌, length, IfOk, IfErr};
    ghost use Rattle.std.specs.Prelude.{IfSome, IfNone};
    ghost use Rattle.machine.specs.Running.{opened_on, IsOneClock, IsRowOf};
    ghost use Rattle.machine.specs.Again.{AreAgain};
    ghost use Rattle.machine_checked.specs.Runs.{open_ones};

    /// A machine before its first clock, or the program again where memory is refused. No other
    /// call takes memory.
    pub fn new(alloc: Global, verified: Verified) -> Result<Machine, Verified>
        ensures machine { IfOk result (λ machine. machine ≡ opened_on verified) }
        ensures refused { IfErr result (λ same. same ≡ verified) }
    {
        match Progress::new(alloc, verified.program()) {
            Ok(progress) => Ok(Machine { verified, progress }),
            Err(_) => Err(verified),
        }
    }

    /// A clock over one value for each signal. It adds the attempts that it decides to `out`, which
    /// has room for as many as the program declares, and takes no memory.
    pub fn clock(&mut self, row: &[u128], out: &mut ArrayVec<Decided, 1024>)
        requires row { IsRowOf self.old.program row.now }
        requires room { length out.old.items + self.old.program.header.limits.attempts ≤ 1024 }
        requires more { self.old.state.standing.now + 1 < 2 ^ 64 }
        ensures clock { IsOneClock self.old row.now out.old.items self.new out.new.items }
        ensures budget { self.new.spent ≤ self.new.program.header.limits.budget }
    {
        self.clock_hinted(row, false, out);
    }

    /// Runs a clock as `clock` does. `changed` says that the row is known to be another one than
    /// the last, so that the two are not compared. If it is the last one in spite of this, that
    /// costs time alone.
    pub fn clock_hinted(&mut self, row: &[u128], changed: bool, out: &mut ArrayVec<Decided, 1024>)
        requires row { IsRowOf self.old.program row.now }
        requires room { length out.old.items + self.old.program.header.limits.attempts ≤ 1024 }
        requires more { self.old.state.standing.now + 1 < 2 ^ 64 }
        ensures clock { IsOneClock self.old row.now out.old.items self.new out.new.items }
        ensures budget { self.new.spent ≤ self.new.program.header.limits.budget }
    {
        self.progress
            .clock(self.verified.program(), changed, row, out);
    }

    /// So many clocks over a row, where the machine knows that each comes to what the last one came
    /// to, one clock later: what the first of them decides. Else it answers nothing, and runs none.
    /// It takes no memory, and no longer for many clocks than for one.
    pub fn repeat(&mut self, row: &[u128], clocks: u64) -> Option<Decided>
        requires row { IsRowOf self.old.program row.now }
        requires more { self.old.state.standing.now + clocks < 2 ^ 64 }
        ensures again { IfSome result (λ first.
            AreAgain self.old row.now clocks first self.new) }
        ensures none { IfNone result (self.new ≡ self.old) }
    {
        self.progress.repeat(self.verified.program(), row, clocks)
    }

    /// How many clocks were run.
    pub fn now(&self) -> u64
        ensures { result ≡ self.now.state.standing.now }
    {
        self.progress.memory.live.now
    }

    /// The cost of the last clock, 0 before the first.
    pub fn spent(&self) -> u64
        ensures cost { result ≡ self.now.spent }
        ensures budget { result ≤ self.now.program.header.limits.budget }
    {
        self.progress.spent
    }

    /// Adds each live attempt to `out` as open, in order of its start.
    pub fn open_starts(&self, out: &mut ArrayVec<Decided, 1024>)
        requires { length out.old.items + self.now.program.header.limits.attempts ≤ 1024 }
        ensures { out.new.items ≡ out.old.items ++ open_ones self.now.state.standing.attempts }
    {
        tell_open(&self.progress.memory.live.attempts, out);
    }
}
