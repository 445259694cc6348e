//! The live attempts at a clock.

ghost use Rattle.std.specs.Prelude.{◌≡◌, ◌+◌, ◌*◌, ◌≤◌, ◌++◌, [], length};
ghost use Rattle.bytecode_programs.specs.Programs.{data_of};
ghost use Rattle.verifier.specs.Programs.{IsAccepted};
ghost use Rattle.attempt_pool.specs.Pooled.{pooled};
ghost use Rattle.machine_checked.specs.Outcomes.{done};
ghost use Rattle.machine_checked.specs.Clocks.{visit_attempts};
ghost use Rattle.machine.specs.Bases.{AreBases};
ghost use Rattle.machine.specs.Live.{attempts_in, visit_cost, AreRunning, HaveBegun, AreSettled};
ghost use Rattle.machine.specs.Live.{AreDisabled};
ghost use Rattle.machine_checked.specs.Runs.{open_ones};

use crate::attempt::AttemptRecord;
use crate::fates::Fates;
use crate::visit::visit_positions;
use arrayvec::ArrayVec;
use attempt_pool::Pool;
use bytecode_programs::Program;
use signals::{Decided, Verdict};

/// Visits each attempt in order of its start, and answers whether any accepted.
pub(crate) fn visit_attempts(
    program: &Program,
    bases: &[usize],
    atoms: &[bool],
    now: u64,
    pool: &mut Pool<AttemptRecord>,
    left: &mut u64,
) -> bool
    requires accepted { IsAccepted (data_of program.now) }
    requires bases { AreBases (data_of program.now).antecedent.blocks bases.now }
    requires atoms { length atoms.now ≡ (data_of program.now).header.atoms }
    requires running { AreRunning (data_of program.now) now (attempts_in pool.old.live) }
    requires fits { length pool.old.live * visit_cost (data_of program.now).antecedent ≤ left.old }
    ensures cap { pool.new.cap ≡ pool.old.cap }
    ensures visits { visit_attempts (data_of program.now).antecedent atoms.now now
        (attempts_in pool.old.live) left.old
        ≡ done (record { attempts = attempts_in pool.new.live; accepted = result }) left.new }
{
    let mut accepted = false;
    let mut at = pool.first();
    while let Some(slot) = at {
        at = pool.next(slot);
        let attempt = pool.get(slot);
        *left -= 1;
        let made = visit_positions(&program.antecedent, bases, atoms, attempt.positions, left);
        pool.set(slot, attempt.visited_record(made, now));
        accepted |= made.accepted;
    }
    accepted
}

/// Settles each attempt in order of its start: those that are decided are told and retired.
pub(crate) fn settle_attempts(
    fates: Fates,
    now: u64,
    pool: &mut Pool<AttemptRecord>,
    left: &mut u64,
    out: &mut ArrayVec<Decided, 1024>,
)
    requires begun { HaveBegun now (attempts_in pool.old.live) }
    requires fits { length pool.old.live ≤ left.old }
    requires room { length out.old.items + length pool.old.live ≤ 1024 }
    ensures cap { pool.new.cap ≡ pool.old.cap }
    ensures settled { AreSettled now fates (attempts_in pool.old.live) left.old out.old.items
        (attempts_in pool.new.live) left.new out.new.items }
{
    let mut at = pool.first();
    while let Some(slot) = at {
        at = pool.next(slot);
        let attempt = pool.get(slot);
        *left -= 1;
        if let Some(verdict) = attempt.verdict(fates, now) {
            out.push(Decided {
                start: attempt.start,
                verdict,
            });
            pool.retire(slot);
        }
    }
}

/// Tells each attempt as disabled, in order of its start, and retires it.
pub(crate) fn disable_attempts(
    now: u64,
    pool: &mut Pool<AttemptRecord>,
    left: &mut u64,
    out: &mut ArrayVec<Decided, 1024>,
)
    requires fits { length pool.old.live ≤ left.old }
    requires room { length out.old.items + length pool.old.live ≤ 1024 }
    ensures none { pool.new ≡ pooled pool.old.cap [] }
    ensures disabled { AreDisabled now (attempts_in pool.old.live) left.old out.old.items
        left.new out.new.items }
{
    while let Some(slot) = pool.first() {
        let attempt = pool.get(slot);
        *left -= 1;
        let verdict = Verdict::Disabled(now);
        out.push(Decided {
            start: attempt.start,
            verdict,
        });
        pool.retire(slot);
    }
}

/// Tells each attempt as open, in order of its start.
pub(crate) fn tell_open(pool: &Pool<AttemptRecord>, out: &mut ArrayVec<Decided, 1024>)
    requires { length out.old.items + length pool.now.live ≤ 1024 }
    ensures { out.new.items ≡ out.old.items ++ open_ones (attempts_in pool.now.live) }
{
    let mut at = pool.first();
    while let Some(slot) = at {
        at = pool.next(slot);
        let start = pool.get(slot).start;
        let verdict = Verdict::Open;
        out.push(Decided { start, verdict });
    }
}
