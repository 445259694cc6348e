//! A clock with nothing live before it: its own attempt and obligation, with no walk of a pool.

ghost use Rattle.std.specs.Prelude.{◌≡◌, ◌<◌, ◌≤◌, ◌*◌, ◌∷◌, [], length};
ghost use Rattle.bytecode_programs.specs.Programs.{data_of};
ghost use Rattle.verifier.specs.Programs.{IsAccepted};
ghost use Rattle.machine.specs.Bases.{AreBases};
ghost use Rattle.machine.specs.Records.{attempt_of};
ghost use Rattle.machine.specs.Live.{attempts_in, obligations_in, visit_cost, new_obligation};
ghost use Rattle.machine.specs.Live.{new_attempt, with_new};
ghost use Rattle.machine.specs.Live.{AreVisited, AreSettled, AreDisabled};
ghost use Rattle.machine.specs.Own.{ComesTo};
ghost use Rattle.machine_checked.specs.Clocks.{Attempt};

use crate::attempt::AttemptRecord;
use crate::fates::Fates;
use crate::obligation::ObligationRecord;
use crate::visit::{Visit, visit_positions};
use arrayvec::ArrayVec;
use attempt_pool::Pool;
use bytecode_programs::Program;
use signals::{Decided, Verdict};

/// The attempt of the clock `now`, before its visit.
pub(crate) fn own_attempt(program: &Program, now: u64) -> AttemptRecord
    ensures { attempt_of result ≡ new_attempt (data_of program.now) now }
{
    AttemptRecord {
        start: now,
        positions: program.antecedent.start,
        awaited: 0,
    }
}

/// Tells the attempt of the clock `now` as disabled.
pub(crate) fn disable_own_attempt(now: u64, left: &mut u64, out: &mut ArrayVec<Decided, 1024>)
    requires fits { 1 ≤ left.old }
    requires room { length out.old.items < 1024 }
    ensures { (a : Attempt) → a.start ≡ now →
        AreDisabled now (a ∷ []) left.old out.old.items left.new out.new.items }
{
    *left -= 1;
    let verdict = Verdict::Disabled(now);
    out.push(Decided {
        start: now,
        verdict,
    });
}

/// Visits the attempt of the clock.
pub(crate) fn visit_own_attempt(
    program: &Program,
    bases: &[usize],
    atoms: &[bool],
    left: &mut u64,
) -> Visit
    requires accepted { IsAccepted (data_of program.now) }
    requires bases { AreBases (data_of program.now).antecedent.blocks bases.now }
    requires atoms { length atoms.now ≡ (data_of program.now).header.atoms }
    requires fits { visit_cost (data_of program.now).antecedent ≤ left.old }
    ensures { ComesTo (data_of program.now) atoms.now left.old result left.new }
{
    let start = program.antecedent.start;
    *left -= 1;
    visit_positions(&program.antecedent, bases, atoms, start, left)
}

/// Visits the obligation of the clock `now`, adds it to the pool if it stays, and answers what
/// became of it.
fn visit_opened_obligation(
    program: &Program,
    bases: &[usize],
    atoms: &[bool],
    now: u64,
    pool: &mut Pool<ObligationRecord>,
    left: &mut u64,
) -> Fates
    requires accepted { IsAccepted (data_of program.now) }
    requires bases { AreBases (data_of program.now).consequent.blocks bases.now }
    requires atoms { length atoms.now ≡ (data_of program.now).header.atoms }
    requires none { pool.old.live ≡ [] }
    requires room { 0 < pool.old.cap }
    requires fits { visit_cost (data_of program.now).consequent ≤ left.old }
    ensures cap { pool.new.cap ≡ pool.old.cap }
    ensures visits { AreVisited (data_of program.now).consequent atoms.now now
        (new_obligation (data_of program.now) now ∷ []) left.old (obligations_in pool.new.live)
        left.new result }
{
    let positions = program.consequent.start;
    let obligation = ObligationRecord {
        tick: now,
        positions,
    };
    *left -= 1;
    let made = visit_positions(&program.consequent, bases, atoms, positions, left);
    let mut fates = Fates::none();
    fates.note(obligation, made, now);
    if !obligation.is_ended(made) {
        let _slot = pool.open(obligation.visited_record(made));
    }
    fates
}

/// Visits the obligation of the clock if its attempt accepted; else there is no obligation.
pub(crate) fn visit_own_obligation(
    opens: bool,
    program: &Program,
    bases: &[usize],
    atoms: &[bool],
    now: u64,
    pool: &mut Pool<ObligationRecord>,
    left: &mut u64,
) -> Fates
    requires accepted { IsAccepted (data_of program.now) }
    requires bases { AreBases (data_of program.now).consequent.blocks bases.now }
    requires atoms { length atoms.now ≡ (data_of program.now).header.atoms }
    requires none { pool.old.live ≡ [] }
    requires room { 0 < pool.old.cap }
    requires fits { length (with_new (data_of program.now) now opens [])
        * visit_cost (data_of program.now).consequent ≤ left.old }
    ensures cap { pool.new.cap ≡ pool.old.cap }
    ensures visits { AreVisited (data_of program.now).consequent atoms.now now
        (with_new (data_of program.now) now opens []) left.old (obligations_in pool.new.live)
        left.new result }
{
    if !opens {
        return Fates::none();
    }
    visit_opened_obligation(program, bases, atoms, now, pool, left)
}

/// Settles the attempt of the clock: tells it if it is decided, and else adds it to the pool.
pub(crate) fn settle_own_attempt(
    attempt: AttemptRecord,
    fates: Fates,
    now: u64,
    pool: &mut Pool<AttemptRecord>,
    left: &mut u64,
    out: &mut ArrayVec<Decided, 1024>,
)
    requires begun { attempt.start ≤ now }
    requires none { pool.old.live ≡ [] }
    requires some { 0 < pool.old.cap }
    requires fits { 1 ≤ left.old }
    requires room { length out.old.items < 1024 }
    ensures cap { pool.new.cap ≡ pool.old.cap }
    ensures settled { AreSettled now fates (attempt_of attempt ∷ []) left.old out.old.items
        (attempts_in pool.new.live) left.new out.new.items }
{
    *left -= 1;
    match attempt.verdict(fates, now) {
        Some(verdict) => out.push(Decided {
            start: attempt.start,
            verdict,
        }),
        None => {
            let _slot = pool.open(attempt);
        }
    }
}
