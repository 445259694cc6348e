//! The live obligations at a clock.

ghost use Rattle.std.specs.Prelude.{◌≡◌, ◌+◌, ◌*◌, ◌≤◌, [], length};
ghost use Rattle.bytecode_programs.specs.Programs.{data_of};
ghost use Rattle.verifier.specs.Programs.{IsAccepted};
ghost use Rattle.attempt_pool.specs.Pooled.{pooled};
ghost use Rattle.machine.specs.Bases.{AreBases};
ghost use Rattle.machine.specs.Live.{obligations_in, visit_cost, AreOwed, OpenedLately};
ghost use Rattle.machine.specs.Live.{AreVisited};

use crate::fates::Fates;
use crate::obligation::ObligationRecord;
use crate::visit::visit_positions;
use attempt_pool::Pool;
use bytecode_programs::Program;

/// Visits each obligation in order of its tick, retires those that ended, and answers what became
/// of them.
pub(crate) fn visit_obligations(
    program: &Program,
    bases: &[usize],
    atoms: &[bool],
    now: u64,
    pool: &mut Pool<ObligationRecord>,
    left: &mut u64,
) -> Fates
    requires accepted { IsAccepted (data_of program.now) }
    requires bases { AreBases (data_of program.now).consequent.blocks bases.now }
    requires atoms { length atoms.now ≡ (data_of program.now).header.atoms }
    requires owed { AreOwed (data_of program.now) now (obligations_in pool.old.live) }
    requires recent { OpenedLately now (obligations_in pool.old.live) }
    requires fits { length pool.old.live * visit_cost (data_of program.now).consequent ≤ left.old }
    ensures cap { pool.new.cap ≡ pool.old.cap }
    ensures visits { AreVisited (data_of program.now).consequent atoms.now now
        (obligations_in pool.old.live) left.old (obligations_in pool.new.live) left.new result }
{
    let mut fates = Fates::none();
    let mut at = pool.first();
    while let Some(slot) = at {
        at = pool.next(slot);
        let obligation = pool.get(slot);
        *left -= 1;
        let made = visit_positions(
            &program.consequent,
            bases,
            atoms,
            obligation.positions,
            left,
        );
        fates.note(obligation, made, now);
        if obligation.is_ended(made) {
            pool.retire(slot);
        } else {
            pool.set(slot, obligation.visited_record(made));
        }
    }
    fates
}

/// Ends all obligations.
pub(crate) fn drop_obligations(pool: &mut Pool<ObligationRecord>)
    ensures { pool.new ≡ pooled pool.old.cap [] }
{
    while let Some(slot) = pool.first() {
        pool.retire(slot);
    }
}
