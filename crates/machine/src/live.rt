//! What is live between clocks.

ghost use Rattle.std.specs.Prelude.{◌≡◌, ◌+◌, ◌^◌, ◌<◌, ◌≤◌, ◌++◌, ◌∷◌, [], Some, length, IsTrue};
ghost use Rattle.std.specs.Prelude.{IfSome, List};
ghost use Rattle.signals.specs.declared.verdict.Decided.{Decided};
ghost use Rattle.bytecode_programs.specs.Programs.{data_of};
ghost use Rattle.verifier.specs.Programs.{IsAccepted};
ghost use Rattle.machine_checked.specs.Clocks.{disabling};
ghost use Rattle.machine_checked.specs.Bounds.{IsReached};
ghost use Rattle.machine.specs.Code.{AreBasesOf};
ghost use Rattle.machine.specs.Live.{attempts_in, obligations_in, standing_of, new_attempt};
ghost use Rattle.machine.specs.Live.{with_new};
ghost use Rattle.machine.specs.Live.{live_budget, ArePoolsOf, HasAdvanced};
ghost use Rattle.machine.specs.Told.{AreOutcomesOf, IsTold};
ghost use Rattle.machine.specs.Few.{AreFew, IsThis};
ghost use Rattle.machine_checked.specs.Clocks.{Standing};
ghost use Rattle.machine.specs.Later.{standing_later};
ghost use Rattle.machine.specs.Again.{IsLittle};

use crate::at_most_one::{
    Few, Little, is_attempt_later, is_obligation_later, move_attempt, move_obligation,
    only_attempt, only_obligation,
};
use crate::attempt::AttemptRecord;
use crate::attempts::{disable_attempts, settle_attempts, visit_attempts};
use crate::block_starts::Bases;
use crate::obligation::ObligationRecord;
use crate::obligations::{drop_obligations, visit_obligations};
use crate::outcomes::{Outcomes, Told, number_of};
use crate::own_attempt::{
    disable_own_attempt, own_attempt, settle_own_attempt, visit_own_attempt, visit_own_obligation,
};
use crate::repeats::verdict_at;
use arrayvec::ArrayVec;
use attempt_pool::Pool;
use bytecode_programs::Program;
use signals::Decided;

/// The live attempts and obligations, the number of clocks that were run, and what clocks with
/// nothing live came to.
#[derive(Drop)]
pub(crate) struct Live {
    pub(crate) now: u64,
    pub(crate) attempts: Pool<AttemptRecord>,
    pub(crate) obligations: Pool<ObligationRecord>,
    pub(crate) outcomes: Outcomes,
}

/// Whether the atoms disable the clock.
fn is_disabled(program: &Program, atoms: &[bool]) -> bool
    requires accepted { IsAccepted (data_of program.now) }
    requires atoms { length atoms.now ≡ (data_of program.now).header.atoms }
    ensures { disabling (data_of program.now).header.disable atoms.now ≡ Some result }
{
    match program.disable {
        Some(atom) => atoms[atom as usize],
        None => false,
    }
}

/// Opens the attempt of the clock `now`.
fn open_attempt(program: &Program, now: u64, pool: &mut Pool<AttemptRecord>)
    requires { length pool.old.live < pool.old.cap }
    ensures cap { pool.new.cap ≡ pool.old.cap }
    ensures opened { attempts_in pool.new.live
        ≡ attempts_in pool.old.live ++ new_attempt (data_of program.now) now ∷ [] }
{
    let _slot = pool.open(AttemptRecord {
        start: now,
        positions: program.antecedent.start,
        awaited: 0,
    });
}

/// Opens the obligation of the clock `now` where an attempt accepted.
fn open_obligation(accepted: bool, program: &Program, now: u64, pool: &mut Pool<ObligationRecord>)
    requires { length pool.old.live < pool.old.cap }
    ensures cap { pool.new.cap ≡ pool.old.cap }
    ensures opened { obligations_in pool.new.live
        ≡ with_new (data_of program.now) now accepted (obligations_in pool.old.live) }
{
    if accepted {
        let _slot = pool.open(ObligationRecord {
            tick: now,
            positions: program.consequent.start,
        });
    }
}

impl Live {
    /// Whether nothing is live.
    pub(crate) fn is_idle(&self) -> bool
        ensures { IsTrue result → (self.entry.now.attempts.live ≡ [])
            × (self.entry.now.obligations.live ≡ []) }
    {
        self.attempts.len() == 0 && self.obligations.len() == 0
    }

    /// What is live, where something is.
    fn few(&self) -> Little
        ensures { IsThis (standing_of self.entry.now.now
            self.entry.now.attempts self.entry.now.obligations) result }
    {
        if self.attempts.len() > 1 || self.obligations.len() > 1 {
            return Little::Much;
        }
        Little::Few(Few {
            attempt: only_attempt(&self.attempts),
            obligation: only_obligation(&self.obligations),
        })
    }

    /// What is live.
    pub(crate) fn little(&self) -> Little
        ensures { IsThis (standing_of self.entry.now.now
            self.entry.now.attempts self.entry.now.obligations) result }
    {
        if self.is_idle() {
            return Little::Nothing;
        }
        self.few()
    }

    /// Whether few are live now that are these ones, one clock later.
    fn are_later(&self, before: Few) -> bool
        ensures little { IsTrue result → IsLittle (standing_of self.entry.now.now
            self.entry.now.attempts self.entry.now.obligations) }
        ensures later { IsTrue result → (old : Standing) → AreFew old before
            → self.entry.now.now ≡ old.now + 1
            → standing_of self.entry.now.now self.entry.now.attempts self.entry.now.obligations
            ≡ standing_later 1 old }
    {
        match self.few() {
            Little::Few(after) => {
                is_attempt_later(before.attempt, after.attempt)
                    && is_obligation_later(before.obligation, after.obligation)
            }
            _ => false,
        }
    }

    /// Whether what is live now is what was live before, one clock later, and is little.
    pub(crate) fn is_later(&self, before: Little) -> bool
        ensures little { IsTrue result → IsLittle (standing_of self.entry.now.now
            self.entry.now.attempts self.entry.now.obligations) }
        ensures later { IsTrue result → (old : Standing) → IsThis old before
            → self.entry.now.now ≡ old.now + 1
            → standing_of self.entry.now.now self.entry.now.attempts self.entry.now.obligations
            ≡ standing_later 1 old }
    {
        match before {
            Little::Nothing => self.is_idle(),
            Little::Few(few) => self.are_later(few),
            Little::Much => false,
        }
    }

    /// Moves what is live, one attempt at most and one obligation at most, to so many clocks later.
    pub(crate) fn move_on(&mut self, program: &Program, clocks: u64)
        requires little { IsLittle (standing_of self.old.now
            self.old.attempts self.old.obligations) }
        requires reached { IsReached (data_of program.now)
            (standing_of self.old.now self.old.attempts self.old.obligations) }
        requires more { self.old.now + clocks < 2 ^ 64 }
        ensures pools { (self.new.attempts.cap ≡ self.old.attempts.cap)
            × (self.new.obligations.cap ≡ self.old.obligations.cap) }
        ensures now { self.new.now ≡ self.old.now + clocks }
        ensures later { standing_of self.new.now self.new.attempts self.new.obligations
            ≡ standing_later clocks
            (standing_of self.old.now self.old.attempts self.old.obligations) }
        ensures same { self.new.outcomes ≡ self.old.outcomes }
    {
        let _ = program;
        let now = self.now;
        move_attempt(&mut self.attempts, now, clocks);
        move_obligation(&mut self.obligations, now, clocks);
        self.now = now + clocks;
    }

    /// A clock, by the pools.
    fn full_clock(
        &mut self,
        program: &Program,
        bases: &Bases,
        atoms: &[bool],
        left: &mut u64,
        out: &mut ArrayVec<Decided, 1024>,
    )
        requires accepted { IsAccepted (data_of program.now) }
        requires bases { AreBasesOf (data_of program.now) bases.now }
        requires atoms { length atoms.now ≡ (data_of program.now).header.atoms }
        requires more { self.old.now + 1 < 2 ^ 64 }
        requires pools { ArePoolsOf (data_of program.now)
            self.old.attempts.cap self.old.obligations.cap }
        requires reached { IsReached (data_of program.now)
            (standing_of self.old.now self.old.attempts self.old.obligations) }
        requires budget { live_budget (data_of program.now) ≤ left.old }
        requires room { length out.old.items + (data_of program.now).header.limits.attempts ≤ 1024 }
        ensures pools { ArePoolsOf (data_of program.now)
            self.new.attempts.cap self.new.obligations.cap }
        ensures fewer { left.new ≤ left.old }
        ensures advanced { HasAdvanced (data_of program.now)
            (standing_of self.old.now self.old.attempts self.old.obligations) atoms.now
            left.old out.old.items
            (standing_of self.new.now self.new.attempts self.new.obligations)
            left.new out.new.items }
        ensures same { self.new.outcomes ≡ self.old.outcomes }
    {
        open_attempt(program, self.now, &mut self.attempts);
        if is_disabled(program, atoms) {
            disable_attempts(self.now, &mut self.attempts, left, out);
            drop_obligations(&mut self.obligations);
            self.now += 1;
            return;
        }
        let before = bases.antecedent.as_slice();
        let accepted = visit_attempts(program, before, atoms, self.now, &mut self.attempts, left);
        open_obligation(accepted, program, self.now, &mut self.obligations);
        let after = bases.consequent.as_slice();
        let fates = visit_obligations(program, after, atoms, self.now, &mut self.obligations, left);
        settle_attempts(fates, self.now, &mut self.attempts, left, out);
        self.now += 1;
    }

    /// A clock before which nothing is live: no pool is walked.
    fn own_clock(
        &mut self,
        program: &Program,
        bases: &Bases,
        atoms: &[bool],
        left: &mut u64,
        out: &mut ArrayVec<Decided, 1024>,
    )
        requires accepted { IsAccepted (data_of program.now) }
        requires bases { AreBasesOf (data_of program.now) bases.now }
        requires atoms { length atoms.now ≡ (data_of program.now).header.atoms }
        requires more { self.old.now + 1 < 2 ^ 64 }
        requires pools { ArePoolsOf (data_of program.now)
            self.old.attempts.cap self.old.obligations.cap }
        requires no_attempt { self.old.attempts.live ≡ [] }
        requires no_obligation { self.old.obligations.live ≡ [] }
        requires budget { live_budget (data_of program.now) ≤ left.old }
        requires room { length out.old.items + (data_of program.now).header.limits.attempts ≤ 1024 }
        ensures pools { ArePoolsOf (data_of program.now)
            self.new.attempts.cap self.new.obligations.cap }
        ensures fewer { left.new ≤ left.old }
        ensures advanced { HasAdvanced (data_of program.now)
            (standing_of self.old.now self.old.attempts self.old.obligations) atoms.now
            left.old out.old.items
            (standing_of self.new.now self.new.attempts self.new.obligations)
            left.new out.new.items }
        ensures same { self.new.outcomes ≡ self.old.outcomes }
    {
        let now = self.now;
        if is_disabled(program, atoms) {
            disable_own_attempt(now, left, out);
            self.now += 1;
            return;
        }
        let visit = visit_own_attempt(program, bases.antecedent.as_slice(), atoms, left);
        let attempt = own_attempt(program, now).visited_record(visit, now);
        let after = bases.consequent.as_slice();
        let opened = &mut self.obligations;
        let fates = visit_own_obligation(visit.accepted, program, after, atoms, now, opened, left);
        settle_own_attempt(attempt, fates, now, &mut self.attempts, left, out);
        self.now += 1;
    }

    /// What a clock came to, where so much of the budget was left before it and after it, and it
    /// told this last; none where something is live after it.
    fn told_alone(&self, began: u64, left: u64, out: &[Decided]) -> Option<Told>
        ensures idle { IfSome result (λ _. (self.entry.now.attempts.live ≡ [])
            × (self.entry.now.obligations.live ≡ [])) }
        ensures budget { IfSome result (λ told. (told.began ≡ began) × (told.left ≡ left)) }
        ensures last { IfSome result (λ told. (before : List Decided) (last : Decided)
            → out.now ≡ before ++ last ∷ [] → told.verdict ≡ last.verdict) }
    {
        if !self.is_idle() || out.is_empty() {
            return None;
        }
        Some(Told {
            verdict: out[out.len() - 1].verdict,
            began,
            left,
        })
    }

    /// A clock before which nothing is live, by what is noted of one over the same atoms.
    fn told_clock(
        &mut self,
        program: &Program,
        atoms: &[bool],
        told: Told,
        left: &mut u64,
        out: &mut ArrayVec<Decided, 1024>,
    )
        requires accepted { IsAccepted (data_of program.now) }
        requires more { self.old.now + 1 < 2 ^ 64 }
        requires no_attempt { self.old.attempts.live ≡ [] }
        requires no_obligation { self.old.obligations.live ≡ [] }
        requires told { IsTold (data_of program.now) atoms.now told }
        requires began { told.began ≡ left.old }
        requires room { length out.old.items + (data_of program.now).header.limits.attempts ≤ 1024 }
        ensures pools { (self.new.attempts ≡ self.old.attempts)
            × (self.new.obligations ≡ self.old.obligations) }
        ensures fewer { left.new ≤ left.old }
        ensures advanced { HasAdvanced (data_of program.now)
            (standing_of self.old.now self.old.attempts self.old.obligations) atoms.now
            left.old out.old.items
            (standing_of self.new.now self.new.attempts self.new.obligations)
            left.new out.new.items }
        ensures same { self.new.outcomes ≡ self.old.outcomes }
    {
        let _ = program;
        let _ = atoms;
        let now = self.now;
        *left = told.left;
        out.push(Decided {
            start: now,
            verdict: verdict_at(now, told.verdict),
        });
        self.now = now + 1;
    }

    /// A clock before which nothing is live: by what is noted of one over the same atoms, or else
    /// by visits, of which it is noted.
    fn idle_clock(
        &mut self,
        program: &Program,
        bases: &Bases,
        atoms: &[bool],
        left: &mut u64,
        out: &mut ArrayVec<Decided, 1024>,
    )
        requires accepted { IsAccepted (data_of program.now) }
        requires bases { AreBasesOf (data_of program.now) bases.now }
        requires atoms { length atoms.now ≡ (data_of program.now).header.atoms }
        requires more { self.old.now + 1 < 2 ^ 64 }
        requires pools { ArePoolsOf (data_of program.now)
            self.old.attempts.cap self.old.obligations.cap }
        requires no_attempt { self.old.attempts.live ≡ [] }
        requires no_obligation { self.old.obligations.live ≡ [] }
        requires outcomes { AreOutcomesOf (data_of program.now) self.old.outcomes }
        requires budget { live_budget (data_of program.now) ≤ left.old }
        requires room { length out.old.items + (data_of program.now).header.limits.attempts ≤ 1024 }
        ensures pools { ArePoolsOf (data_of program.now)
            self.new.attempts.cap self.new.obligations.cap }
        ensures fewer { left.new ≤ left.old }
        ensures advanced { HasAdvanced (data_of program.now)
            (standing_of self.old.now self.old.attempts self.old.obligations) atoms.now
            left.old out.old.items
            (standing_of self.new.now self.new.attempts self.new.obligations)
            left.new out.new.items }
        ensures outcomes { AreOutcomesOf (data_of program.now) self.new.outcomes }
    {
        let Some(number) = number_of(atoms) else {
            self.own_clock(program, bases, atoms, left, out);
            return;
        };
        if let Some(told) = self.outcomes.at(number, *left) {
            self.told_clock(program, atoms, told, left, out);
            return;
        }
        let began = *left;
        self.own_clock(program, bases, atoms, left, out);
        if let Some(told) = self.told_alone(began, *left, out.as_slice()) {
            self.outcomes.note(program, atoms, number, told);
        }
    }

    /// A clock after its sample code, which gave these atoms: it adds what it decides to `out`,
    /// and takes its cost off `left`.
    pub(crate) fn clock(
        &mut self,
        program: &Program,
        bases: &Bases,
        atoms: &[bool],
        left: &mut u64,
        out: &mut ArrayVec<Decided, 1024>,
    )
        requires accepted { IsAccepted (data_of program.now) }
        requires bases { AreBasesOf (data_of program.now) bases.now }
        requires atoms { length atoms.now ≡ (data_of program.now).header.atoms }
        requires more { self.old.now + 1 < 2 ^ 64 }
        requires pools { ArePoolsOf (data_of program.now)
            self.old.attempts.cap self.old.obligations.cap }
        requires reached { IsReached (data_of program.now)
            (standing_of self.old.now self.old.attempts self.old.obligations) }
        requires outcomes { AreOutcomesOf (data_of program.now) self.old.outcomes }
        requires budget { live_budget (data_of program.now) ≤ left.old }
        requires room { length out.old.items + (data_of program.now).header.limits.attempts ≤ 1024 }
        ensures pools { ArePoolsOf (data_of program.now)
            self.new.attempts.cap self.new.obligations.cap }
        ensures fewer { left.new ≤ left.old }
        ensures advanced { HasAdvanced (data_of program.now)
            (standing_of self.old.now self.old.attempts self.old.obligations) atoms.now
            left.old out.old.items
            (standing_of self.new.now self.new.attempts self.new.obligations)
            left.new out.new.items }
        ensures outcomes { AreOutcomesOf (data_of program.now) self.new.outcomes }
    {
        if self.is_idle() {
            self.idle_clock(program, bases, atoms, left, out);
            return;
        }
        self.full_clock(program, bases, atoms, left, out);
    }
}
