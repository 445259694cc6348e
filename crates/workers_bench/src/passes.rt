//! What each pass of the bench knows, and the rule over the bench and all passes.
ghost use Rattle.std.specs.Prelude.{⊤};

use crate::numbered::Numbered;
use crossbeam_queue::protocol::{Join, Lesson, Outcome, Protocol, Split};
use std::collections::LinkedList;
use std::marker::{Brand, PhantomData};
use workers_core::Job;

/// A round of a job from a clock on. No value of it is made.
pub struct Round {
    pub job: Job,
    pub at: u64,
}

/// What a pass knows: its parts of the right to know the whole, whether it may put, the round, and
/// the numbers of the monitors that it put and took. No value of it is made.
pub struct Hand {
    pub parts: u64,
    pub puts: bool,
    pub round: Option<Round>,
    pub put: LinkedList<usize>,
    pub taken: LinkedList<usize>,
}

/// The rule of the bench.
pub struct Fair;

impl Protocol<Numbered, Hand> for Fair {
    ghost use Rattle.std.specs.Prelude.{true};
    ghost use Rattle.workers_bench.specs.Hands.{Kept, fresh, whole, no_round};

    ghost holds = { Kept };

    ghost first = { fresh whole true no_round };
}

/// Which round it is. Each call that makes a bench picks it.
pub trait Rounding {
    ghost use Rattle.std.specs.Prelude.{Option};
    ghost use Rattle.workers_bench.specs.declared.passes.Round.{Round};

    ghost round: { Option Round };
}

impl Rounding for Brand {
    ghost use Rattle.workers_bench.specs.Hands.{no_round};

    ghost round = { no_round };
}

/// Makes a pass that takes, of one part, in the round `K`.
pub struct Deals<K: Rounding>(PhantomData<K>);

impl<K: Rounding> Split<Hand> for Deals<K> {
    ghost use Rattle.std.specs.Prelude.{true, false, ◌-◌};
    ghost use Rattle.workers_bench.specs.Hands.{fresh};

    ghost left = { λ v. fresh (v.parts - 1) true K.round };

    ghost right = { λ v. fresh 1 false K.round };
}

/// Takes a pass in.
pub struct Gathers;

impl Join<Hand> for Gathers {
    ghost use Rattle.workers_bench.specs.Hands.{hands_joined, idle};

    ghost both = { hands_joined };

    ghost spent = { idle };
}

/// A put.
pub struct Puts;

impl Outcome<Numbered, Hand> for Puts {
    ghost use Rattle.std.specs.Prelude.{◌≡◌};
    ghost use Rattle.workers_bench.specs.Hands.{with_put};

    ghost then = { λ v x w. w ≡ with_put v x.number };
}

impl Lesson<Numbered, Hand> for Puts {
    ghost use Rattle.std.specs.Prelude.{length, ◌≤◌};

    ghost fact = { λ v items. length items ≤ length v.put };
}

/// A take.
pub struct Takes;

impl Outcome<Numbered, Hand> for Takes {
    ghost use Rattle.workers_bench.specs.Hands.{TakesOne};

    ghost then = { TakesOne };
}

impl Lesson<Numbered, Hand> for Takes {
    ghost fact = { λ v items. ⊤ };
}

/// What the pass with all parts learns.
pub struct Whole;

impl Outcome<Numbered, Hand> for Whole {
    ghost use Rattle.workers_bench.specs.Hands.{TakesOne};

    ghost then = { TakesOne };
}

impl Lesson<Numbered, Hand> for Whole {
    ghost use Rattle.workers_bench.specs.Hands.{LeavesTaken};

    ghost fact = { LeavesTaken };
}
