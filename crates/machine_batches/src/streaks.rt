//! Decided attempts, kept as streaks.

ghost use Rattle.std.specs.Prelude.{◌≡◌, ◌+◌, ◌-◌, ◌<◌, ◌≤◌, ◌∷◌, ◌++◌, [], OnOk, IfSome, length};
ghost use Rattle.std.specs.Prelude.{slice_set};
ghost use Rattle.machine_batches.specs.Streaks.{attempts_in_all, streak_attempts};

use crate::streak::Streak;
use signals::Decided;
use std::alloc::{AllocError, Global};
use std::marker::Model;

/// Decided attempts in their order, of which those that go on with a streak take no room of their
/// own. A clause sees the list of all, and for how many more there is room in any case.
#[derive(Drop)]
pub struct Streaks {
    streaks: Vec<Streak>,
}

impl Model for Streaks {
    ghost use Rattle.machine_batches.specs.Streaks.{Attempts, attempts_kept};

    ghost Value = { Attempts };

    ghost view = { λ s. attempts_kept s.streaks };
}

/// The last streak with another one after it, where that goes on with it.
#[inline]
fn last_with(streaks: &[Streak], more: Streak) -> Option<Streak>
    ensures some { IfSome result (λ _. 0 < length streaks.now) }
    ensures longer { IfSome result (λ s.
        attempts_in_all (slice_set streaks.now (length streaks.now - 1) s)
        ≡ attempts_in_all streaks.now ++ streak_attempts more) }
{
    let last = streaks.len().checked_sub(1)?;
    streaks[last].with(more)
}

impl Streaks {
    /// No attempt.
    pub fn new(alloc: Global) -> Streaks
        ensures { result.items ≡ [] }
    {
        Streaks {
            streaks: Vec::new(alloc),
        }
    }

    /// Makes room for so many attempts more.
    pub fn reserve(&mut self, attempts: usize) -> Result<(), AllocError>
        ensures same { self.new.items ≡ self.old.items }
        ensures room { OnOk result (attempts ≤ self.new.room) }
    {
        self.streaks.reserve(attempts)
    }

    /// Adds the attempts of a streak, which take the room of one at most. Takes no memory.
    #[inline]
    pub fn push_streak(&mut self, more: Streak)
        requires { 0 < self.old.room }
        ensures items { self.new.items ≡ self.old.items ++ streak_attempts more }
        ensures room { self.old.room ≤ self.new.room + 1 }
    {
        if let Some(longer) = last_with(self.streaks.as_slice(), more) {
            let last = self.streaks.len() - 1;
            self.streaks[last] = longer;
        } else {
            self.streaks.push_reserved(more);
        }
    }

    /// Adds an attempt. Takes no memory.
    #[inline]
    pub fn push(&mut self, one: Decided)
        requires { 0 < self.old.room }
        ensures items { self.new.items ≡ self.old.items ++ one ∷ [] }
        ensures room { self.old.room ≤ self.new.room + 1 }
    {
        self.push_streak(Streak::of(one));
    }

    /// Adds attempts in their order. Takes no memory.
    #[inline]
    pub fn extend(&mut self, attempts: &[Decided])
        requires { length attempts.now ≤ self.old.room }
        ensures items { self.new.items ≡ self.old.items ++ attempts.now }
        ensures room { self.old.room ≤ self.new.room + length attempts.now }
    {
        for one in attempts {
            self.push(*one);
        }
    }

    /// Gives back the room that no streak takes.
    pub fn shrink_to_fit(&mut self)
        ensures { self.new.items ≡ self.old.items }
    {
        self.streaks.shrink_to_fit();
    }

    /// The streaks, in their order.
    pub fn as_slice(&self) -> &[Streak]
        ensures { attempts_in_all result.now ≡ self.now.items }
    {
        self.streaks.as_slice()
    }
}
