//! What stands at places of a window.

ghost use Rattle.std.specs.Prelude.{◌≡◌, ◌+◌, ◌≤◌, ◌<◌, ◌++◌, ℕ, length, map, get_or};
ghost use Rattle.std.specs.Prelude.{vec_len, vec_capacity};
ghost use Rattle.cycle_window.specs.Picks.{AreBelow};
ghost use Rattle.cycle_window.specs.Values.{numbers};
ghost use Rattle.cycle_window.specs.Samples.{Each, value_at, stay_at};

use crate::samples::Samples;

/// Adds the values at a tick, counted from the window's first, at places. There is room for them.
pub(crate) fn push_picked(values: &mut Vec<u128>, all: &[Samples], picks: &[usize], tick: usize)
    requires below { AreBelow (length all.now) picks.now }
    requires inside { Each (λ i s. tick < length (numbers s.values)) all.now }
    requires room { vec_len values.old + length picks.now ≤ vec_capacity values.old }
    ensures values { values.new.items ≡ values.old.items ++ map (value_at all.now tick) picks.now }
    ensures len { vec_len values.new ≡ vec_len values.old + length picks.now }
    ensures capacity { vec_capacity values.new ≡ vec_capacity values.old }
{
    for pick in picks {
        values.push_reserved(all[*pick].values.at(tick));
    }
}

/// The least of the notes at a tick at places, or a number that is less than all of them.
pub(crate) fn least_stay(all: &[Samples], picks: &[usize], tick: usize, most: u64) -> u64
    requires below { AreBelow (length all.now) picks.now }
    requires inside { Each (λ i s. tick < length s.stays.items) all.now }
    ensures most { result ≤ most }
    ensures least { (i : ℕ) → i < length picks.now
        → result ≤ stay_at all.now tick (get_or picks.now i 0) }
    ensures greatest { (n : ℕ) → n ≤ most
        → ((i : ℕ) → i < length picks.now → n ≤ stay_at all.now tick (get_or picks.now i 0))
        → n ≤ result }
{
    let mut least = most;
    for pick in picks {
        least = least.min(u64::from(all[*pick].stays[tick]));
    }
    least
}
