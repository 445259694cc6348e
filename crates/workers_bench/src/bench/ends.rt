//! How a round ends at the bench.
ghost use Rattle.std.specs.Prelude.{◌≡◌, ◌≤◌, ◌<◌, ◌+◌, ℕ, true, [], All, vec_capacity};
ghost use Rattle.crossbeam_queue.specs.Passes.{view, IsPassOf, ruled_capacity};
ghost use Rattle.workers_bench.specs.Hands.{whole, total, numbers, IsOfRound};
ghost use Rattle.workers_bench.specs.Passes.{pass_parts, taken_of};

use super::Pass;
use crate::numbered::Numbered;
use crate::passes::{Fair, Gathers, Hand, Whole};
use crossbeam_queue::RuledArrayQueue;
use std::sync::Wait;

// The pass that puts takes in all others.
pub(super) fn gather(
    queue: &RuledArrayQueue<Numbered, Hand, Fair>,
    mut pass: Pass,
    mut passes: Vec<Pass>,
) -> Pass
    requires of { IsPassOf queue.now pass × All (IsPassOf queue.now) passes.items }
    requires may { ((view pass).puts ≡ true) × (0 < pass_parts pass) }
    requires all { pass_parts pass + total pass_parts passes.items ≡ whole }
    ensures of { IsPassOf queue.now result }
    ensures whole { (pass_parts result ≡ whole) × ((view result).puts ≡ true) }
    ensures put { ((view result).put ≡ (view pass).put)
        × ((view result).round ≡ (view pass).round) }
    ensures taken { (h : ℕ → ℕ) → taken_of h result
        ≡ taken_of h pass + total (taken_of h) passes.items }
{
    while let Some(other) = passes.pop() {
        queue.absorb::<Gathers>(&mut pass, other);
    }
    pass
}

// All that the queue holds.
pub(super) fn drain(
    rt: &impl Wait,
    queue: &RuledArrayQueue<Numbered, Hand, Fair>,
    mut pass: Pass,
    mut rest: Vec<Numbered>,
) -> Vec<Numbered>
    requires of { IsPassOf queue.now pass }
    requires whole { (pass_parts pass ≡ whole) × ((view pass).puts ≡ true) }
    requires room { (rest.items ≡ []) × (ruled_capacity queue.now ≤ vec_capacity rest) }
    ensures rest { (h : ℕ → ℕ) → total h (view pass).put
        ≡ taken_of h pass + total h (numbers result.items) }
    ensures job { All (IsOfRound (view pass).round) result.items }
{
    let held = queue.len_as::<Whole, _>(rt, &mut pass);
    for _i in 0..held {
        let Some(monitor) = queue.pop_as::<Whole, _>(rt, &mut pass) else {
            return rest;
        };
        rest.push_reserved(monitor);
    }
    queue.learn_as::<Whole>(&mut pass);
    rest
}
