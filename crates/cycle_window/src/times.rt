//! The times of ticks.

ghost use Rattle.std.specs.Prelude.{◌≡◌, Some, slice_get};
ghost use Rattle.vcd_reader.specs.Held.{steps_in};
ghost use Rattle.cycle_window.specs.Held.{ticks_in};
ghost use Rattle.cycle_window.specs.Times.{time_of_step};

use crate::clocks::Clocks;
use vcd_reader::Dump;

/// The time of a step of a dump, 0 where there is no such step.
fn time_of_step(dump: &Dump, step: usize) -> u64
    ensures { result ≡ time_of_step (steps_in dump.now) (Some step) }
{
    match dump.steps().get(step) {
        None => 0,
        Some(step) => step.time,
    }
}

/// The time of a tick in the dump that the clocks are of: that of the step of its edge, in the
/// dump's unit, and 0 where there is no such tick.
#[tactic(auto, unfolding(crate::specs::Held::ticks_in))]
pub fn time_of_tick(dump: &Dump, clocks: &Clocks, tick: usize) -> u64
    ensures { result ≡ time_of_step (steps_in dump.now) (slice_get (ticks_in clocks.now) tick) }
{
    match clocks.ticks.get(tick) {
        None => 0,
        Some(step) => time_of_step(dump, *step),
    }
}
