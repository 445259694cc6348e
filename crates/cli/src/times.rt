//! The times of clocks.

ghost use Rattle.std.specs.Prelude.{IfOk};
ghost use Rattle.vcd_reader.specs.Held.{steps_in};
ghost use Rattle.cycle_window.specs.Held.{ticks_in};
ghost use Rattle.cli.specs.Timed.{AreTimesIn};

use cycle_window::{Clocks, time_of_tick};
use std::alloc::{AllocError, Global};
use vcd_reader::Dump;

/// The times of so many clocks, from the first on.
pub(crate) fn times_of(
    alloc: Global,
    dump: &Dump,
    clocks: &Clocks,
    count: usize,
) -> Result<Vec<u64>, AllocError>
    ensures { IfOk result (λ times.
        AreTimesIn (steps_in dump.now) (ticks_in clocks.now) count times.items) }
{
    let mut times = Vec::with_capacity(alloc, count)?;
    for tick in 0..count {
        times.push(time_of_tick(dump, clocks, tick))?;
    }
    Ok(times)
}
