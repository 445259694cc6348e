//! A monitor through a window.

ghost use Rattle.std.specs.Prelude.{◌≡◌, ℕ, IfOk, OnErr};
ghost use Rattle.cycle_window.specs.Held.{first_in, end_in};
ghost use Rattle.workers_core.specs.declared.job.Job.{Job};
ghost use Rattle.workers_core.specs.Standing.{MonitorStands};
ghost use Rattle.workers_bench.specs.Monitors.{IsMonitorAt};
ghost use Rattle.workers_bench.specs.Windows.{IsWindowFor};
ghost use Rattle.workers.specs.Works.{IsSized, IsBatch, monitor_clock_of};

use arrayvec::ArrayVec;
use cycle_window::Window;
use machine_batches::Batch;
use signals::Decided;
use std::alloc::{AllocError, Global};
use workers_bench::Numbered;

/// Runs a monitor through the window, and makes the batch of it. Where memory is refused, it stands
/// where it stood. What the buffer holds is lost.
pub(crate) fn pass_through(
    alloc: Global,
    window: &Window<'_>,
    given: &mut Numbered,
    decided: &mut ArrayVec<Decided, 1024>,
) -> Result<Batch, AllocError>
    requires stands { MonitorStands window.now given.old.monitor.value }
    requires here { monitor_clock_of given.old ≡ first_in window.now }
    requires sized { IsSized window.now }
    ensures number { given.new.number ≡ given.old.number }
    ensures refused { OnErr result ((j : Job) (at : ℕ)
        → IsMonitorAt j at given.old → IsMonitorAt j at given.new) }
    ensures through { IfOk result (λ batch. (j : Job) → IsWindowFor j window.now
        → IsMonitorAt j (first_in window.now) given.old
        → IsMonitorAt j (end_in window.now) given.new
        × IsBatch j (first_in window.now) (end_in window.now) given.new batch) }
{
    let (first, end) = window.bounds();
    let number = given.number;
    let monitor = &mut *given.monitor;
    monitor.reserve(end - first)?;
    monitor.advance(window, end, decided);
    Ok(monitor.take_batch(alloc, number))
}
