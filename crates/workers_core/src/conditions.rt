//! Tests of workers and monitors.

ghost use Rattle.std.specs.Prelude.{◌≡◌, map, slice_get};
ghost use Rattle.std.specs.List.{list_all};
ghost use Rattle.workers_core.specs.States.{is_free, is_idle, is_at, is_free_one, is_below, held};
ghost use Rattle.workers_core.specs.Standing.{monitor_state};
ghost use Rattle.workers_core.specs.Parts.{worker_state};

use crate::monitor::Monitor;
use crate::worker::Worker;

/// Whether all hands are empty.
pub(crate) fn are_free(workers: &[Worker]) -> bool
    ensures { result ≡ list_all is_free (map worker_state workers.now) }
{
    let mut free = true;
    for worker in workers {
        free &= worker.hand.is_none();
    }
    free
}

/// Whether all hands and all done lists are empty.
pub(crate) fn are_idle(workers: &[Worker]) -> bool
    ensures { result ≡ list_all is_idle (map worker_state workers.now) }
{
    let mut idle = true;
    for worker in workers {
        idle &= worker.hand.is_none() & worker.done.is_empty();
    }
    idle
}

/// Whether all monitors stand at a clock.
pub(crate) fn are_at(monitors: &[Monitor], clock: u64) -> bool
    ensures { result ≡ list_all (is_at clock) (map monitor_state monitors.now) }
{
    let mut at = true;
    for monitor in monitors {
        at &= monitor.machine.now() == clock;
    }
    at
}

/// Whether a worker is there, with an empty hand.
pub(crate) fn is_free_worker(workers: &[Worker], worker: usize) -> bool
    ensures { result ≡ is_free_one (slice_get (map worker_state workers.now) worker) }
{
    match workers.get(worker) {
        None => false,
        Some(found) => found.hand.is_none(),
    }
}

/// The number of the monitor in a worker's hand.
pub(crate) fn held_by(workers: &[Worker], worker: usize) -> Option<usize>
    ensures { result ≡ held (map worker_state workers.now) worker }
{
    match workers.get(worker) {
        None => None,
        Some(found) => found.hand,
    }
}

/// Whether the monitor of a number is there, and stands below a clock.
pub(crate) fn stands_below(monitors: &[Monitor], number: usize, clock: u64) -> bool
    ensures { result ≡ is_below clock (slice_get (map monitor_state monitors.now) number) }
{
    match monitors.get(number) {
        None => false,
        Some(monitor) => monitor.machine.now() < clock,
    }
}
