//! What a core begins with.

ghost use Rattle.std.specs.Prelude.{◌≡◌, ◌≤◌, ℕ, None, Some, IfOk, [], map, replicate};
ghost use Rattle.std.specs.Prelude.{slice_get};
ghost use Rattle.std.specs.List.{range_with_len};
ghost use Rattle.workers_core.specs.States.{WorkerState};
ghost use Rattle.workers_core.specs.declared.monitor.Monitor.{Monitor};
ghost use Rattle.workers_core.specs.Standing.{monitor_state};
ghost use Rattle.workers_core.specs.Parts.{worker_state};
ghost use Rattle.workers_core.specs.Opening.{IsNew, monitor_part, parts_from, opened_monitor};
ghost use Rattle.workers_core.specs.Cores.{IsFirstWindow};

use crate::job::Job;
use crate::monitor::Monitor;
use crate::program_signals::signals_of;
use crate::worker::Worker;
use cycle_window::{Columns, Window, WindowFault, WindowSize};
use std::alloc::{AllocError, Global};
use verifier::Verified;

/// An empty window of a size before the first clock, over the rows of all programs' signals.
pub fn window_of<'j>(
    alloc: Global,
    job: &'j Job,
    size: WindowSize,
) -> Result<Window<'j>, WindowFault>
    ensures first { IfOk result (IsFirstWindow job.now size) }
    ensures good { IfOk result (λ _. (1 ≤ size) × (size ≤ 65536)) }
{
    let signals = signals_of(alloc, job.programs.as_slice())?;
    let columns = Columns::bind(alloc, &job.dump, &job.clocks, signals.as_slice())?;
    Ok(Window::new(alloc, size, columns)?)
}

/// A monitor of each program, in order, each with its part of a row of all signals.
pub fn monitors_of(alloc: Global, programs: &[Verified]) -> Result<Vec<Monitor>, AllocError>
    ensures opened { IfOk result (λ ms.
        map monitor_state ms.items ≡ map opened_monitor programs.now) }
    ensures parts { IfOk result (λ ms. map monitor_part ms.items ≡ parts_from 0 programs.now) }
    ensures new { IfOk result (λ ms. (i : ℕ) (m : Monitor) → slice_get ms.items i ≡ Some m
        → IsNew m) }
{
    let mut monitors = Vec::with_capacity(alloc, programs.len())?;
    let mut from = 0;
    for verified in programs {
        let monitor = Monitor::new(alloc, verified, from)?;
        from = monitor.to;
        monitors.push(monitor)?;
    }
    Ok(monitors)
}

/// The numbers below one, in order.
pub(crate) fn numbers_below(alloc: Global, count: usize) -> Result<Vec<usize>, AllocError>
    ensures { IfOk result (λ ns. ns.items ≡ range_with_len 0 count) }
{
    let mut numbers = Vec::with_capacity(alloc, count)?;
    for number in 0..count {
        numbers.push(number)?;
    }
    Ok(numbers)
}

/// So many workers, who have no monitor.
pub(crate) fn idle_workers(alloc: Global, count: usize) -> Result<Vec<Worker>, AllocError>
    ensures { IfOk result (λ ws. map worker_state ws.items
        ≡ replicate count (record { hand = None; done = [] })) }
{
    let mut workers = Vec::with_capacity(alloc, count)?;
    for _worker in 0..count {
        workers.push(Worker {
            hand: None,
            done: Vec::new(alloc),
        })?;
    }
    Ok(workers)
}
