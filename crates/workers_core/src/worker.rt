//! A worker of a core.

ghost use Rattle.std.specs.Prelude.{◌≡◌, ◌<◌, ◌++◌, ◌∷◌, [], None, OnOk, OnErr, length, map};
ghost use Rattle.std.specs.Prelude.{slice_get, slice_set};
ghost use Rattle.workers_core.specs.States.{done_of};
ghost use Rattle.workers_core.specs.Parts.{worker_state};

use std::alloc::AllocError;

/// What a worker has: monitors by their numbers.
#[derive(Drop)]
pub(crate) struct Worker {
    /// The monitor that it runs.
    pub(crate) hand: Option<usize>,
    /// Those whose batches it published in this round, in its order.
    pub(crate) done: Vec<usize>,
}

/// The monitor in a worker's hand goes into its done list.
pub(crate) fn put_down(
    workers: &mut [Worker],
    worker: usize,
    number: usize,
) -> Result<(), AllocError>
    requires { worker < length workers.old }
    ensures len { length workers.new ≡ length workers.old }
    ensures done { OnOk result (map worker_state workers.new ≡ slice_set
        (map worker_state workers.old) worker (record {
          hand = None;
          done = done_of (slice_get (map worker_state workers.old) worker) ++ number ∷ [];
        })) }
    ensures refused { OnErr result (map worker_state workers.new ≡ map worker_state workers.old) }
{
    let found = &mut workers[worker];
    found.done.push(number)?;
    found.hand = None;
    Ok(())
}
