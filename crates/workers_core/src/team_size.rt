//! How many workers a team has.

use std::marker::Model;
use thiserror::Error;

/// The most workers.
const MOST: u64 = 64;

/// U1: there are to be no workers, or more than 64.
#[derive(Clone, Copy, Debug, Error)]
#[error("U1 BadWorkers")]
pub struct BadTeam;

/// How many workers a team has: 1 to 64.
#[derive(Clone, Copy, Debug)]
pub struct TeamSize {
    workers: usize,
}

impl Model for TeamSize {
    ghost use Rattle.std.specs.Prelude.{ℕ, ◌≤◌};

    ghost Value = { ℕ };

    ghost view = { λ team. team.workers };

    ghost inverse = { λ workers. record { workers = workers } };

    ghost invariant = { λ team. (1 ≤ team.workers) × (team.workers ≤ 64) };
}

impl TeamSize {
    ghost use Rattle.std.specs.Prelude.{◌≡◌, ◌≤◌, IfOk, IfErr};
    ghost use Rattle.workers_core.specs.Values.{IsBadTeam};

    /// A team of so many workers.
    ///
    /// # Errors
    ///
    /// U1: no worker, or more than 64.
    pub fn new(workers: u64) -> Result<TeamSize, BadTeam>
        ensures size { IfOk result (λ team. team ≡ workers) }
        ensures good { IfOk result (λ _. (1 ≤ workers) × (workers ≤ 64)) }
        ensures fault { IfErr result (λ _. IsBadTeam workers) }
    {
        if workers == 0 || workers > MOST {
            return Err(BadTeam);
        }
        Ok(TeamSize {
            workers: workers as usize,
        })
    }

    /// One worker.
    pub fn one() -> TeamSize
        ensures { result ≡ 1 }
    {
        TeamSize { workers: 1 }
    }

    /// The number of workers.
    pub fn workers(self) -> usize
        ensures same { result ≡ self }
        ensures some { 1 ≤ self }
        ensures most { self ≤ 64 }
    {
        self.workers
    }
}
