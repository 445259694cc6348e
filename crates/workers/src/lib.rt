//! The report of a job, by 1 to 64 workers, and the report of one program.
//!
//! The trace is run window by window, in rounds. All monitors are put on a bench; each worker, the
//! first in the calling thread and each other in a thread of its own, claims one, runs it through
//! the window, publishes its batch on the round's board, and adds what it counts to the tally,
//! until the bench is empty. No lock is held from a claim to its publication. Meanwhile the calling
//! thread fills the window of the round after. What the batches count is taken into the lines in
//! the making, and the batches are let go with the board: what is kept is counts and failures.
//! After the last clock the attempts that are still live are open. The totals of the last line are
//! those of the workers' tally.
//!
//! ```text
//! let job = Job::new(alloc, programs, dump, "top.clk")?;
//! let report = run(&rt, alloc, &job, 4, 1024, &gate)?;
//! let_go(&rt, job);                       // its memory, in a thread that nobody waits for
//! // or, of one program:
//! let (team, size) = (TeamSize::new(4)?, WindowSize::new(1024)?);
//! let report = report_run(&rt, alloc, dump, verified, team, size, &gate)?;
//! ```
//!
//! The faults of `run` are C3 of the window's size, then U1 of the number of workers, then U2 where
//! memory was refused. Those of `report_run` are C1 and C2 of the clock, then C4 and C5 of the
//! signals in their order, and want of memory.
//!
//! The definitions: the report of a job over the contents of its dump in `specs/Reports.antt`, a
//! run between two rounds in `specs/Between.antt`, what workers and lines count in
//! `specs/Tallied.antt`; what one worker's round gives back in `specs/Works.antt`, the workers of a
//! round in `specs/Crews.antt`, a whole round in `specs/Runs.antt`. The report of a program is that
//! of `machine_batches`. That a round is a list of steps of the core is a law of `laws_headline`.
//!
//! Not promised: that the call returns, that two workers were at work at once, who ran which
//! monitor, when the memory of a job that was let go is back, and that memory suffices.
#![tactic(auto)]

pub mod beside;
pub mod crew;
mod fan_out;
mod filling;
mod letting_go;
mod lines;
mod opening;
mod order;
mod passage;
mod report;
pub mod round;
mod round_batches;
mod rounds_run;
mod runs;
mod totals;
pub mod worker;

pub use letting_go::let_go;
pub use opening::first_monitors;
pub use report::report_run;
pub use runs::{job_report, run};
pub use worker::{Gate, NoGate, Worked, work};
pub use workers_bench::{Bench, Hand, Numbered, Pass};
pub use workers_core::{
    BadJob, BadTeam, Core, Job, JobFault, Monitor, Reply, RunFault, Step, TeamSize,
};
