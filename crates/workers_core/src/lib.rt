//! The core: monitors at work, step by step; and the lines of a job, by a core of one worker.
//!
//! A job has verified programs, the dump that they run over, and the ticks of one clock. A core has
//! a window over the trace, a monitor for each program, the list of those that wait, each worker's
//! hand and done list, and the board of published batches. Its steps are the atomic actions of
//! workers: claim the front monitor, advance it, publish its batch; and those that open a round
//! (the next window) and end it (done lists back to waiting). Each answers `Done` where the state
//! is the next one, `Refused` where there is no next one, and `Memory` where there is one; with the
//! last two nothing changed. A step that advances makes its room first, and takes no memory after.
//!
//! ```text
//! let job = Job::new(alloc, programs, dump, "top.clk")?;
//! let mut core = Core::new(alloc, &job, 1, 1024)?;
//! core.step(alloc, Step::Slide);            // Done: the next window
//! core.step(alloc, Step::Claim(0));         // Done: the front monitor is in the worker's hand
//! core.step(alloc, Step::Advance(0, 10));   // Done, or Refused where fewer clocks are left
//! core.step(alloc, Step::Publish(0));       // Done at the window's end
//! core.step(alloc, Step::Gather);           // Done once nothing waits and all hands are empty
//! let lines = job_lines(alloc, &job, size)?;    // by rounds: a line for each program
//! ```
//!
//! The definitions: `specs/Jobs.antt` and `specs/Wanted.antt` (what a job holds, and why there is
//! none), `specs/States.antt` (states, and the next one of each step), `specs/Values.antt` (a core
//! to its users, and why there is none), `specs/Cores.antt` (how it begins), and
//! `specs/Following.antt` (what every core has: each monitor in the checked machine's state over
//! the trace's first rows, and each batch that of its monitor for its clocks). Below them are
//! `specs/Standing.antt` and `specs/Parts.antt`. The lines of a job stand in `specs/Lines.antt`, a
//! core between two rounds in `specs/Rounds.antt`. Batches, and the line of a program, are those of
//! `machine_batches`, the checked machine that of `machine_checked`.
//!
//! Not promised: that any monitor is ever claimed, or that a foreign program means anything.
#![tactic(auto)]

mod bad_job;
mod conditions;
mod core_parts;
mod core_rounds;
mod cores;
mod growing_line;
mod job;
mod job_check;
mod job_fault;
mod lines;
mod monitor;
mod opening;
mod order;
mod program_signals;
mod published_lines;
mod run_fault;
mod step;
mod team_size;
mod worker;

pub use bad_job::BadJob;
pub use cores::Core;
pub use growing_line::GrowingLine;
pub use job::Job;
pub use job_fault::JobFault;
pub use lines::job_lines;
pub use monitor::Monitor;
pub use opening::{monitors_of, window_of};
pub use run_fault::RunFault;
pub use step::{Reply, Step};
pub use team_size::{BadTeam, TeamSize};
