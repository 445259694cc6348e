//! Laws of workers: the headline of svamon, and what a round by several workers is.
//!
//! A core has a job's monitors and the board of published batches (`workers_core`). Whatever list
//! of steps was made, allowed or not: each monitor is in the state of the checked machine over the
//! trace's first rows up to its place, so it met no bad operand, no jump outside its code, no
//! sample past its history and no full pool, and spent per clock at most its declared budget; each
//! batch on the board is what its program decides at the batch's clocks; and where the program is
//! that of an assertion, as the compiler makes it, the batch has each verdict of the assertion that
//! falls at one of these clocks, at its clock and by start, and no other. After the last clock, the
//! attempts that are live are those whose verdict is open.
//!
//! A round is a list of the core's steps, from `Slide` to `Gather`, whichever workers run the
//! monitors: after `Slide` each owner in turn takes `Claim`, `Advance` by all clocks of the window,
//! and `Publish`. After it each monitor stands at the window's end, and the board has one batch
//! more of each, in source order. Before `Gather` each worker's done list is what it owns. "Each
//! once" is said by weights: whatever each number weighs, the lists weigh together what the
//! monitors do. What the calls of a round by threads ensure makes that round such a list of steps:
//! its done lists are what each worker ran, its monitors and batches those of the threads.
//!
//! ```text
//! let mut core = Core::new(alloc, &job, workers, 1024)?;
//! core.step(alloc, step);       // any steps
//! headline(&core);              // a contract and no code
//! round_law();                  // from a state of rest the steps of a round lead to the next one
//! thread_round_law();           // and so does a round by threads
//! ```
//!
//! The definitions: `specs/Headline.antt` (the sentence), `specs/Steps.antt`, `specs/Rounds.antt`,
//! `specs/Owners.antt` (rounds), `specs/RoundTheorems.antt`, `specs/ThreadRounds.antt` (rounds by
//! threads, by the clauses of `workers`); `workers_core/specs/Following.antt`
//! (what follows the checked machine) and `States.antt` (steps), `compiler/specs/Programs.antt`,
//! `assertions/specs/Attempts.antt` (verdicts), `cycle_window/specs/Ticks.antt` (ticks and rows).
//!
//! Not promised: that any monitor is ever claimed, or what a foreign program means.
#![tactic(auto)]

mod headline_law;
mod round_laws;

pub use headline_law::headline;
pub use round_laws::{opening_law, owned_law, owners_law, round_law, thread_round_law};
