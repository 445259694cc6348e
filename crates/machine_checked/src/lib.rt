//! The checked machine: what a clock of a program is, with every test that a run could fail.
//!
//! The definitions alone. A clock pushes its row, runs the sample code, opens an attempt, visits
//! what is live, opens an obligation where an attempt accepted, visits the obligations and settles
//! the attempts; each instruction, visit and settling costs one. It comes to the next state
//! with the attempts that it decided, or to a trap: a bad operand, a jump outside its code, a
//! sample past its history, a full pool, or a cost over its budget.
//!
//! ```text
//! never_traps();    // a contract and no code: what a verified program never meets
//! ```
//!
//! The definitions: `specs/Machine.antt` (a clock, clocks), `specs/Runs.antt` (clocks with all that
//! they decide), `specs/Samples.antt` (sample code),
//! `specs/Blocks.antt` (a visit), `specs/Clocks.antt` (what follows the sample code),
//! `specs/Outcomes.antt` (traps), `specs/Bounds.antt` (what stands between clocks),
//! `specs/Laws.antt`, `specs/Worked.antt` (a run by hand).
//! An attempt keeps a mask of all ticks at which it accepted, which is never cleared, since a clock
//! can keep that in one number: it awaits the obligation of such a tick while that is live. By a
//! law this is a matter of form: `specs/OpenTicks.antt` has a clock over attempts that list their
//! open awaited ticks and tell whether they ever accepted, and the theorem that the two agree.
//!
//! Not promised: anything of a machine in code, which is a crate of its own above this one.
#![tactic(auto)]

mod laws;

pub use laws::{never_traps, open_ticks_law, worked_first_run, worked_run};
