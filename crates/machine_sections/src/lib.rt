//! Monitors decide by the meaning of their assertion.
//!
//! Definitions and laws alone. A section follows a sequence if, begun at any tick, it accepts at a
//! tick exactly where a match ends with it, and has no position left exactly where no longer match
//! is possible. A program whose two sections follow an antecedent and a consequent decides each
//! attempt with the assertion's verdict, at the verdict's clock: that is all that a compiler has to
//! make of a sequence.
//!
//! ```text
//! runs_by_meaning();    // a contract and no code: what a program decides over rows of signals
//! ```
//!
//! The definitions: `specs/Automata.antt` (a section over the ticks of a run, and what it
//! follows), `specs/Effects.antt` (what the blocks of a section make), `specs/Monitors.antt` (a
//! clock without budget, pools and traps), `specs/Standing.antt` (what stands between clocks, as
//! a function of the verdicts), `specs/History.antt` (the rows that sample code reads, and what
//! it makes of them), `specs/Clocked.antt` (clocks after their sample code), `specs/Laws.antt`.
//! Sequences, matches and verdicts are those of `assertions`, clocks those of `machine_checked`.
//!
//! Not promised: that any section follows a sequence, or that sample code sets the atoms that it
//! should. Both are premises here.
#![tactic(auto)]

mod laws;

pub use laws::{accepts_first, decides_by_meaning, reads_held, runs_by_meaning};
