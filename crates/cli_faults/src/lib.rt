//! What the commands come to: a fault, its line and its status; a report that is written, and its
//! totals.
//!
//! ```text
//! let line = fault_line(alloc, &fault)?;  // `svamon: V3 TimeBack 7`
//! let number = status(&outcome);          // what a shell sees
//! let five = written(alloc, &report, &mut out)?;  // holds, vacuous, fails, disabled, open
//! ```
//!
//! Each layer below has faults of its own. `Fault` is one of them, or one that only a command has,
//! and a `?` makes it of theirs; want of memory is one fault, wherever it came up.
//!
//! The definitions: the faults of the layers as one, `specs/Faults.antt`; statuses,
//! `specs/Statuses.antt`; what a run was given and what it left, `specs/Runs.antt`; what bytes are
//! as a program, and why they are none that may run, `specs/Codes.antt`.
//!
//! Not promised: the lines of faults, which tests show.
#![tactic(auto)]

mod fault;
mod lines;
mod report_totals;
mod statuses;
mod words;
mod writing;

pub use fault::{BadFile, Fault};
pub use lines::{fault_help, fault_line};
pub use statuses::status;
pub use writing::written;
