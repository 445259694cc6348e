//! Tests of `workers`: reports of files of bytecode over dumps, worked out by hand.
//!
//! A file of bytecode stands here as it is spelled, byte by byte, and a dump as its text; a report
//! is the lines that `svamon run` writes of the two. The verdicts of three ticks, and of a program
//! whose attempts take two, were worked out on paper from what implications mean.
//!
//! ```text
//! let report = told(&rt, BROKEN, OVERLAPPED, 4, 1024)?;    // dump, file, workers, window
//! assert!(rt; report.as_str() == "svamon 1\nclocks 1\nmonitor r holds 0 ..");
//! ```
//!
//! `rt test` in this crate proves the tests and runs them; `src/answers.rt` makes lines of reports
//! and faults. The definitions that the contract of a run cites stand in `workers`, in `specs/`.
//!
//! Not promised: that these are all reports that matter. More, by other means, are in the tables of
//! the programs `answers_reports` and `answers_bytecode`; this crate has no public functions.
#![tactic(auto)]

#[cfg(test)]
mod answers;
#[cfg(test)]
mod boards;
#[cfg(test)]
mod claims;
#[cfg(test)]
mod gates;
#[cfg(test)]
mod job;
#[cfg(test)]
mod long;
#[cfg(test)]
mod streaks;
#[cfg(test)]
mod tests;
