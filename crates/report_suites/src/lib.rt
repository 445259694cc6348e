//! The report on a suite of assertions over a dump, by the slow judge.
//!
//! ```text
//! let report = report_by_judge(alloc, &dump, &suite, 1024)?;  // or why its clock is none
//! ```
//!
//! It has a line for each assertion, with the verdicts of the definition on the attempts at all
//! ticks, over the rows of the signals at the ticks of the clock and what the suite's counters
//! count over these. A report by programs comes to the same, by its own contract
//! (`report_programs`).
//!
//! The definitions: which variables a suite's paths name, `specs/Named.antt`; the verdicts and
//! lines of assertions over rows, `specs/Judged.antt`; the report, `specs/Reported.antt`.
//!
//! Not promised: that memory suffices.
#![tactic(auto)]

mod lines;
mod report;
mod rows;
mod sampled;

pub use report::report_by_judge;
pub use rows::suite_rows;
