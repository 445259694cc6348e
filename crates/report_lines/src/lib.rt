//! Reports: what became of each attempt, and the text that says it.
//!
//! A line has an assertion's name, how many of its attempts came to each verdict, and those that
//! failed: where each began and the clock at which it failed, by clock, then start. It is made from
//! the verdicts, one for each attempt, by start. A report has the number of clocks, a line for each
//! assertion, and the sums of their counts, each held at 2^64 - 1.
//!
//! ```text
//! let line = Line::new(alloc, name, verdicts.as_slice())?;
//! let report = Report::new(clocks, lines);
//! write_report(alloc, &report, &mut out)?;
//! ```
//!
//! Each line of the text ends with a line feed:
//!
//! ```text
//! svamon 1
//! clocks 4
//! monitor first holds 0 vacuous 1 fails 2 disabled 0 open 1
//! fail first start 1 clock 2
//! fail first start 0 clock 3
//! total holds 0 vacuous 1 fails 2 disabled 0 open 1
//! ```
//!
//! The text is made before the first byte of it is written, so where memory is refused nothing was
//! written. Where the device fails (G1), it holds a beginning of the text after what it held.
//!
//! The definitions: what verdicts come to in `specs/Tallies.antt`; what lines and a report say in
//! `specs/Lines.antt`, their sums in `specs/Totals.antt`, and what those in memory say in
//! `specs/Shown.antt`; the text in `specs/Texts.antt`; why it was not written in
//! `specs/Written.antt`. Verdicts and devices are those of `signals`.
//!
//! Not promised: that memory suffices, or that a line which `Line::new` didn't make counts any
//! verdicts. A name is written as it is, whatever bytes it has.
#![tactic(auto)]

mod failures;
mod line;
mod report;
mod text;
mod write;

pub use line::{Counts, Failure, Line};
pub use report::Report;
pub use write::{ReportFault, write_report};
