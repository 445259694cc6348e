//! The failed attempts of a report, explained: which are asked for, why each failed, and sheets of
//! the values that it read, as text.
//!
//! ```text
//! let wanted = Wanted { only: Some("granted"), start: None, most: 1 };
//! let judged = Judged { suite: &suite, rows: &rows, counters: &counter_names };
//! let explanations = explain(alloc, &judged, report.lines.as_slice(), &wanted)?;
//! let told = told_of(alloc, lines, explanations.as_slice(), &standings)?;
//! let text = explained_text(alloc, &from, told.as_slice())?;
//! ```
//!
//! The lines are those of a report on the suite over these rows. Of each assertion that is asked
//! for, the failed attempts are taken in the report's order: those that began at a clock, or all,
//! and at most so many. Each has its cause, which is why it failed by the definition of a failure,
//! and its sheet. A sheet has the clocks from as many before the attempt's first as the booleans
//! look back up to that of the decision, but not all between the first eight and the last eight; a
//! row for each signal and counter that the assertion reads, and one for each of its booleans, with
//! a cell for each clock.
//!
//! The definitions: which attempts are asked for, in `specs/Chosen.antt`; what an explanation says,
//! in `specs/Explained.antt`; what a sheet shows, in `specs/Shown.antt`; at which clocks a boolean
//! is shown, in `specs/Asked.antt`; the text of a boolean, in `specs/ExpressionText.antt`; what
//! stands between an assertion's sides, in `specs/Arrows.antt`; what is told of it, in
//! `specs/Told.antt`; and as text, in `specs/ExplainedText.antt` and `specs/SheetText.antt`. Lines
//! are those of `report_suites`, causes those of `judging`, values those of `expressions`.
//!
//! Not promised, but tested: how wide the columns of a sheet are, where a dash or a heading stands,
//! and the digits of a value of over 64 bits.
#![tactic(auto)]

mod arrow;
mod asked;
mod cells;
mod choices;
mod columns;
mod explanation;
mod expression_text;
mod failed_attempt;
mod interval;
mod reach;
mod selection;
mod sheet;
mod sheet_text;
mod text;
mod values;

pub use arrow::Arrow;
pub use cells::RowSource;
pub use choices::Choice;
pub use explanation::{Explanation, Judged, Reason, explain};
pub use failed_attempt::{FailedAttempt, Standing, told_of};
pub use selection::Wanted;
pub use sheet::{Sheet, SheetRow};
pub use sheet_text::is_gap;
pub use text::{explained_text, push_ends};
pub use values::value_text;
