//! The verdict on an attempt, straight from the definition: the measure of all faster ways.
//!
//! `judge` takes an assertion, its suite, rows of the suite's signals with what its counters count
//! over them, and the tick at which the attempt begins. It answers the verdict that the definition
//! gives over all the rows, and refuses nothing but for want of memory. The tick is that of a row.
//!
//! ```text
//! let rows = count(alloc, signals, suite.counters.as_slice())?;
//! let verdict = judge(alloc, &assertion, &suite, &rows, 0)?;   // Holds(3), Fails(2), Open, ..
//! let cause = cause_of(alloc, &assertion, &suite, &rows, 0, 3)?;   // of Fails(2): which end broke
//! ```
//!
//! It goes on tick by tick, from the attempt's first. At each it takes the values of the
//! assertion's booleans, and works out from all that were seen whether the attempt is decided, by
//! tables that say which places each part of a sequence reaches from which. The first decision ends
//! it, or the last row does. Then it looks for the first of these ticks at which the disabling
//! boolean was true. So each boolean is evaluated at most once at each tick, and at none after the
//! one that decides. `cause_of` says of an attempt that failed with which ticks its antecedent
//! ended by then, and which of these is the first whose obligation is broken.
//!
//! The definitions: the verdict is that of `assertions`, in its `specs/Attempts.antt`, and over
//! rows in its `specs/Verdicts.antt`; rows and counts are those of `expressions`, in its
//! `specs/Rows.antt`. What the tables hold stands in `specs/Tables.antt`, and what an attempt sees
//! of rows and how that decides it in `specs/Courses.antt`. A cause is in `specs/Causes.antt`.
//!
//! Not promised: that memory suffices, or that it is fast. The tables are made anew at each tick.
#![tactic(auto)]

mod cause;
mod course;
mod decision;
mod ends;
mod extent;
mod outlook;
mod relation;
mod row;
mod seen;
mod sides;
mod table;
mod verdict;

pub use cause::{Cause, cause_of};
pub use expressions::Rows;
pub use extent::takes_ticks;
pub use verdict::judge;
