//! Runs of a program: what a monitor decides over clocks, in batches, and what is reported of it.
//!
//! A program names a clock and its signals. Its rows are the values of the signals at each tick of
//! the clock. A batch names its monitor, the clocks a up to b (b is not in it), and all attempts
//! that the checked machine decides at those clocks, by clock, then start. Batches of runs of
//! clocks that meet are, joined, the batch of the longer run: so the size of windows changes
//! nothing. A program's line counts what was decided over all rows, and the attempts that failed;
//! those that are still live after the last clock are counted as open. Its report has that line.
//!
//! A batch keeps its attempts as streaks: attempts that began at clocks one after another, and came
//! to the same at the same age, are one entry. A clause sees the list of the attempts.
//!
//! There is no report where the clock (C1, C2), then a signal (C4, C5, in their order) is not as it
//! should be.
//!
//! ```text
//! let mut decided = Streaks::new(alloc);
//! decided.reserve(10)?;                 // for ten attempts in any case
//! decided.push(Decided { start: 0, verdict: Verdict::Holds(1) });
//! let next = Decided { start: 1, verdict: Verdict::Holds(2) };
//! decided.push_streak(Streak::from_first(next, 7));   // it, and six more alike
//! let batch = Batch { monitor: 0, first: 0, end: 10, decided };
//! batches_law();     // does nothing; what it ensures holds of all programs and rows
//! batches_join();    // so does this: batches that meet, joined, are the batch of all their clocks
//! ```
//!
//! The definitions: the report over the contents of a dump, and why there is none, in
//! `specs/Reported.antt`; the line of a program over rows in `specs/Lines.antt`; runs between two
//! clocks and their batch in `specs/Batches.antt`; that rows may be cut anywhere in
//! `specs/Laws.antt`; the attempts of streaks in `specs/Streaks.antt`, and what comes to the same
//! at the same age in `specs/Ages.antt`. What a program decides over rows is that of
//! `machine_checked`, in its `specs/Runs.antt`; ticks and rows are those of `cycle_window`, and
//! reports those of `report_lines`.
//!
//! Not promised: that a `Batch` that anybody makes is right (`workers_core` says which are), or
//! that a program of unknown origin means anything.
#![tactic(auto)]

mod batch;
mod laws;
mod streak;
mod streaks;

pub use batch::Batch;
pub use laws::{batches_join, batches_law};
pub use streak::Streak;
pub use streaks::Streaks;
