//! Verdicts of a run: batches of them, the board on which they are published, the tally that counts
//! them, and the report that says what became of each attempt.
//!
//! On the board batches are published, with no lock; it only grows. Who publishes a batch gets a
//! receipt, by which that batch is read, on any thread, for as long as the board lasts. A tally has
//! the totals of all workers under a lock: verdicts that hold, are vacuous, fail, and are disabled.
//! Each worker has a share, which says what it added. Batches are those of `machine_batches`;
//! reports, their lines and their text those of `report_lines`. Both can be imported from here.
//!
//! ```text
//! let board = Board::new(alloc)?;
//! let receipt = board.publish(&rt, batch)?;      // or the batch, where memory was refused
//! let batch = board.read(&receipt);
//! let totals = tally.add(&rt, &mut share, &batch);
//! let totals = tally.total(&rt, shares);
//! write_report(alloc, &report, &mut out)?;
//! ```
//!
//! `Tally::<L>`: `L` names the tally. A function with that parameter is called with `Brand`, and
//! its proof says which four ledgers the names are (`run` of `workers`).
//!
//! The definitions: receipts in `specs/Receipts.antt`, the counts of a batch in
//! `specs/Counts.antt`, shares in `specs/Shares.antt`, the ledgers of a new tally in
//! `specs/Blanks.antt`.
//!
//! Not promised: in which order workers publish and add, and that a call returns.
#![tactic(auto)]

mod board;
mod counts;
mod tally;

pub use board::{Board, Receipt};
pub use machine_batches::{Batch, Streak, Streaks};
pub use report_lines::{Counts, Failure, Line, Report, ReportFault, write_report};
pub use tally::{Blanks, Share, Tally, Tallying};
