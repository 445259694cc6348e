//! Tests of parts, each by itself: of a machine `history_ring`, `attempt_pool` and
//! `machine_sample_code`; of what reads dumps and writes reports `signals`, `vcd_reader`,
//! `cycle_window` and `report_lines`.
//!
//! A ring keeps the last rows of a monitor: the tests look back each number of pushes at each slot,
//! beside a plain list of all rows that were pushed. A pool holds the attempts that are not
//! decided: walks over its records, as `count_down`, which retires some and sets the others, are
//! proved against its contract, and tests stand beside a plain list. Sample code is run over three
//! rows, each instruction at an edge, with values that were worked out by hand.
//!
//! A device is a `Source` or a `Sink`. One that fails after so many bytes is `CutReader` or
//! `CutWriter`, and `Counted` counts the calls that failed, so that a fault is seen to come from
//! the device and not from what reads it. `SlowWriter` keeps bytes back until it is flushed.
//!
//! ```text
//! let mut pool = Pool::new(rt.alloc(), 4)?;
//! fill(&mut pool, 2);                          // four records of 2
//! count_down(&mut pool);                       // each is 1 now
//! let mut sink = Counted::new(CutWriter::new(rt.alloc(), 7)?);     // fails at its 8th byte
//! assert!(rt; write_all(&mut sink, b"seventeen letters") == Err(WriteFailed));
//! ```
//!
//! `rt test` in this crate proves the tests and runs them. The definition: what `count_down` makes
//! of the records in `specs/Counted.antt`. What the parts promise stands in their own `specs/`.
//!
//! Not promised: `holds` has no contract, since it is of tests alone; nor that each fault of a dump
//! occurs here.
#![tactic(auto)]

#[cfg(test)]
mod devices;
#[cfg(test)]
mod dumps;
#[cfg(test)]
mod instructions;
#[cfg(test)]
mod outcome;
#[cfg(test)]
mod pools;
#[cfg(test)]
mod reports;
#[cfg(test)]
mod rings;
mod slow_writer;
mod threads;
mod walks;

pub use slow_writer::SlowWriter;
pub use threads::moved_pool;
pub use walks::{count_down, fill, holds, nth};
