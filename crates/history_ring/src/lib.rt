//! The ring of the last rows: a machine's history.
//!
//! A ring keeps so many rows of values after the newest, and is never empty: before the first push
//! all its rows are zeros. It takes its memory when it is made, in one block, and no call moves a
//! row.
//!
//! ```text
//! let mut ring = Ring::new(alloc, 2, 8)?;    // the newest row and two before it, 8 values each
//! ring.push(&row);
//! let oldest = ring.get(2, 7);
//! ```
//!
//! The definitions: what a ring is to its users in `specs/History.antt`, how its rows lie in
//! `specs/Turned.antt`, how one is written in `specs/Held.antt`. The block is that of `raw_places`.
//!
//! Not promised: that memory suffices. That a call but the maker takes none, and makes no test, is
//! seen by reading.
#![tactic(auto)]

mod ring;
mod store;

pub use ring::{Ring, last_rows_law};
