//! Dumps in segments: the laws by which a dump is judged that is never held whole, and two calls
//! that read it piece by piece.
//!
//! A dump's bytes come in pieces, each cut behind a separator. Between two pieces there is little:
//! the reader's place among its tokens, the number of changes so far, and the step that is open.
//! The steps are judged in segments, each of which is freed before the next is read. Between two
//! segments there is the last change of each code that is read, in a step of its own: so a segment
//! is a small dump, with clocks, columns and windows like any other.
//!
//! ```text
//! let (bytes, is_all) = read_some(alloc, &mut source, 1_000_000)?;  // so many, or the rest
//! let (piece, rest) = bytes.split_at(cut_of(&bytes));               // no token is cut
//! ```
//!
//! The laws are calls that do nothing; each has its theorems in its contract:
//!
//! - `cut_law`, `begin_law`, `move_law`: what the first pieces say of header and body holds
//!   whatever follows, and a piece says the same wherever it is. The theorems: `specs/Laws.antt`
//!   (its second half), `specs/Beginnings.antt` and `specs/Shifts.antt`, over `specs/Pieces.antt`.
//! - `chunk_law`, `read_law`: a dump that is read piece by piece, each as a body of its own, is the
//!   dump of all its bytes, or has the fault of the first piece that has one (`specs/Chunks.antt`,
//!   `specs/Reads.antt`).
//! - `steps_law`, `rows_law`: steps and the rows at a clock's ticks come in order
//!   (`specs/Steps.antt`, `specs/Rows.antt`).
//! - `join_law`, `kept_law`, `telling_law`: the rows of a dump are those of its segments; changes
//!   of codes that nobody reads, and steps without others, change no row (`specs/Segments.antt`).
//!
//! Not promised: that memory suffices, that a cut is between two items, or how large a piece is. No
//! program calls any of it yet.
#![tactic(auto)]

mod input;
mod laws;

pub use input::{InputFault, cut_of, read_some};
pub use laws::{
    begin_law, chunk_law, cut_law, join_law, kept_law, move_law, read_law, rows_law, steps_law,
    telling_law,
};
