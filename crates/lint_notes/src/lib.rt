//! Notes on what a text accepts and a reader may not mean.
//!
//! ```text
//! let (turned, late) = (turned_names(alloc, bytes)?, late_signals(alloc, &dump, names)?);
//! let facts = Facts { turned: &turned, late: &late };
//! let notes = token_notes(alloc, text, &tokens, &facts)?;        // N1, N3, N5, by tokens
//! let facts = unknown_facts(alloc, &mask, &times, names)?;       // x and z at clocks
//! let notes = path_notes(alloc, text, &tokens, &facts)?;         // N2, N7: facts of paths
//! let notes = idle_notes(alloc, &heads_of(alloc, &file)?, lines)?;   // N4: never tried
//! let note = edge_note(alloc, at, "tb.clk", clocks)?;            // N5: a clock without edges
//! let notes = width_notes(alloc, &scope, &file.items)?;          // N6: plain numbers that widen
//! let notes = comment_notes(alloc, text)?;           // N9: what a carriage return doesn't end
//! ```
//!
//! A note has a number, the byte where it stands, and what is told: N1, a select of a name whose
//! declared range isn't `[n:0]`; N2, a signal that is x or z at sampled clocks; N3, a function that
//! looks back before a signal's first value; N4, an assertion that no attempt tried; N5, a clock
//! without edges, or one that may be a reset; N6, a `~` or a difference that a number
//! without a size widens; N7, a port whose width isn't the dump's; N9, a `//` comment that goes on
//! after a carriage return.
//!
//! The definitions: names, selects and brackets among tokens in `specs/Words.antt`; at which tokens
//! notes stand, and where a path is first read, in `specs/Told.antt`; which bits of a declared
//! range are meant in `specs/Ranges.antt`; signals that come late in `specs/Late.antt`; assertions
//! that were not tried in `specs/Idle.antt`; widths of ports in `specs/Ports.antt`.
//!
//! Not promised, but tested: what a message says; N6 and N9; that a dump of `unknown_bytes` has 1
//! where the dump has x or z, and the clocks that `unknown_facts` counts; which ranges a header
//! declares.
#![tactic(auto)]

mod at_tokens;
mod comments;
mod facts;
mod head;
mod idle;
mod in_items;
mod late;
mod late_told;
mod mask;
mod names;
mod note;
mod ports;
mod range;
mod range_told;
mod reset_told;
mod turned;
mod unknown;
mod widened;
mod widths;
mod words;

pub use at_tokens::{path_notes, token_notes};
pub use comments::comment_notes;
pub use facts::{Facts, Late, PathFact, Turned};
pub use head::{Head, heads_of};
pub use idle::{edge_note, idle_notes};
pub use in_items::width_notes;
pub use late::late_signals;
pub use mask::unknown_bytes;
pub use note::Note;
pub use ports::{PortSaid, port_facts};
pub use range::{Range, index_at, place_of};
pub use turned::turned_names;
pub use unknown::unknown_facts;
