//! What a dump declares, as a table: the call behind the command `names`.
//!
//! ```text
//! let filter = Filter { matching: None, scope: Some("top.u") };
//! let told = names_one(alloc, &mut dump, &filter, &mut out)?;    // how many variables
//! ```
//!
//! It writes a line for each variable, in the header's order: its path, its width in bits, the
//! declared range, its kind, and where no rule can name it, why not.
//!
//! ```text
//! top.clk      1          wire
//! top.u.addr  32  [31:0]  wire
//! top.u.gain  64          real  not in a rule: a real
//! ```
//!
//! A column is as wide as its widest text, but no wider than 60 bytes for paths and 16 for ranges
//! and kinds; longer ones push their line to the right. No text holds a space, a tab or a line end.
//!
//! Where it fails, it names a fault of the dump that is there, or want of memory, and nothing was
//! written; or G1: the sink failed, and holds a beginning of the table.
//!
//! The definitions: `specs/Notes.antt` (why no rule names a variable), `specs/Spelled.antt` (which
//! paths a rule can spell), `specs/Filters.antt` (which variables are asked for), `specs/Rows.antt`
//! (what is told of each), `specs/Tables.antt` (the text), `specs/Told.antt` (what `names_one`
//! comes to, and why it fails). What a header declares is said by `vcd_declarations`, which path
//! names what by `vcd_reader`, and what words are by `lexer` and `parser_grammar`. By `note_law` a
//! variable has no note exactly where a rule can spell its path and the path names it.
//!
//! Not promised: that a text which declares a sequence or a counter of a path's one word reads the
//! variable, and that programs hold paths of over 65,535 bytes.
#![tactic(auto)]

mod column;
mod fault;
mod filter;
mod held;
mod laws;
mod names;
mod note;
mod rows;
mod spelled;
mod table;

pub use fault::NamesFault;
pub use filter::Filter;
pub use laws::note_law;
pub use names::names_one;
pub use note::Note;
pub use rows::{Row, Told, told_in};
