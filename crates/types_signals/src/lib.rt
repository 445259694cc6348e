//! What the expressions of a text name: the signals that it reads, its scope over the paths that
//! there are, and the faults of its expressions, kind by kind.
//!
//! `columns_of` lists the signals that the items read, each once, in the order of the text; a
//! path's place there is its column. A clock's path is not among them, unless it is read as a
//! signal too. `scope_for` makes the scope of a text over anything that tells the widths of paths:
//! it asks for those that the text reads, each once, and lists no others.
//!
//! `first_fault` gives the least byte at which a fault of one kind stands in the items, clocks'
//! paths left out: a path that stands for nothing that an expression can read (Y1), a concatenation
//! of more than 128 bits (Y3), or a select of bits that its name doesn't have (Y4). The name of a
//! named sequence is no fault where it stands as a boolean of a sequence. `earlier` gives the lower
//! of two such bytes.
//!
//! ```text
//! let scope = scope_for(alloc, &names, items)?;         // names: a list, a dump, ..
//! let columns = columns_of(alloc, &scope, items)?;
//! let unknown = first_fault(alloc, &scope, Sought::Unknown, items)?;    // a byte, or None
//! ```
//!
//! The definitions stand in `types_names`: the signals that are read in `specs/Columns.antt`, what
//! a text asks for in `specs/Asked.antt`, where faults stand in `specs/Faults.antt`, own widths
//! (IEEE 1800-2017, 11.6.1) in `specs/Width.antt`, what paths stand for in `specs/Scopes.antt`.
//!
//! Not promised: which of several faults at one byte is meant, which the kind tells; that memory
//! suffices. A width is asked for once, so what is told later may differ from what the scope has
//! only where the teller changes, which its `&` rules out.
#![tactic(auto)]

mod asked;
mod columns;
mod expression;
mod fault;
mod laws;
mod least;
mod listing;
mod sequence;

pub use asked::scope_for;
pub use columns::columns_of;
pub use fault::first_fault;
pub use laws::asked_law;
pub use least::earlier;
