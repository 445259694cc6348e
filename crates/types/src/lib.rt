//! Names, widths and types of a text: the suite that it says, or the first fault in it.
//!
//! `check` takes the tree of a text's items and anything that tells the widths of paths
//! (`PathWidths`), as a dump or a list (`Names`), which it asks for the paths of the text alone. A
//! text in which no fault stands has a suite: the path of its clock, the signals that it reads, its
//! counters, its typed expressions and its assertions, with named sequences written out. Any other
//! is refused with its first fault, by kind, in the order Y1, Y2, Y3, Y4, Y7, Y8, Y9, Y5, Y6, then
//! by the byte where it stands.
//!
//! ```text
//! let tokens = lex(alloc, text)?;
//! let file = parse(alloc, tokens.as_slice())?;
//! let names = Names::of(alloc, &[("top.clk", 1), ("top.v", 8)])?;
//! let suite = check(alloc, &file, &names)?;    // or TypeFault::UnknownName(31), ..
//! ```
//!
//! `TypeFault` says what each kind is, and which byte is told. Want of memory is a fault, too, and
//! says nothing of the text. Named sequences and counters that nothing uses are looked at, but for
//! Y9, Y5 and Y6, which are of antecedents and consequents.
//!
//! The definitions: which faults stand in a text, and which is the first, in `specs/Faults.antt`
//! (`IsFaultless`, `IsTypeFault`); the suite that a text says in `specs/Suites.antt` (`IsSuite`),
//! and of a sequence in `specs/Readings.antt`. Named sequences are drafts (`specs/Drafts.antt`),
//! which reach themselves (`specs/Cycles.antt`) or have an entry: what they weigh and match with
//! names written out (`specs/Entries.antt`). Scopes and the faults of expressions are those of
//! `types_names`, weights and matches those of `assertions`. `laws_one_report` has the law
//! that suites of one text mean the same.
//!
//! Not promised: that the clock's path is among the dump's, how the expressions of a suite are laid
//! out, or that memory suffices.
#![tactic(auto)]

mod bodies;
mod bytes;
mod clocks;
mod counters;
mod cycles;
mod cyclic;
mod declared;
mod draft;
mod drafted_assertion;
mod drafts;
mod entry;
mod facts;
mod fault;
mod implication;
mod label;
mod make;
mod names;
mod places;
mod resolved;
mod side;
mod sides;
mod stages;
mod suite;
mod suite_signals;
mod table;
mod typed_assertions;

pub use assertions::{Assertion, Suite};
pub use fault::TypeFault;
pub use suite::check;
pub use types_names::{Names, PathWidths, Width, path_string};
