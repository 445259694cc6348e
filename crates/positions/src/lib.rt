//! Sections from sequences: the positions of an antecedent or of a consequent, as code.
//!
//! ```text
//! // `a ##1 b`, where a and b are the first and the second of the assertion's list
//! let a = Box::new(alloc, Sequence::Boolean(Boolean::Listed(0)))?;
//! let b = Box::new(alloc, Sequence::Boolean(Boolean::Listed(1)))?;
//! let sequence = Sequence::Delay(a, 1, 1, b);
//! let section = positions_of(alloc, &sequence)?;
//! // position 0: where atom 0 is 1, enter position 1; position 1: where atom 1 is 1, accept
//! ```
//!
//! A position stands for what an attempt waits for at a tick. It has edges: where each atom that an
//! edge wants is 1, it enters other positions for the next tick, and accepts or not. A table of
//! positions is made form by form of the sequence (`table_of`), those positions are kept that
//! something leads to and that may still come to an end (`sift`), and each of these is written down
//! as one block (`blocks_for`). A table may make up 65,535 instructions, and a section has at most
//! 4,096: `positions_of` answers `TooLong` only where there would be more, and `Memory` where
//! memory ran out.
//!
//! The definitions: `specs/Plans.antt` (what positions are made from), `specs/States.antt` (what
//! the positions of a plan mean), `specs/Tables.antt` and `specs/Rows.antt` (tables),
//! `specs/Living.antt` (what is kept), `specs/Sections.antt` (their code), `specs/Sequences.antt`
//! (the atoms), `specs/Laws.antt` (that the section follows the sequence: it accepts exactly where
//! a match ends, and no position is left exactly where no longer match is possible; that it is well
//! formed; that it is small).
//!
//! Not promised: the fewest positions or instructions; how long the section of a sequence is that
//! has `and`, `intersect`, or a delay between two parts that may be 0.
#![tactic(auto)]

mod alternatives;
mod block;
mod change;
mod conjunction;
mod delay;
mod draft;
mod edge;
mod extent;
mod fault;
mod first;
mod laws;
mod lead;
mod link;
mod list;
mod living;
mod pair;
mod pairing;
mod reach;
mod repeat;
mod section;
mod sequence;
mod sift;
mod table;

pub use bytecode_programs::Section;
pub use fault::SectionFault;
pub use first::accepting_first;
pub use laws::{first_law, section_law, size_law};
pub use section::positions_of;
