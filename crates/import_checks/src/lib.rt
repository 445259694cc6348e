//! Whether a property is what a part of an opened assertion means (IEEE 1800-2017, 16.7, 16.9 and
//! 16.12).
//!
//! ```text
//! let property = ..;                              // made of `parts`, whose part is `body`
//! if is_meaning(&parts, Some(60), body, &property) { .. }
//! ```
//!
//! `import_lowering` makes properties, with what it knows of local variables and with all that it
//! writes otherwise. Here it is asked of each property that was made whether it is right: part by
//! part, which operator of properties a keyword stands for, on which parts, with which counts, over
//! which booleans. A boolean of the property is a value of the opening; where booleans were joined,
//! it is the value that was added, which says so by its operator.
//!
//! The definitions, by cases on how a part was written, each with its section of the standard:
//! values and where they are true in `specs/Values.antt`; counts and open ends in
//! `specs/Counts.antt`; parts that are one boolean in `specs/Booleans.antt`; sequences in
//! `specs/Sequences.antt`; lengths in `specs/Lengths.antt`, of which `lengths_law` says that
//! matches have them; properties in `specs/Properties.antt`; all of it in `specs/Meanings.antt`.
//!
//! A property may be split in two: `mean_together` says whether two properties are together what a
//! part means. Which parts are halves of one is in `specs/Halves.antt`, and `halves_law` says that
//! what is asked of both is asked of each.
//!
//! Not promised: that the answer is yes where a property is the part's meaning (forms may lie more
//! than `MOST_DEPTH` deep, and local variables and `.triggered` are not followed); what a value is
//! beside what its operator says.
#![tactic(auto)]

mod around;
mod booleans;
mod cases;
mod counts;
mod firsts;
mod forms;
mod found;
mod halves;
mod joint;
mod laws;
mod lengths;
mod meanings;
mod pairs;
mod places;
mod properties;
mod rest;
mod sequences;
mod truths;

pub use around::Around;
pub use booleans::MOST_DEPTH;
pub use joint::Joint;
pub use laws::{halves_law, lengths_law};
pub use meanings::{is_meaning, mean_together};
pub use pairs::Pair;
pub use rest::Rest;
