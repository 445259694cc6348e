//! All notes on a text over a dump: on what is accepted, and a reader may not mean.
//!
//! ```text
//! let selects = Selects::Written;                      // and not converted by the import
//! let beside = Beside { bytes, ports: &ports, selects };   // the dump's bytes, the ports
//! let told = told_notes(alloc, dump, rest, &beside, true)?;   // each with its byte, in order
//! ```
//!
//! What notes there are, and of which facts, is said by `lint_notes`; here the facts are gathered,
//! from the dump, its bytes and the report on the text, and each note is told as `note N1 ..`. Of
//! a text that is not accepted there are none. Of one that is a rest of a text, N4 is left out,
//! since it needs a report on all assertions. Of one whose selects were converted by the declared
//! ranges, N1 is left out.
//!
//! - `src/read.rt`: what is read off the text: N1, N3, N5 (a clock that is a reset), N6, N7, N9.
//! - `src/clocked.rt`: what stands at the clocks: N2, N5 (a clock without edges).
//! - `src/judged.rt`: what the report says: N4; and N8, where `check` takes fewer assertions.
//!
//! The definitions: those of `lint_notes`. `told_notes` promises the order of the places.
//!
//! Not promised, but tested from outside (`scripts/tools/outside`): that each note is told.
#![tactic(auto)]

mod accepted;
mod clocked;
mod judged;
mod notes;
mod read;

pub use accepted::{Beside, Selects};
pub use notes::told_notes;
