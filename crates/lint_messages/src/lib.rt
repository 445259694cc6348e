//! What is told of each fault of a text over a dump: its code, and what to do.
//!
//! ```text
//! let names = names_of(alloc, &dump, text)?;           // what names of the text may mean
//! let unnamed = unnamed_in(alloc, bytes)?;             // what no rule can name, and why
//! let turned = turned_names(alloc, bytes)?;            // of lint_notes: other ranges than [n:0]
//! let (unnamed, turned) = (unnamed.as_slice(), turned.as_slice());
//! let meant = Meant { dump: &dump, names: &names, unnamed, turned, knows_ranges: true, origin };
//! let refusal = lex_refusal(alloc, text, fault)?;      // L: no tokens
//! let refusal = parse_refusal(alloc, text, fault)?;    // P: the tokens spell no items
//! let refusal = type_refusal(alloc, &meant, text, &file, fault)?;  // Y: a fault of types
//! let refusal = clock_refusal(alloc, &meant, text, &file, clock)?; // C: the clock is none
//! let refusal = program_refusal(alloc, at, fault)?;    // K: an assertion has no program
//! ```
//!
//! A message begins with the fault's code and its name. What may be meant by a name that is not
//! known, and where it is not, stands in `src/paths.rt`; why a real or an event can't be named in
//! `src/unnamed.rt`; what could stand where a token can't go on in `src/expected.rt`, and what to
//! write there in `src/token_hints.rt`, by an item's first word in `src/item_words.rt`, and for
//! words of the language in `diagnostics`; what a side weighs in `src/weights.rt`; where the first
//! of two equal names stands in `src/doubles.rt`; which bits a select asks for in
//! `src/selects.rt`.
//!
//! The definitions: the byte at which each fault stands, in `specs/Bytes.antt`. A refusal is told
//! at that byte.
//!
//! Not promised: what a message says after its code.
#![tactic(auto)]

mod brackets;
mod comments;
mod doubles;
mod expected;
mod item_words;
mod meant;
mod messages;
mod near;
mod paths;
mod selects;
mod token_hints;
mod unnamed;
mod weights;

pub use meant::Meant;
pub use messages::{clock_refusal, lex_refusal, parse_refusal, program_refusal, type_refusal};
pub use paths::names_of;
pub use unnamed::{Unnamed, unnamed_in};
