//! Assertions of SystemVerilog, opened and rewritten, as texts of the profile; and texts read back:
//! whether they say a rewriting.
//!
//! ```text
//! let mut spelling = Spelling::new(alloc, &parts, Some(b"tb.u_soc"), &widths);
//! let text = spelling.assertion(b"r1", &opened, &rewriting)?;     // or a `Refused`
//! // r1: assert property (@(posedge tb.u_soc.clk) disable iff (!tb.u_soc.ok) ..);
//! if says_rewriting(alloc, text, b"r1", clock, true, &antecedent, &consequent)? { .. }
//! ```
//!
//! A boolean of the rewriting is a value of the opening, by its number; `import_expressions` makes
//! an expression of the profile of it, or says why there is none. Here terms, sequences and whole
//! assertions are written, in the fewest brackets that keep how they group, though a boolean of
//! several operands has its own beside `##` and `[*]`. Counters that an assertion reads stand
//! before it, a line each. What passes the profile's bounds is `TooHeavy`.
//!
//! A text says a rewriting where its tokens spell a file of the grammar that has one assertion, of
//! the label and by the clock that were given, with a `disable iff` where one was, whose two sides
//! have the outlines of the rewriting's: their forms, counts and grouping, with a dot for each
//! boolean. So each bracket stands where it has to. `import_files` asks this of each text that it
//! writes.
//!
//! The definitions: outlines in `specs/Outlines.antt`, texts that say a rewriting in
//! `specs/Texts.antt`.
//!
//! Not promised, but tested (`scripts/tools/team_texts.py`): that a text is one of the profile's
//! grammar, and what stands where a boolean stands. Nor is it promised that the answer is yes where
//! a text says the rewriting (sequences may lie more than `MOST_DEPTH` deep).
#![tactic(auto)]

mod assertion;
mod outline;
mod sequences;
mod spelling;
mod text;
mod writer;
mod writing;

pub use import_expressions::{DumpSignal, Reason, Refused};
pub use spelling::Spelling;
pub use text::says_rewriting;
