//! Suites of assertions, and their meaning (IEEE 1800-2017, 16.9, 16.12.7 and annex F.5).
//!
//! A suite has the assertions of a text, the path of their clock, and what they read: signals by
//! path and width, counters, and typed expressions. An assertion is `antecedent |-> consequent`:
//! from the last tick of each match of the antecedent that isn't empty the consequent must match,
//! or, with `first_match` round it, from that of its first match. Its sides are sequences as they
//! are written, with names written out. A boolean of a sequence is the constant 1, or a place in
//! the assertion's own list, which has the place of an expression among the suite's.
//!
//! ```text
//! let weight = weight_of(&sequence);   // none where it is over 127, or a range is out of order
//! let assertion = Assertion::new(name, first, antecedent, consequent, disabling, booleans);
//! let all = suite.assertions();        // in the order of the text
//! let names = names_read(alloc, &assertion, &suite)?;  // signals and counters that it reads
//! let signals = marks_of(alloc, names.as_slice(), Origin::Signal, suite.names.len())?;
//! let places = marked_places(alloc, signals.as_slice())?;  // those, in rising order
//! ```
//!
//! There is an assertion of any two sides that weigh at most 127 and have the first of each range
//! not over the second, and of no others. Its meaning is the verdict on each attempt: it holds,
//! holds vacuously, fails or is disabled at a tick, or stays open. No code here judges; that of
//! `judging` does, by the definition.
//!
//! A name is read where one of the assertion's booleans has it, or where a counter that is read has
//! it in one of its clauses. A program of the assertion holds exactly what is read.
//!
//! The definitions: sequences by their kernel and the ticks that they match, as a relation and as a
//! test, in `specs/Segments.antt`; sequences as they are written, the kernel that they stand for
//! and what they weigh in `specs/Written.antt`; what becomes of an attempt in
//! `specs/Attempts.antt`; the same of a suite's assertion, over rows of the suite's signals, in
//! `specs/Verdicts.antt`; what the trees stand for and when a boolean is true in
//! `specs/Shapes.antt`; empty matches, and sequences without a match of a tick or more, by their
//! form in `specs/Emptiness.antt`; the booleans of a sequence in `specs/Listed.antt`; quantifiers
//! over ticks in `specs/Quantifiers.antt`; what is read in `specs/Reads.antt`, by the names of an
//! expression in `specs/Names.antt`, with marks, places and slots in `specs/Marks.antt`. The laws
//! stand in `specs/Laws.antt`: each attempt has exactly one verdict (`verdict_law`), and no match
//! takes more ticks than the sequence weighs (`weight_law`).
//!
//! Not promised: that a place in a list is one of the suite's expressions, or that a side has a
//! match at all. A boolean whose expression isn't there is false at each tick.
#![tactic(auto)]

mod assertion;
mod decision;
mod laws;
mod marks;
mod names;
mod read;
mod sequence;
mod signal;
mod suite;
mod weight;

pub use assertion::Assertion;
pub use decision::Decision;
pub use laws::{degenerate_law, empty_law, match_law, verdict_law, weight_law};
pub use marks::{marked_places, marks_of, slots_of};
pub use read::names_read;
pub use sequence::{Boolean, Sequence};
pub use signal::Signal;
pub use suite::Suite;
pub use weight::{HEAVIEST, weight_of};
