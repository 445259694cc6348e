//! Properties of the standard rewritten into the profile (IEEE 1800-2017, 16.12 and annex F.5.3).
//!
//! `rewritten` makes an assertion `antecedent |-> consequent` of the profile for a property. The
//! two come to the same: after the same number of ticks the one fails and the other, and the one
//! is good where the other holds, vacuously or not.
//!
//! ```text
//! let rewriting = rewritten(alloc, 12, &property)?;      // or a `Refusal`
//! rewriting.antecedent, rewriting.consequent             // the antecedent 1 can be left out
//! let sequence = after_each_end(alloc, &antecedent, &consequent)?;
//! ```
//!
//! Implications in one another become one antecedent, so far as they stand at the front, under
//! `if`, `nexttime` or `always [m:n]`. All else becomes one sequence, by `after_each_end`: a
//! sequence that says "after each end of the antecedent, the consequent". `not` goes inwards, down
//! to sequences: `not s` is "after each end of s, 0".
//!
//! `p until q` has no last tick of its own. It is written with a bound, so the assertion comes to
//! the same while no more ticks than that are seen from an attempt's first one.
//!
//! A property is refused where a part would weigh over 127 (decided before it is made), where a
//! sequence may match no tick, where a range is out of order, where the ends of an antecedent are
//! not told one by one, and where `until` stands over sequences.
//!
//! The definitions: when an assertion is the rewriting of a property in `specs/Rewriting.antt`;
//! "after each end" in `specs/Ends.antt`; what a side must be in `specs/Sides.antt`; senses, the
//! property or its negation, in `specs/Senses.antt`.
//!
//! Not promised: which of holds and vacuous it is where the property is good, that the sides are
//! the shortest ones, that an antecedent has a match, and that a refused property has no rewriting.
#![tactic(auto)]

mod consequent;
mod ends;
mod join;
mod make;
mod measure;
mod refusal;
mod rewriting;
mod sense;
mod waiting;

pub use ends::after_each_end;
pub use refusal::Refusal;
pub use rewriting::{Rewriting, rewritten};
