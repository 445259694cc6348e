//! Properties for opened assertions (IEEE 1800-2017, 16.9, 16.10 and 16.12).
//!
//! ```text
//! let opened = opener.open(assertion)?;
//! let lowered = property_of(alloc, parts, opened.body, Some(60))?;  // or why not, and where
//! let rewriting = rewritten(alloc, 60, &lowered.property)?;
//! lowered.bounded                                // 60 stands for an end that is left open
//! ```
//!
//! `property_of` makes the `import_properties::Property` that a part of `import_elaboration` is. A
//! leaf of a boolean is the place of a value among all of the opening: `Condition::Leaf(n)` is
//! `parts.values[n]`. The constants 0 and 1 and the negation `!` are conditions of their own.
//! Values that a form needs are added: `e === v || e === w` of an item of `case`, and `a && b` of
//! two booleans that are joined. No value that was there changes.
//!
//! What a sequence or a property leaves open ends after as many ticks as the bound says: `$`, each
//! gap of `[->n]` and `[=n]`, `s_eventually`, and `until`. Without a bound these are refused.
//! `always` without an end is refused, unless it is negated. What stands for others is written out:
//! `case` by `if`, `within` by `and` or by its definition with `intersect`, `first_match` where its
//! ends can be told, `b implies p` by `|->`. A fixed delay that makes a consequent too heavy
//! becomes an antecedent. A local variable is what it was given, so many ticks ago: `$past(e, n)`,
//! or `{e}` at the same tick. Where its age differs from delay to delay of a range, the range is
//! written out; it is refused where its age isn't one number all the same.
//!
//! Work is bounded: parts lie in one another at most `MOST_DEPTH` deep, and at most 100,000 values
//! are added. Added values may share their parts, so written out they may be larger by far.
//!
//! No clause says here which property it is. `import_files` asks `import_checks::is_meaning` of
//! each one, and writes none of which that says no: so what is written is the part's meaning,
//! keyword by keyword. Tested alone: parts with local variables or `.triggered`. Not promised:
//! that the type of a local variable holds what it is given, whose own width counts.
#![tactic(auto)]

mod chains;
mod lowered;
mod lowering;
mod measure;
mod nodes;
mod now;
mod polarity;
mod properties;
mod reason;
mod sequences;
mod triggered;
mod values;
mod ways;
mod widening;

pub use lowered::{Lowered, MOST_DEPTH, property_of};
pub use reason::{Hint, NotLowered, Reason};
