//! Properties of the standard, and what they come to (IEEE 1800-2017, 16.12 and annex F.5.3).
//!
//! A `Property` is a tree as a team wrote it: negation, `and`, `or`, `implies`, `iff`, `|->`,
//! `|=>`, `#-#`, `#=#`, `if`, `nexttime`, `always [m:n]`, `s_eventually [m:n]` and `until`, over
//! sequences. A `Sequence` is one of the profile. Its booleans are leaves, which who makes the tree
//! numbers; what they say is not known here. All names are written out, and all bounds are numbers.
//!
//! ```text
//! let granted = Property::Sequence(Sequence::Boolean(Condition::Leaf(1)));
//! let property = Property::Implication(
//!     Sequence::Boolean(Condition::Leaf(0)),
//!     Box::new(alloc, granted)?,
//! );
//! ```
//!
//! Once the ticks below n were seen, a property has come to an outcome or to none. It has failed
//! where it wouldn't be satisfied if every boolean were true from then on. It is good where it
//! would be satisfied if every boolean were false from then on. Strong and weak forms don't differ
//! by this. `outcome_law` says that an outcome stays, and is the only one. `profile_law` says that
//! an assertion of the profile comes to what its own definition decides.
//!
//! The definitions: booleans and their values in `specs/Conditions.antt`; sequences in
//! `specs/Shapes.antt`, over those of `assertions`; properties, and the seven forms that all others
//! stand for, in `specs/Properties.antt`; `[->m:n]` and `[=m:n]` in `specs/Derived.antt`; what they
//! come to in `specs/Outcomes.antt`; the laws in
//! `specs/Laws.antt`.
//!
//! Not promised: anything of the standard's vacuity (16.14.8), and that a sequence of a property
//! is one that the standard lets stand there (16.12.22).
#![tactic(auto)]

mod condition;
mod derived;
mod laws;
mod property;
mod sequence;

pub use condition::Condition;
pub use derived::{goto_repetition, nonconsecutive_repetition};
pub use laws::{outcome_law, profile_law};
pub use property::Property;
pub use sequence::Sequence;
