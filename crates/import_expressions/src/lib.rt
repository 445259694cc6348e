//! Values of a team's assertions as terms: expressions of the profile.
//!
//! ```text
//! let mut terms = Terms::new(alloc, &parts, Some(b"tb.u_soc"), &widths);
//! terms.begin();                                   // for each assertion
//! let id = terms.boolean(ValueId(3))?;             // or a `Refused`
//! let term = terms.term_at(id);                    // Term::Infix(Infix::Equal, first, second), ..
//! refused.reason.code(), refused.reason.hint(), refused.at        // for users; a byte
//! ```
//!
//! Forms that rules don't have become those that they have: `inside`, `==?`, `===`, replication,
//! selects of expressions and by indices that change, `'1`, `$countones`, products and quotients by
//! constants, `->`, `<->`, a long `$past`, and a `$past` with a gate, which reads a counter
//! (`Gate`). Names with dots get the scope before them, where they don't begin with its first word;
//! `$root.x` is `x`, and `\a ` is `a`. Selects of a signal whose declared range is known go by that
//! range.
//!
//! A value's term has the value's own width, and is worth the same in each wider context
//! (IEEE 1800-2017, 11.6). Bits of an expression have no such term, and stand only where what they
//! are worth counts alone: as a boolean, or beside what no context changes. x and z are 0, and all
//! is unsigned, so what depends on x, z or a sign is refused, as of signals that the file declares
//! with a sign. Widths of signals are needed by `$bits`, `$countones` and a `$past` with a gate; a
//! type of an argument or a local variable is passed over where they aren't known, and
//! `terms.has_unknown_width()` says so.
//!
//! Work is bounded: an assertion comes to so many values and terms, and values lie so deep in one
//! another; what passes that is `TooHeavy`.
//!
//! The definition: a path as rules spell it, in `specs/Paths.antt`.
//!
//! Not promised, but tested (`scripts/tools/team_texts.py`): that a term is worth what its value
//! is.
#![tactic(auto)]

mod assembling;
mod comparing;
mod converting;
mod dump_signal;
mod functions;
mod lowering;
mod measures;
mod paths;
mod plan;
mod planning;
mod reason;
mod refused;
mod selects;
mod term;
mod terms;

pub use dump_signal::{DumpSignal, known_signal};
pub use paths::{is_free_word, push_path};
pub use reason::Reason;
pub use refused::Refused;
pub use term::{Gate, Term, TermId, TermList, is_associative, looseness};
pub use terms::Terms;
