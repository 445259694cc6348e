//! What the command `lint` tells: all refusals of a text over a dump, and notes on the rest.
//!
//! ```text
//! let selects = Selects::Written;
//! let refused = lint_one(alloc, &mut dump, text, &origin, &ports, selects, &mut out)?;
//! let rest = rest_over(alloc, &dump, text, &origin)?;  // rest.told, and rest.text: what is left
//! let why = why_not_judged(text, left);                // why that isn't to be judged
//! ```
//!
//! Which refusals there are is said by `lint_refusals`; here they are told in the order of their
//! places, each with its file, its line and its column, then that line and a caret. After them come
//! the notes of `lint_dump_notes`, in the same form, and how many items are refused. `rest_over`
//! tells the refusals alone, and hands on the text without the items that are refused.
//!
//! Where `lint_one` fails, it names a fault of the dump that is there, or want of memory, and
//! nothing was written; or G1: the sink failed, and holds a beginning of the text.
//!
//! The definitions: the text that tells of refusals, and what `lint_one` comes to, and why it
//! fails, in `specs/Tells.antt`; what is told of one refusal in `diagnostics`.
//!
//! Not promised: what a message says after its code, and which notes there are.
#![tactic(auto)]

mod fault;
mod held;
mod lint;
mod refusals;
mod unjudged;

pub use fault::LintFault;
pub use lint::{Rest, lint_one, rest_over};
pub use lint_dump_notes::Selects;
pub use lint_notes::PortSaid;
pub use unjudged::{Unjudged, why_not_judged};
