//! All refusals of a text over a dump.
//!
//! ```text
//! let (unnamed, turned, knows_ranges) = (&[], &[], false);
//! let meant = Meant { dump: &dump, names: &names, unnamed, turned, knows_ranges, origin };
//! let told = lint_over(alloc, &meant, text)?;     // told.linted.refusals, told.items
//! ```
//!
//! The text is cut into tokens, read, typed and compiled as for a report. What is refused is told,
//! its item is blanked byte for byte, and the rest is looked at again, so that all refusals stand
//! where the text has them. Before that, each item is looked at by itself: its form, its clock, and
//! its types as long as it has no name that the text declares. What is refused then is refused
//! whatever stands beside it, and is told at once, and a clock that is none is no clock of the
//! others. Where a fault of types is the first of the rest (Y1, Y2, Y3 or Y4), those of its kind
//! are told with it, as far as their items can be left out and nothing else changes. So a text of
//! which most items are refused is not read as often as that.
//!
//! `lint_over` promises that each told refusal is one of the text without the items that were
//! refused before it, or one of its item by itself, at the byte that is told; that a text of which
//! nothing is told is accepted; and that what is left is the text without those items, and is
//! accepted, or has no assertion.
//!
//! The definitions: which texts are accepted, and at which byte others are refused, in
//! `specs/Refused.antt`; which items are refused by themselves in `specs/Alone.antt`; which faults
//! stand beside others in `specs/Beside.antt`; what is left of a text in `specs/Rests.antt`; how
//! many items are counted in `specs/Counted.antt`. What is told of all items is said by
//! `diagnostics`, and where faults stand by `lint_messages`.
//!
//! Not promised: what a message says after its code, and that memory suffices.
#![tactic(auto)]

mod alone;
mod beside;
mod declared;
mod front;
mod over;
mod programless;

pub use over::{Told, lint_over};
