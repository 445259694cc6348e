//! What is told of a text's refusals: where each stands, what may be meant, and the text without
//! what is refused.
//!
//! ```text
//! let told = lint(alloc, &front, text, &ends)?;            // all refusals, and what is accepted
//! let place = place_of(text, 52);                          // line 2, column 9
//! let line = line_of(text, Line::first(text), 52);         // the same, from a line before it
//! push_refusal(&mut out, "rules.sva", text, 52, line, message)?; // rules.sva:2:9: .., and a caret
//! let meant = nearest(alloc, 2, "tb.ful", &names)?;        // the place of `tb.full` among names
//! let instead = hint_beside("within", &WORDS);             // what to write in its place
//! let ends = item_ends(alloc, text)?;                      // the byte after each item
//! let written = hint_at(text, 47, &MARKS);                 // the same, of marks as `===`
//! let span = span_at(text, &ends, 52);                     // the item that holds byte 52
//! ```
//!
//! Bytes count from 0, lines and columns from 1; a column counts bytes.
//!
//! The definitions: what is told of all items in `specs/Linted.antt`, lines and columns in
//! `specs/Places.antt`, the text of a refusal in `specs/Told.antt`, a text of which a part is
//! blanked in `specs/Blanked.antt`, how tokens are cut into items in `specs/Items.antt`, which name
//! is the nearest in `specs/Nearest.antt`, and where a mark stands in `specs/Hints.antt`.
//!
//! Not promised: that the nearest name is meant, what the hints say, and where items end in a text
//! that has no tokens.
#![tactic(auto)]

mod blank;
mod front;
mod hints;
mod items;
mod lexable;
mod lint_all;
mod marks;
mod names;
mod place;
mod refusal_text;
mod span;
mod stray;

pub use front::{FrontEnd, Refusal};
pub use hints::{CODES, Hint, SIGNS, WORDS, hint_beside};
pub use items::{item_at, item_ends};
pub use lint_all::{Linted, lint};
pub use marks::{MARKS, Mark, hint_at};
pub use names::nearest;
pub use place::{Line, Place, line_of, place_of};
pub use refusal_text::{push_refusal, push_total};
pub use span::{Span, span_at};
