//! The tokens of an assertion's text (IEEE 1800-2017, 5.2 to 5.7).
//!
//! `lex` cuts a text into words, system names, numbers and symbols, each with the byte at which it
//! begins, counted from 0, and with its slice of the text. Each token is the longest at its byte;
//! spaces, tabs, carriage returns, line feeds and comments in both forms stand between, and the
//! last token is the empty end. Keywords are words. A number has its value and its width: the size
//! that is written, 1 to 128, or 32.
//!
//! ```text
//! let tokens = lex(alloc, "a |-> 4'b12")?;
//! // the word `a` at 0, the symbol `|->` at 2, the numbers `4'b1` at 6 and `2` at 10,
//! // and the end at 11
//! ```
//!
//! Else there is the first fault of the text, with its byte: L1, nothing begins with this byte; L2,
//! a number without a value, or with too large a one; L3, a comment without an end. Or memory ran
//! out.
//!
//! The definitions: `specs/Covering.antt` (what it means that tokens cover a text, and which is its
//! first fault), `specs/Cutting.antt` (the same, computed), `specs/Lexemes.antt` (which texts are
//! words, system names, numbers and symbols, and the longest of them at the front),
//! `specs/Numbers.antt` (what a number is worth) and `specs/Runs.antt` (how many bytes go on with
//! it). By `cut_law`, stated in `specs/Laws.antt`, the first two say the same of every text.
//!
//! Not promised: that memory suffices. Strings, escaped identifiers and directives are no tokens
//! here: the bytes with which they begin are L1.
#![tactic(auto)]

mod fault;
mod laws;
mod longest;
mod number;
mod piece;
mod scan;
mod token;

pub use fault::LexFault;
pub use laws::cut_law;
pub use piece::Shape;
pub use scan::{Next, lex};
pub use token::{Base, Kind, Number, Symbol, Token};
