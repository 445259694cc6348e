//! The tokens of SystemVerilog texts, with macros written out (IEEE 1800-2017, clauses 5 and 22).
//!
//! ```text
//! let mut macros = Macros::new(alloc);                          // one table for several texts
//! macros.define(b"SIZE", b"8")?;                                // as the command line does
//! let all = Expansions::of(alloc, text, &mut macros)?;          // its directives, in order
//! let tokens = all.tokens(alloc)?;                              // slices of the text, and the end
//! let place = place_of(text, tokens[0].at);                     // line and column, from 1
//! ```
//!
//! A text is any bytes. Each token that no macro made is the bytes at its place, and they stand in
//! the text's order. Between them is white space, comments and attributes, and directives, each
//! with what it takes with it: its line, its arguments, or text that it leaves out. What a macro
//! makes has the place of its outermost use. The only faults of a text are a comment without an
//! end, conditionals that don't nest, each with its place, and want of memory. What is wrong
//! elsewhere is a token of a kind of its own: `Stray`, and `Macro` for a use that stays as it is.
//! An include directive is a token too; its file is not read.
//!
//! Conditionals nest, or the text is refused: the first directive that can stand in none is told,
//! or else the first conditional that has no `endif`. What stands in a macro's definition is part
//! of that macro: there, and in the arguments of a use, conditionals nest by themselves, or the use
//! stays as it is.
//!
//! Work is bounded: macros use one another at most `MOST_NESTED` deep, and make at most `MOST_MADE`
//! bytes on the way. A use that would pass one of these stays as it is, and says so.
//!
//! The definitions: what the tokens of a text are in `specs/Readings.antt`, what stands between
//! them in `specs/Gaps.antt`, what a kind of token asks for in `specs/Cuts.antt`, where
//! conditionals nest in `specs/Nesting.antt`, and which directives these are in
//! `specs/Conditionals.antt`, lines and columns in `specs/Places.antt`, pieces on the way in
//! `specs/Pieces.antt`.
//!
//! Not promised, but tested: where numbers, strings and symbols end, which words are keywords,
//! which text a condition leaves out, and what a macro makes. Keywords that no assertion and no
//! declaration round it needs are words here.
#![tactic(auto)]

mod arguments;
mod condition;
mod conditional;
mod cut;
mod defining;
mod definition;
mod directive;
mod expansion;
mod expansions;
mod fault;
mod keyword;
mod macros;
mod nesting;
mod number;
mod piece;
mod pieces;
mod place;
mod reading;
mod runs;
mod symbol;
mod token;
mod turn;

pub use expansion::{MOST_MADE, MOST_NESTED};
pub use expansions::Expansions;
pub use fault::TokenFault;
pub use keyword::Keyword;
pub use macros::Macros;
pub use place::{Place, place_of};
pub use symbol::Symbol;
pub use token::{Kind, MacroFault, Token};
