//! Generate loops and conditions of a SystemVerilog file, written out (IEEE 1800-2017, 27.4 and
//! 27.5).
//!
//! ```text
//! let digits = digits_of(alloc)?;
//! let numbers = numbers_of(alloc, digits.as_slice())?;     // tokens of small numbers
//! let all = unrolled(alloc, tokens, numbers.as_slice())?;
//! let file = File::of(alloc, all.as_slice())?;
//! ```
//!
//! A loop whose bounds are constants of the file becomes a block for each turn: `begin : 7`, a
//! `localparam` of the loop's name with its value there, the tokens of the body, and `end`. A
//! condition becomes `begin : if .. end` of what it chooses, and `begin : else .. end` of what it
//! doesn't, as does the body of a loop without turns. `import_scopes` reads these blocks as scopes.
//! What stands in a block is written out in the next pass, with the names of the blocks round it.
//!
//! Work is bounded: a loop has at most `MOST_TURNS` turns, values from 0 on and below
//! `MOST_NUMBER`, constructs lie at most `MOST_NESTED` deep in one another, and what is added is at
//! most `MOST_ADDED` tokens. What passes one of these stays as it is, as do `case` and what has a
//! bound that is no constant; `import_scopes` refuses the assertions in it.
//!
//! `unrolled` promises that no word that begins an assertion is lost, and that where no `for`
//! stands, each is there once. The definition: `specs/Unrolled.antt`.
//!
//! Not promised, but tested: which turns a loop has, and what a condition chooses.
#![tactic(auto)]

mod bodies;
mod edits;
mod headers;
mod keeping;
mod numbers;
mod planning;
mod turns;
mod unrolling;
mod writing;

pub use numbers::{MOST_NUMBER, digits_of, numbers_of};
pub use turns::MOST_TURNS;
pub use unrolling::{MOST_ADDED, MOST_NESTED, unrolled};
