//! Programs of assertions: `compile` makes the bytecode whose verdicts are the assertion's.
//!
//! ```text
//! let suite = check(alloc, &file, paths)?;
//! for assertion in suite.assertions() {
//!     let verified = compile(alloc, assertion, &suite)?;
//! }
//! ```
//!
//! A program samples the signals and counts the counters that the assertion reads, also through
//! other counters; it has an atom for each boolean of the assertion's list, and a section for each
//! side, made by `positions`. Its limits are the least that serve it, by the verifier's own
//! functions, and the verifier accepts it always: `compile` answers no refusal of the verifier.
//!
//! Sample code has no jumps. It goes through an expression from the left: each operand, and after
//! them what their operator does. `$past` reads the rows of so many ticks before, and a guard by
//! slot 0, the constant 1, makes 0 of it where there were fewer ticks. A call that compares with
//! the tick before has the code of its operand twice: so a buffer counts, and stops at 4,096
//! instructions.
//!
//! The definitions: what a program of an assertion is in `specs/Programs.antt` (that it decides as
//! the assertion means is a law of `compiler_laws`); what `compile` takes for granted of an
//! assertion and its suite in `specs/Conditions.antt` (it follows where the type checker made the
//! suite of a text); what an assertion reads in `specs/Readings.antt`; why there is no program in
//! `specs/Faults.antt`; small assertions, for which K2 never comes, in `specs/Small.antt`. Of
//! sample code: `specs/Codes.antt` and `specs/Samples.antt`, its laws in `specs/Laws.antt`, bounds
//! by brackets in `specs/Depths.antt`.
//!
//! Not promised: that memory suffices, or that code is as short as can be.
#![tactic(auto)]

mod buffer;
mod compilation;
mod counter;
mod expression;
mod fault;
mod laws;
mod length_fault;
mod limits;
mod operators;
mod program;
mod reading;
mod sample_code;
mod sample_laws;
mod slot_table;
mod slots;
mod texts;

pub use compilation::compile;
pub use fault::CompileFault;
pub use laws::small_law;
pub use sample_laws::{
    counter_law, depth_law, expression_law, fit_law, length_law, narrow_law, sample_law, typing_law,
};
