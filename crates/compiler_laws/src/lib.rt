//! Laws of the compiler: calls that do nothing, and whose contracts are theorems.
//!
//! A program of an assertion decides as the assertion means. Whatever made such a program: where
//! the verifier accepts it, the checked machine over rows of the suite's signals decides each
//! attempt with the assertion's verdict, at the verdict's clock, and the attempts that stay live
//! are the open ones. So its line of a report is that of the verdicts.
//!
//! The compiler takes for granted that an assertion is of its suite (`IsFit`). `suite_law` shows
//! that it is, for each assertion of a suite that a text says over the paths of a dump: names are
//! words, each place is there, no part of an expression has over 128 bits, no `$past` looks back
//! over 64 ticks, and at most 64 brackets and operators are open at once (`depth_law`). An
//! assertion has no more booleans than its text has; that of a small assertion is small, so that K2
//! never stands of it (`small_law`).
//!
//! ```text
//! compiler_laws::programs_decide();    // the line of a program is that of the meaning
//! compiler_laws::line_by_meaning();    // so is that of any that decides by an assertion's meaning
//! compiler_laws::suite_law();
//! compiler_laws::small_law();
//! compiler_laws::depth_law();
//! ```
//!
//! The definitions: what a program of an assertion is in `compiler/specs/Programs.antt`; rows, and
//! what a program decides, in `specs/ProgramLaws.antt`, its line in `specs/LineLaws.antt`; of
//! suites in `specs/SuiteLaws.antt`, `specs/Small.antt` and `specs/Depths.antt`; a text with its
//! names written out in `specs/WrittenOut.antt`, its expressions in `specs/TextTrees.antt`; what a
//! text says in `types/specs/Suites.antt`.
//!
//! Not promised: that there is a program of each assertion, anything of a suite that no text says,
//! or that the depth of what is meant is that of the text, which can have needless brackets.
#![tactic(auto)]

mod program_laws;
mod suite_laws;

pub use program_laws::{line_by_meaning, lines_are_one, programs_decide};
pub use suite_laws::{depth_law, small_law, suite_law};
