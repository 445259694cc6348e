//! Programs for monitors.
//!
//! A program has limits, the signals and counters that it samples, sample code, and two sections of
//! blocks, one for each side of an assertion.
//!
//! ```text
//! let other = program.copy(alloc)?;
//! let leads = BlockInstr::Unless { .. }.flow();   // where an instruction leads
//! ```
//!
//! A `Program` holds only what a file can spell (its ghost field `fits`); the files are those of
//! `bytecode`. The definitions: what a file can spell in `specs/Values.antt`, words and paths
//! in `specs/Texts.antt`, what a program in memory holds in `specs/Views.antt` and
//! `specs/Programs.antt`. `specs/Instructions.antt` is the one table of what instructions do to the
//! operands on the stack, what they name and where they lead.
//!
//! Not promised: that a program makes sense. Slots, atoms and targets may be anything that a file
//! can spell; `verifier` says which may run.
#![tactic(auto)]

mod block_instr;
mod copy;
mod flow;
mod limits;
mod operator;
mod program;
mod sample_instr;
mod section;
mod slot;

pub use block_instr::BlockInstr;
pub use flow::Flow;
pub use limits::Limits;
pub use operator::{CompareOperator, JoinOperator, ReduceOperator, ShiftOperator};
pub use program::Program;
pub use sample_instr::SampleInstr;
pub use section::Section;
pub use slot::Slot;
