//! The lines of a suite's assertions over a dump, and the report on them, by their programs.
//!
//! Each assertion is compiled, and the programs are a job: of a core of one worker (`lines_of`), or
//! of 1 to 64 workers, each a thread (`suite_report`). They take the rows of the programs' signals
//! at the ticks of the suite's clock, window by window. The line that is made of a program is that
//! of the verdicts by the definition, over the rows of all the suite's signals. So whoever reads a
//! line need not know that there was a program.
//!
//! ```text
//! let clocks = Clocks::of(alloc, &dump, suite.clock())?;
//! let lines = lines_of(alloc, dump, clocks, &suite, 1024)?;
//! let report = suite_report(&rt, alloc, dump, clocks, &suite, 4, 1024, &gate)?;
//! ```
//!
//! The faults are those of the compiler, of the first assertion that has one, and then U3 where
//! there are more assertions than a job may have programs. The signals of a program are signals of
//! the suite, so none of them is missing in the dump, or of another width.
//!
//! The definitions: what a line is in `specs/Lines.antt`, why there are none in
//! `specs/Faults.antt`. Programs are those of `compiler`, the line of a program is that of
//! `workers_core`, the report of a job is that of `workers`, and that the two lines are one
//! rests on the law of `compiler_laws`.
//!
//! Not promised: that memory suffices, and that the dump's is back when `suite_report` answers.
#![tactic(auto)]

mod fault;
mod job;
mod lines;
mod programs;
mod report;

pub use fault::LinesFault;
pub use lines::lines_of;
pub use report::suite_report;
pub use workers::{Gate, NoGate};
