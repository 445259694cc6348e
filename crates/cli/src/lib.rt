//! Judging dumps by texts: from bytes and text to the bytes of an answer.
//!
//! ```text
//! let totals = check_one(alloc, &mut dump, text, 1024, &mut out)?;  // the report
//! let totals = check_all(&rt, alloc, &mut dump, text, 4, 1024, &gate, &mut out)?; // by 4 workers
//! let totals = check_over(&rt, alloc, dump, text, team, size, &gate, &mut out)?; // over a dump
//! let timed = report_over(&rt, alloc, dump, text, team, size, &gate)?;   // with its clocks' times
//! let totals = judge_one(alloc, &mut dump, text, &mut out)?;        // the same, by the slow judge
//! let bytes = build_one(alloc, &mut dump, text, "grant")?;          // an assertion's program
//! let count = explain_one(&rt, alloc, &mut dump, text, &origin, &wanted, team, &gate, &mut out)?;
//! let shown = failures_over(&rt, alloc, dump, text, &origin, &wanted, team, &gate, &waveform)?;
//! let paged = page_over(&rt, alloc, dump, text, team, size, &gate, &paths, &origin, 3)?;
//! ```
//!
//! Each call answers with the first fault of the first layer that has one, as one `Fault`. A call
//! that is refused has written nothing, but where the sink itself failed: that holds a beginning of
//! the text.
//!
//! The definitions: what a report on bytes and a text is in `specs/Reported.antt`, what a run comes
//! to in `specs/Outcomes.antt`, the times of clocks in `specs/Timed.antt`, what a build comes to
//! in `specs/Builds.antt`, what explanations and a page come to in `specs/Explained.antt`, with a
//! save file of GTKWave in `specs/Waves.antt`; the report on a suite in `report_suites`, an
//! explanation in `report_explained`, a page in `report_page`, a save file in `report_gtkwave`;
//! faults, their lines and statuses in `cli_faults`.
//!
//! Not promised: that memory suffices; of calls that take a team, that they return, and that two
//! workers were at work at once; at which place of its file an assertion is told to stand.
#![tactic(auto)]

mod build;
mod check;
mod checked;
mod explain;
mod explained;
mod heads;
mod judged;
mod page;
mod programs;
mod text;
mod timed;
mod times;
mod trace;
mod waves;

pub use build::build_one;
pub use check::{check_all, check_one, judge_one};
pub use checked::check_over;
pub use cli_bytecode::{run_code, upgrade_code, verify_code};
pub use cli_faults::{Fault, fault_line, status};
pub use cli_words::{Request, WordsFault, read_words};
pub use explain::explain_one;
pub use page::{PagedReport, Paths, page_over};
pub use report_explained::Wanted;
pub use report_gtkwave::Waves;
pub use report_programs::{Gate, NoGate};
pub use timed::{TimedReport, report_over};
pub use waves::{ShownFailures, Waveform, failures_over};
