//! Laws of suites and of reports: calls that do nothing, and whose contracts are theorems.
//!
//! `types::check` answers a suite that is the text's, by a relation that leaves open how its
//! expressions are laid out. Any two suites of one text have one clock, the same signals, counters
//! that count the same, and the same verdict on each attempt. So the bytes of a dump and the bytes
//! of a text have at most one report, and where they have one, no fault of the text or of the clock
//! stands. An assertion that has no program is one of the text: with K1 it has over 127 booleans,
//! with K2 it isn't small, with K3 it reads over 255 signals and counters, and with K4 one of its
//! names has over 65,535 bytes.
//!
//! What a text says over a dump, and each fault that it has there, depends on the dump's variables
//! alone. The report is the one over the rows of the dump's segments, each as a small dump.
//!
//! ```text
//! laws_one_report::suites_law();
//! laws_one_report::report_law();
//! laws_one_report::refusal_law();
//! laws_one_report::cause_law();
//! laws_one_report::front_law();
//! laws_one_report::segments_law();
//! ```
//!
//! The definitions: a report in `cli/specs/Reported.antt`, why there is none in
//! `cli/specs/Outcomes.antt`, the theorems in `specs/Suites.antt`, `specs/Laws.antt`,
//! `specs/Causes.antt` and `specs/SegmentLaws.antt`, what a text says in `types/specs/Suites.antt`,
//! what it is to say the same in `specs/Same.antt`, what an assertion of a text reads in
//! `specs/ReadInText.antt`, segments in `vcd_segments/specs/Segments.antt`. `proofs/Moved*.antt`
//! carry what tokens spell from where they lie in memory to any other place.
//!
//! Not promised: that equal suites are equal trees, or anything of devices that fail, of which
//! `refusal_law` does not speak; nor of a program that reads a dump in segments: there is none yet.
#![tactic(auto)]

mod laws;
mod segment_laws;

pub use laws::{cause_law, refusal_law, report_law, suites_law};
pub use segment_laws::{front_law, segments_law};
