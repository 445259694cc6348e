//! Failed attempts as a save file of GTKWave: which signals to show, and where its markers stand.
//!
//! ```text
//! let waves = Waves::of(alloc, header)?;               // the front of the dump's bytes
//! let from = Provenance { dump: "top.vcd", text: "", times: times.as_slice() };
//! let told = told_of(alloc, lines, &explanations, &standings)?;      // of `report_explained`
//! let bytes = save_file(alloc, &from, &waves, told.as_slice())?;
//! ```
//!
//! The file names the dump. It has a comment for each failed attempt, with its assertion and the
//! clocks at which it began and was decided, and after the last attempt of an assertion the signals
//! that this reads. The primary marker stands where the first attempt was decided, and two named
//! ones where each attempt began and was decided, as far as there are letters: A and B of the
//! first, up to Y and Z of the thirteenth.
//!
//! GTKWave knows a vector by its path and its bits, as `top.data[7:0]`, and counts time in the unit
//! of the dump's `$timescale` without its number: a dump of `10 ns` has its first step `#1` at 10.
//!
//! The definitions: what GTKWave calls the variables of a header in `specs/Waves.antt`, in which
//! unit it counts in `specs/Scales.antt`, and the file in `specs/Saves.antt`; declarations are
//! those of `vcd_declarations`, and failed attempts those of `report_explained`.
//!
//! Not promised: that memory suffices, and how wide a clock is shown. That GTKWave reads the file
//! so was tried with its version 3.3 (`docs/TESTED.md`).
#![tactic(auto)]

mod groups;
mod markers;
mod pieces;
mod save;
mod scale;
mod waves;
mod zoom;

pub use save::save_file;
pub use waves::Waves;
