//! The suite that a text says over a dump, for what is told of a text.
//!
//! ```text
//! let widths = DumpWidths { dump: &dump };          // the widths of a dump's paths
//! let suite = suite_over(alloc, &dump, &file)?;     // the suite of the items of a text
//! let width = width_in_dump(&dump, "tb.level");     // 4 bits, or none
//! let others = faults_over(alloc, &dump, &file)?;   // faults of several items at once
//! let at = clock_byte(&file);                       // where the clock of the text stands
//! let path = clock_path(alloc, &file)?;             // and what it is called
//! ```
//!
//! A path of a text names the variable of the dump that has it, if that can be bound. Which suite
//! the items of a text then say, and which fault of types stands in them, is said by `types`.
//!
//! The definitions: what a path names in `specs/Dumps.antt`; the scope of a text, the items that
//! it spells, and where their clock stands, in `specs/Suites.antt`; faults of several items in
//! `specs/Standing.antt`; what it is called is said by
//! `types`.
//!
//! Not promised: that memory suffices.
#![tactic(auto)]

mod clock;
mod dump_widths;
mod standing;
mod suite;

pub use clock::{clock_byte, clock_path};
pub use dump_widths::{DumpWidths, width_in_dump};
pub use standing::{Standing, faults_over};
pub use suite::suite_over;
