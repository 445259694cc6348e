//! A team's own files in place of a text: read, told of, and written as a text of the profile.
//!
//! ```text
//! let status = serve_import(&rt, &team, Some("top.vcd"))?;   // the command `import`
//! let case = open_team(&rt, "top.vcd", &team, &patterns)?;   // for a command over a dump
//! let Some(case) = case else { return Ok(REFUSED_STATUS) };  // no assertion is written
//! let status = status_with(case.is_whole, status);           // of what was done with case.dump
//! ```
//!
//! The files are read first, then the front of the dump, until its header ends: names and widths
//! come from there, and a scope that is given has to be there. What is refused, and what is noted,
//! goes to standard error, by the places of the files. What is written of them is judged like any
//! text.
//!
//! What the files come to is said by `import_files`, where a header ends by `vcd_reader`
//! (`header_end`).
//!
//! Not promised, but tested (`scripts/tools/team_files.py`): what is told, and when.
#![tactic(auto)]

mod dump_front;
mod import;
mod scope;
mod team;

pub use dump_front::{header_in, read_dump_front};
pub use import::serve_import;
pub use team::{TeamCase, open_team, status_with};
