//! What the program `svamon` has of the shell that started it: words, files by path, standard
//! output, and the line and the status of a fault.
//!
//! ```text
//! let words = words_of(&rt)?;
//! let request = request_of(&rt, words.as_slice())?;
//! let refused = refused_request(&rt, &request)?;      // a file would be written over
//! let dump = open(&rt, "top.vcd")?;
//! let sources = read_sources(&rt, &paths, Some("ports.txt"))?;        // sources.text, its files
//! let sources = read_team_sources(&rt, &paths)?;                      // a team's own files
//! let sources = read_chosen(&rt, &paths, None, &patterns)?;           // some assertions alone
//! let sources = chosen_sources(alloc, sources, &patterns)?;           // of what was read
//! look_whether_fits(alloc, &sources.text, 1 << 32)?;                  // on such a stack
//! let fault = moved_fault(&sources.added, fault);                     // where the files have it
//! let totals = print_report(&rt, &files, &from, &refused, &report, page);     // files before it
//! let status = report_status(&rt, status_of_totals(totals));          // and a fault's line
//! let mut out = shown_output(&rt);                // control characters as in `\u{1b}`
//! ```
//!
//! A file that can't be opened, read or made is the fault `File` with its path and why, and one
//! that is no UTF-8 is `NotText` (N2), but for a team's own files. A plain file is written whole or
//! not at all. No control character of a stranger's, or one that turns letters around, is in files
//! of a report or in what is shown, but by its number. The line of a fault goes to standard error,
//! and is lost where that can't be written. Two paths name one file where their devices and numbers
//! there are the same, behind all links.
//!
//! The definitions: statuses in `cli_faults/specs/Statuses.antt`, the rules of ports in
//! `axi4_rules`, what words ask for in `cli_words`, joined and chosen texts in `source_files`,
//! faults of these in `specs/Moved.antt`, the other forms of a report in `report_forms`.
//!
//! Not promised: what a file holds, which paths name one file, and that a line reaches anyone;
//! these are tested (`docs/TESTED.md`).
#![tactic(auto)]

mod assertions_text;
mod clashes;
mod definitions;
mod depth;
mod files;
mod forms;
mod links;
mod moved;
mod print;
mod shown;
mod status;
mod words;
mod written_files;

pub use assertions_text::{
    Sources, chosen_sources, read_chosen, read_labelled, read_sources, read_team_sources,
    told_paths,
};
pub use clashes::refused_request;
pub use depth::look_whether_fits;
pub use files::{open, read_bytes, write_bytes};
pub use forms::{FormFiles, print_report, write_save};
pub use moved::moved_fault;
pub use print::{print_bytes, print_rules};
pub use report_forms::{Provenance, Refused};
pub use shown::{Shown, print_error_lines, shown_output};
pub use status::{REFUSED_STATUS, StandardError, report_status, status_of_totals};
pub use words::{print_version_if_asked, refuse_words, request_of, words_of};
