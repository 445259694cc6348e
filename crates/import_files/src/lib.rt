//! A team's SystemVerilog files as a text of the profile, and what is told of them.
//!
//! ```text
//! let signals = signals_of(alloc, dump)?;                // of a dump's header, if one is given
//! let widths = known_of(alloc, &signals)?;
//! let reading = Reading { scope, bound, clock, widths: &widths, names: &signals.paths, .. };
//! let all = imported(alloc, text, &defines, &reading)?;  // all.outcomes: one for each assertion
//! let written = text_of(alloc, &all)?;                   // the text for `--sva`
//! let told = messages_of(alloc, &parts, bound, &all)?;   // a line for each refusal and note
//! let extent = extent_of(&all);                          // Extent::Whole, Part or Nothing
//! let judged = placed(alloc, text, &all)?;               // the same, at the files' own places
//! ```
//!
//! The text is that of all files, joined. Its tokens, with macros written out, have items
//! (`import_scopes`); each assertion is opened (`import_elaboration`), made a property
//! (`import_lowering`), rewritten (`import_rewriting`) and spelled (`import_text`). One that
//! can't be had is refused alone, with a code, a place and a hint. Labels are kept, and made where
//! there is none: `assert_N` is the Nth assertion. A label that is there already gets a number, and
//! so does one whose counters could have the name of a signal.
//! Assertions of another clock than the one that counts are refused. All assertions share one
//! budget of work, which grows with the text (`TooMuch`).
//!
//! `imported` promises that each token that begins an assertion has one outcome, in their order;
//! so none is lost. Each property is shown to be what was opened means (`import_checks`), and
//! each text is read back (`import_text`): it says, under the label that is told and by the clock
//! of what was opened, the exact rewriting of that property. What was opened begins at the byte
//! that is told. Where one is written as two halves, these are together what was opened means. One
//! of which any of that isn't so is refused. `text_of`, `extent_of` and `placed` say what they are
//! of these outcomes.
//!
//! The definitions: `specs/Imported.antt` and `specs/Placed.antt`, and of what is written
//! `specs/Written.antt`; tokens and the words that begin assertions in `import_tokens` and
//! `import_scopes`; what a part means in `import_checks`, what a rewriting is in
//! `import_rewriting`, what a text says in `import_text`.
//!
//! Not promised, but tested: that what was opened is what stands there, what a boolean's text says,
//! and what is told; and of local variables and `.triggered`, which property it is.
#![tactic(auto)]

mod blocks;
mod declared;
mod dump_signals;
mod fault;
mod halves;
mod heads;
mod hints;
mod importer;
mod labels;
mod messages;
mod names;
mod outcome;
mod outcomes;
mod placing;
mod reading;
mod stop;
mod text;
mod vacuity;

pub use dump_signals::{Bits, Signals, known_of, signals_of};
pub use fault::ImportFault;
pub use import_text::DumpSignal;
pub use messages::{messages_of, unread_line};
pub use outcome::{Cause, Extent, Fate, Half, Imported, Marks, Missing, Outcome, Remark};
pub use outcomes::imported;
pub use placing::{PlacedText, placed};
pub use reading::Reading;
pub use text::{extent_of, text_of};
