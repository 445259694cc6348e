//! The text that is judged: of several files, and with some of its assertions alone; and where its
//! bytes stand in the files.
//!
//! ```text
//! let text = joined(alloc, &parts)?;              // the texts of files, a line feed between
//! let choice = chosen(alloc, text, &patterns)?;   // the assertions of some names alone
//! let at = place_before(&choice.added, 52);       // byte 52 of `choice.text`, in `text`
//! let spot = spot_of(&parts, at);                 // byte 9 of the second file
//! let spot = spot_in(&origin, 52);                // the same, in one call
//! let fits = means(b"req_*", b"req_waits");       // `*` is any run of characters, `?` is one
//! ```
//!
//! An assertion that is left out is blanked byte for byte, and one without a label gets the name
//! that the report tells, `assert_N`, so that it keeps it where others before it are left out.
//! What those labels add is told, so that all places can be told as they are in the text.
//!
//! The definitions: joined texts and spots in `specs/Parts.antt`, what a pattern means in
//! `specs/Globs.antt`, what assertions are called in `specs/Heads.antt`, what is left of a text and
//! what is added to it in `specs/Chosen.antt`; items and blanks are those of `diagnostics`.
//!
//! Not promised: which assertions a text without tokens has; it is left as it is.
#![tactic(auto)]

mod added;
mod choosing;
mod globs;
mod heads;
mod origin;
mod part;

pub use added::{Added, place_before};
pub use choosing::{Choice, chosen};
pub use globs::means;
pub use origin::{Origin, spot_in};
pub use part::{Part, Spot, joined, spot_of};
