//! A report as one page of HTML, with pictures of failed attempts.
//!
//! ```text
//! let from = Provenance { dump: "top.vcd", text: "rules.sva", times: times.as_slice() };
//! let told = told_of(alloc, lines, &explanations, &standings)?;      // of `report_explained`
//! let bytes = page(alloc, &from, &report, told.as_slice())?;
//! ```
//!
//! The page needs nothing from elsewhere. It has a table with a row for each assertion: how many
//! attempts came to each verdict, and the first failure with its time. A click on a head sorts it.
//! After it stands a section for each failed attempt that is shown, with a picture (SVG) of the
//! values that it saw: a column for each clock, a wave for each row of one bit and boxes for wider
//! ones, and a band over the clocks of the attempt. It is light or dark as the reader's screen is.
//!
//! Every text from outside (names, paths, the text of booleans) stands there escaped, as in the
//! values of attributes that `report_forms` writes.
//!
//! The definitions: what stands in the page, and in which order, in `specs/PageForm.antt`; the
//! marks of a picture and what they are labelled with, in `specs/Pictures.antt`; where a report
//! comes from, and how texts are escaped, in `report_forms`.
//!
//! Not promised: where the marks of a picture stand, and how a page looks and is sorted; pages are
//! looked at in a browser (`docs/TESTED.md`).
#![tactic(auto)]

mod canvas;
mod document;
mod grid;
mod picture;
mod style;
mod table;
mod wave;

pub use document::page;
