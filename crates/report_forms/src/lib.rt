//! Reports as files for other programs: JSON, and the XML of JUnit.
//!
//! ```text
//! let from = Provenance { dump: "top.vcd", text: "rules.sva", times: times.as_slice() };
//! let bytes = json_report(alloc, &from, &refused, &report)?;    // one object
//! let bytes = junit_report(alloc, &from, &refused, &report)?;   // a test case an assertion
//! ```
//!
//! Both say the same report, and beside it where it comes from: the paths of the dump and of the
//! text, and the times of clocks. The JSON has all failures; the XML has the first 10 of each
//! assertion and how many there are, and tells an assertion that was never tried as skipped. Items
//! of the text that are refused, of which the report knows nothing, are told after it, if there are
//! some: in the XML as a suite of their own, each as a case with an error. Other forms are made of
//! the same pieces (`push_text`, `push_number`, `push_clock`, `push_escaped`).
//!
//! The definitions: where a report comes from in `specs/Provenances.antt`, and what is told of a
//! refusal in `specs/Refusals.antt`; the JSON value in
//! `specs/JsonForm.antt`, which is what a reader of RFC 8259 takes the bytes for; the XML in
//! `specs/JunitForm.antt`; what an assertion came to in `specs/Outcomes.antt`. How texts stand in
//! values of attributes, and what a reader of XML takes such a value for, is in
//! `specs/Escapes.antt`; `attribute_law` has that it is the same text, but for U+FFFD in place of
//! each character that no document of XML may have.
//!
//! Not promised: that memory suffices; that the XML is a document as a whole, which is tried with
//! readers of others.
#![tactic(auto)]

mod escape;
mod json_form;
mod junit_form;
mod pieces;
mod provenance;
mod refused;

pub use escape::{attribute_law, push_escaped};
pub use json_form::json_report;
pub use junit_form::junit_report;
pub use pieces::{push_clock, push_number, push_text};
pub use provenance::Provenance;
pub use refused::Refused;
