//! The page.

ghost use Rattle.std.specs.Prelude.{◌≡◌, ◌++◌, List, OnOk, IfOk, map, string_bytes, flat_map};
ghost use Rattle.std.specs.List.{AllZip};
ghost use Rattle.report_lines.specs.Lines.{line};
ghost use Rattle.report_lines.specs.Shown.{data_of};
ghost use Rattle.report_forms.specs.Grown.{Grows};
ghost use Rattle.report_forms.specs.Provenances.{provenance_of};
ghost use Rattle.report_page.specs.PageForm.{intro_text, row_text, IsSectionOf, IsPage};

use crate::picture::section_of;
use crate::style::{END, HEAD, STYLE, TABLE, TABLE_END};
use crate::table::push_row;
use report_explained::FailedAttempt;
use report_forms::{Provenance, push_escaped, push_number, push_text};
use report_lines::{Line, Report};
use std::alloc::{AllocError, Global};

/// Adds where the report comes from, and its sums.
fn push_intro(text: &mut String, from: &Provenance<'_>, report: &Report) -> Result<(), AllocError>
    ensures { OnOk result (Grows (string_bytes text.old) (string_bytes text.new)
        (intro_text (provenance_of from.now) (data_of report.now))) }
{
    push_text(text, "<h1>")?;
    push_escaped(text, from.dump)?;
    push_text(text, "</h1>\n<p>")?;
    push_escaped(text, from.text)?;
    push_number(text, "; clocks: ", report.clocks)?;
    push_number(text, "; attempts that hold: ", report.total.holds)?;
    push_number(text, ", are vacuous: ", report.total.vacuous)?;
    push_number(text, ", fail: ", report.total.fails)?;
    push_number(text, ", are disabled: ", report.total.disabled)?;
    push_number(text, ", are open: ", report.total.still_open)?;
    push_text(text, "</p>\n")?;
    Ok(())
}

/// Adds a row for each assertion.
fn push_rows(text: &mut String, from: &Provenance<'_>, lines: &[Line]) -> Result<(), AllocError>
    ensures { OnOk result (Grows (string_bytes text.old) (string_bytes text.new)
        (flat_map (row_text (provenance_of from.now)) (map line lines.now))) }
{
    for line in lines {
        push_row(text, from, line)?;
    }
    Ok(())
}

/// The sections of failed attempts.
fn sections_of(
    alloc: Global,
    from: &Provenance<'_>,
    pictures: &[FailedAttempt<'_>],
) -> Result<Vec<String>, AllocError>
    ensures { IfOk result (λ sections. AllZip
        (IsSectionOf (provenance_of from.now)) pictures.now sections.items) }
{
    let mut sections = Vec::with_capacity(alloc, pictures.len())?;
    for picture in pictures {
        sections.push(section_of(alloc, from, picture)?)?;
    }
    Ok(sections)
}

/// Adds sections one after another.
fn push_sections(text: &mut String, sections: &[String]) -> Result<(), AllocError>
    ensures { OnOk result (Grows (string_bytes text.old) (string_bytes text.new)
        (flat_map (λ s. string_bytes s) sections.now)) }
{
    for section in sections {
        push_text(text, section.as_str())?;
    }
    Ok(())
}

/// A report as a page, with pictures of failed attempts.
pub fn page(
    alloc: Global,
    from: &Provenance<'_>,
    report: &Report,
    pictures: &[FailedAttempt<'_>],
) -> Result<Vec<u8>, AllocError>
    ensures { IfOk result (λ bytes. IsPage (provenance_of from.now) (data_of report.now)
        pictures.now bytes.items) }
{
    let sections = sections_of(alloc, from, pictures)?;
    let mut text = String::new(alloc);
    push_text(&mut text, HEAD)?;
    push_escaped(&mut text, from.dump)?;
    push_text(&mut text, STYLE)?;
    push_intro(&mut text, from, report)?;
    push_text(&mut text, TABLE)?;
    push_rows(&mut text, from, report.lines.as_slice())?;
    push_text(&mut text, TABLE_END)?;
    push_sections(&mut text, sections.as_slice())?;
    push_text(&mut text, END)?;
    Ok(text.into_bytes())
}
