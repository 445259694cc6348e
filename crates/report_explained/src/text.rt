//! Failed attempts as text.

ghost use Rattle.std.specs.Prelude.{◌≡◌, ◌++◌, ℕ, List, OnOk, IfOk, string_bytes, nat_lt, length};
ghost use Rattle.std.specs.Prelude.{map};
ghost use Rattle.std.specs.List.{AllZip, flat_map};
ghost use Rattle.report_forms.specs.Grown.{Grows};
ghost use Rattle.report_forms.specs.Provenances.{provenance_of, time_at};
ghost use Rattle.report_explained.specs.ExplainedText.{head_text, ends_text, next_end};
ghost use Rattle.report_explained.specs.ExplainedText.{from_text};
ghost use Rattle.report_explained.specs.ExplainedText.{IsSection, IsSectionOf, IsExplainedText};
ghost use Rattle.report_explained.specs.ExplainedText.{cause_text, led_text, alone_text, plural};
ghost use Rattle.report_explained.specs.SheetText.{line_data, head_lines, IsSheetText};

use crate::arrow::Arrow;
use crate::columns::{Line, line_texts};
use crate::failed_attempt::FailedAttempt;
use crate::sheet::Sheet;
use crate::sheet_text::{columns_of, numbers_line, push_rows};
use report_forms::{Provenance, push_clock, push_number, push_text};
use std::alloc::{AllocError, Global};

/// The letter of a plural.
fn plural(several: bool) -> &'static str
    ensures { result.now ≡ plural several }
{
    if several { "s" } else { "" }
}

/// Adds the first line: the assertion, where it stands, where the attempt began and was decided,
/// and how many failed.
fn push_head(
    text: &mut String,
    from: &Provenance<'_>,
    attempt: &FailedAttempt<'_>,
) -> Result<(), AllocError>
    ensures { OnOk result (Grows (string_bytes text.old) (string_bytes text.new)
        (head_text (provenance_of from.now) attempt.now)) }
{
    let several = attempt.failed != 1;
    push_text(text, "FAIL ")?;
    push_text(text, attempt.name)?;
    push_text(text, "  ")?;
    push_text(text, attempt.standing.path)?;
    push_number(text, ":", attempt.standing.line)?;
    push_number(text, ":", attempt.standing.column)?;
    push_clock(text, from, "   began at clock ", attempt.failure.start)?;
    push_clock(text, from, ", decided at clock ", attempt.failure.clock)?;
    push_number(text, "; ", attempt.failed)?;
    push_text(text, " failed attempt")?;
    push_text(text, plural(several))?;
    push_text(text, "\n")?;
    Ok(())
}

/// Adds the ends after the first one.
fn push_next_ends(text: &mut String, back: usize, ends: &[usize]) -> Result<(), AllocError>
    ensures { OnOk result (Grows (string_bytes text.old) (string_bytes text.new)
        (flat_map (next_end back) ends.now)) }
{
    for end in ends {
        push_number(text, ", ", end.saturating_sub(back) as u64)?;
    }
    Ok(())
}

/// Adds the ends of the antecedent, so many clocks before those from which the consequent was
/// asked, as in ` 40, 41`.
///
/// # Errors
///
/// Want of memory alone.
pub fn push_ends(text: &mut String, back: usize, ends: &[usize]) -> Result<(), AllocError>
    ensures { OnOk result (Grows (string_bytes text.old) (string_bytes text.new)
        (ends_text back ends.now)) }
{
    match ends {
        [] => Ok(()),
        [first, rest @ ..] => {
            push_number(text, " ", first.saturating_sub(back) as u64)?;
            push_next_ends(text, back, rest)
        }
    }
}

/// Adds from where the consequent is broken.
fn push_from(text: &mut String, several: bool, broken: usize) -> Result<(), AllocError>
    ensures { OnOk result (Grows (string_bytes text.old) (string_bytes text.new)
        (from_text several broken)) }
{
    if several {
        push_number(text, "; from clock ", broken as u64)
    } else {
        push_text(text, "; from there")
    }
}

/// Adds the line of the ends of the antecedent and of the obligation that broke.
fn push_led(text: &mut String, attempt: &FailedAttempt<'_>) -> Result<(), AllocError>
    ensures { OnOk result (Grows (string_bytes text.old) (string_bytes text.new)
        (led_text attempt.now)) }
{
    let several = attempt.ends.len() > 1;
    let back = attempt.arrow.back();
    push_text(text, "  antecedent ended at clock")?;
    push_text(text, plural(several))?;
    push_ends(text, back, attempt.ends)?;
    push_from(text, attempt.ends.len() + back > 1, attempt.broken)?;
    push_number(
        text,
        " no match of the consequent is possible after clock ",
        attempt.failure.clock,
    )?;
    push_text(text, "\n")?;
    Ok(())
}

/// Adds the line of an attempt whose assertion has no antecedent.
fn push_alone(text: &mut String, attempt: &FailedAttempt<'_>) -> Result<(), AllocError>
    ensures { OnOk result (Grows (string_bytes text.old) (string_bytes text.new)
        (alone_text attempt.now)) }
{
    push_number(
        text,
        "  no match is possible after clock ",
        attempt.failure.clock,
    )?;
    push_text(text, "\n")?;
    Ok(())
}

/// Adds why the attempt failed.
fn push_cause(text: &mut String, attempt: &FailedAttempt<'_>) -> Result<(), AllocError>
    ensures { OnOk result (Grows (string_bytes text.old) (string_bytes text.new)
        (cause_text attempt.now)) }
{
    match attempt.arrow {
        Arrow::Alone => push_alone(text, attempt),
        Arrow::Overlapped => push_led(text, attempt),
        Arrow::Following => push_led(text, attempt),
    }
}

/// The clocks as numbers.
fn clock_numbers(alloc: Global, clocks: &[usize]) -> Result<Vec<u64>, AllocError>
    ensures { IfOk result (λ numbers. numbers.items ≡ clocks.now) }
{
    let mut numbers = Vec::with_capacity(alloc, clocks.len())?;
    for clock in clocks {
        numbers.push(*clock as u64)?;
    }
    Ok(numbers)
}

/// The times of clocks.
fn times_of(alloc: Global, from: &Provenance<'_>, clocks: &[usize]) -> Result<Vec<u64>, AllocError>
    ensures { IfOk result (λ times.
        times.items ≡ map (time_at (provenance_of from.now)) clocks.now) }
{
    let mut times = Vec::with_capacity(alloc, clocks.len())?;
    for clock in clocks {
        times.push(from.time(*clock as u64))?;
    }
    Ok(times)
}

/// The lines of the clocks and of their times.
fn head_lines(
    alloc: Global,
    from: &Provenance<'_>,
    clocks: &[usize],
) -> Result<Vec<Line>, AllocError>
    ensures { IfOk result (λ lines. map line_data lines.items
        ≡ head_lines (provenance_of from.now) clocks.now) }
{
    let numbers = clock_numbers(alloc, clocks)?;
    let times = times_of(alloc, from, clocks)?;
    let mut lines = Vec::new(alloc);
    lines.push(numbers_line(alloc, "clock", numbers.as_slice(), clocks)?)?;
    lines.push(numbers_line(alloc, "time", times.as_slice(), clocks)?)?;
    Ok(lines)
}

/// A sheet as text: the clocks, their times, and its rows.
fn sheet_text(alloc: Global, from: &Provenance<'_>, sheet: &Sheet) -> Result<String, AllocError>
    ensures { IfOk result (λ text.
        IsSheetText (provenance_of from.now) sheet.now (string_bytes text)) }
{
    let clocks = sheet.clocks.as_slice();
    let mut lines = head_lines(alloc, from, clocks)?;
    push_rows(alloc, &mut lines, sheet)?;
    let texts = line_texts(alloc, lines.as_slice(), columns_of(clocks))?;
    let mut text = String::new(alloc);
    push_sections(&mut text, texts.as_slice())?;
    Ok(text)
}

/// A failed attempt as text.
fn section_of(
    alloc: Global,
    from: &Provenance<'_>,
    attempt: &FailedAttempt<'_>,
) -> Result<String, AllocError>
    ensures { IfOk result (IsSectionOf (provenance_of from.now) attempt.now) }
{
    let values = sheet_text(alloc, from, attempt.sheet)?;
    let mut text = String::new(alloc);
    push_head(&mut text, from, attempt)?;
    push_text(&mut text, values.as_str())?;
    push_cause(&mut text, attempt)?;
    Ok(text)
}

/// The texts of failed attempts.
fn sections_of(
    alloc: Global,
    from: &Provenance<'_>,
    attempts: &[FailedAttempt<'_>],
) -> Result<Vec<String>, AllocError>
    ensures { IfOk result (λ sections. AllZip
        (IsSectionOf (provenance_of from.now)) attempts.now sections.items) }
{
    let mut sections = Vec::with_capacity(alloc, attempts.len())?;
    for attempt in attempts {
        sections.push(section_of(alloc, from, attempt)?)?;
    }
    Ok(sections)
}

/// Adds texts one after another.
fn push_sections(text: &mut String, sections: &[String]) -> Result<(), AllocError>
    ensures { OnOk result (Grows (string_bytes text.old) (string_bytes text.new)
        (flat_map (λ s. string_bytes s) sections.now)) }
{
    for section in sections {
        push_text(text, section.as_str())?;
    }
    Ok(())
}

/// Failed attempts as text, one after another: of each a line that begins with `FAIL`, its sheet,
/// and a line that says why it failed. The dump's path and the text's of `from` are not told.
///
/// # Errors
///
/// Want of memory alone.
pub fn explained_text(
    alloc: Global,
    from: &Provenance<'_>,
    attempts: &[FailedAttempt<'_>],
) -> Result<String, AllocError>
    ensures { IfOk result (λ text.
        IsExplainedText (provenance_of from.now) attempts.now (string_bytes text)) }
{
    let sections = sections_of(alloc, from, attempts)?;
    let mut text = String::new(alloc);
    push_sections(&mut text, sections.as_slice())?;
    Ok(text)
}
