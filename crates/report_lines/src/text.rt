//! The text of a report.

ghost use Rattle.std.specs.Prelude.{◌≡◌, ◌++◌, OnOk, IfOk, string_bytes};
ghost use Rattle.report_lines.specs.Lines.{line};
ghost use Rattle.report_lines.specs.Shown.{data_of};
ghost use Rattle.report_lines.specs.Texts.{Grows, field_text, counts_text, fail_text, line_text};
ghost use Rattle.report_lines.specs.Texts.{report_text};

use crate::line::{Counts, Failure, Line};
use crate::report::Report;
use std::alloc::{AllocError, Global};
use std::fmt::Write;

/// Adds a text.
fn push_text(text: &mut String, piece: &str) -> Result<(), AllocError>
    ensures { OnOk result (Grows (string_bytes text.old) (string_bytes text.new) piece.now) }
{
    text.push_str(piece)?;
    Ok(())
}

/// Adds a label and a number.
fn push_field(text: &mut String, label: &str, number: u64) -> Result<(), AllocError>
    ensures { OnOk result
        (Grows (string_bytes text.old) (string_bytes text.new) (field_text label.now number)) }
{
    write!(text, "{label}{number}")
}

/// Adds the counts and the end of the line.
fn push_counts(text: &mut String, counts: &Counts) -> Result<(), AllocError>
    ensures { OnOk result
        (Grows (string_bytes text.old) (string_bytes text.new) (counts_text counts.now)) }
{
    push_field(text, " holds ", counts.holds)?;
    push_field(text, " vacuous ", counts.vacuous)?;
    push_field(text, " fails ", counts.fails)?;
    push_field(text, " disabled ", counts.disabled)?;
    push_field(text, " open ", counts.still_open)?;
    push_text(text, "\n")?;
    Ok(())
}

/// Adds the line of a failed attempt.
fn push_failure(text: &mut String, name: &str, failure: &Failure) -> Result<(), AllocError>
    ensures { OnOk result
        (Grows (string_bytes text.old) (string_bytes text.new) (fail_text name.now failure.now)) }
{
    push_text(text, "fail ")?;
    push_text(text, name)?;
    push_field(text, " start ", failure.start)?;
    push_field(text, " clock ", failure.clock)?;
    push_text(text, "\n")?;
    Ok(())
}

/// Adds the lines of an assertion.
fn push_line(text: &mut String, of: &Line) -> Result<(), AllocError>
    ensures { OnOk result
        (Grows (string_bytes text.old) (string_bytes text.new) (line_text (line of.now))) }
{
    let name = of.name.as_str();
    push_text(text, "monitor ")?;
    push_text(text, name)?;
    push_counts(text, &of.counts)?;
    for failure in &of.fails {
        push_failure(text, name, failure)?;
    }
    Ok(())
}

/// The text of a report.
pub(crate) fn text_of(alloc: Global, report: &Report) -> Result<String, AllocError>
    ensures { IfOk result (λ t. string_bytes t ≡ report_text (data_of report.now)) }
{
    let mut text = String::new(alloc);
    push_field(&mut text, "svamon 1\nclocks ", report.clocks)?;
    push_text(&mut text, "\n")?;
    for line in &report.lines {
        push_line(&mut text, line)?;
    }
    push_text(&mut text, "total")?;
    push_counts(&mut text, &report.total)?;
    Ok(text)
}
