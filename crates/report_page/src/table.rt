//! The table of assertions.

ghost use Rattle.std.specs.Prelude.{◌≡◌, ◌++◌, List, OnOk, string_bytes, codes, slice_get};
ghost use Rattle.report_lines.specs.Lines.{line};
ghost use Rattle.report_forms.specs.Grown.{Grows};
ghost use Rattle.report_forms.specs.Outcomes.{has_failed, is_untried};
ghost use Rattle.report_forms.specs.Provenances.{provenance_of};
ghost use Rattle.report_page.specs.PageForm.{class_text, name_text, counts_text, first_text};
ghost use Rattle.report_page.specs.PageForm.{row_text};

use report_forms::{Provenance, push_clock, push_escaped, push_number, push_text};
use report_lines::{Counts, Failure, Line};
use std::alloc::AllocError;

/// The class of a row: whether the assertion failed, was never tried, or else held.
fn class_of(of: &Line) -> &'static str
    ensures { result.now ≡ class_text (line of.now) }
{
    if 0 < of.counts.fails {
        return "fails";
    }
    if of.counts.holds == 0 && of.counts.still_open == 0 {
        return "untried";
    }
    "holds"
}

/// The first failure, if there is one.
fn first_of(fails: &[Failure]) -> Option<Failure>
    ensures { result ≡ slice_get fails.now 0 }
{
    fails.get(0).copied()
}

/// Adds the name of an assertion, as a link to its first failure where there is one.
fn push_name(text: &mut String, name: &str, first: Option<Failure>) -> Result<(), AllocError>
    ensures { OnOk result (Grows (string_bytes text.old) (string_bytes text.new)
        (name_text name.now first)) }
{
    match first {
        None => push_escaped(text, name),
        Some(failure) => {
            push_text(text, "<a href=\"#")?;
            push_escaped(text, name)?;
            push_number(text, "-", failure.start)?;
            push_text(text, "\">")?;
            push_escaped(text, name)?;
            push_text(text, "</a>")?;
            Ok(())
        }
    }
}

/// Adds how many attempts came to each verdict.
fn push_counts(text: &mut String, counts: &Counts) -> Result<(), AllocError>
    ensures { OnOk result
        (Grows (string_bytes text.old) (string_bytes text.new) (counts_text counts.now)) }
{
    push_number(text, "</td><td class=\"good\">", counts.holds)?;
    push_number(text, "</td><td>", counts.vacuous)?;
    push_number(text, "</td><td class=\"bad\">", counts.fails)?;
    push_number(text, "</td><td>", counts.disabled)?;
    push_number(text, "</td><td>", counts.still_open)?;
    push_text(text, "</td><td>")?;
    Ok(())
}

/// Adds the clock and the time of the first failure, where there is one.
fn push_first(
    text: &mut String,
    from: &Provenance<'_>,
    first: Option<Failure>,
) -> Result<(), AllocError>
    ensures { OnOk result (Grows (string_bytes text.old) (string_bytes text.new)
        (first_text (provenance_of from.now) first)) }
{
    match first {
        None => Ok(()),
        Some(failure) => push_clock(text, from, "clock ", failure.clock),
    }
}

/// Adds the row of an assertion.
pub(crate) fn push_row(
    text: &mut String,
    from: &Provenance<'_>,
    of: &Line,
) -> Result<(), AllocError>
    ensures { OnOk result (Grows (string_bytes text.old) (string_bytes text.new)
        (row_text (provenance_of from.now) (line of.now))) }
{
    let first = first_of(of.fails.as_slice());
    push_text(text, "<tr class=\"")?;
    push_text(text, class_of(of))?;
    push_text(text, "\"><td>")?;
    push_name(text, of.name.as_str(), first)?;
    push_counts(text, &of.counts)?;
    push_first(text, from, first)?;
    push_text(text, "</td></tr>\n")?;
    Ok(())
}
