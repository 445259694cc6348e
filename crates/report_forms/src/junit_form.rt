//! A report as the XML that JUnit's readers take.

ghost use Rattle.std.specs.Prelude.{◌≡◌, ◌++◌, OnOk, IfOk, string_bytes, codes, take, length};
ghost use Rattle.std.specs.Prelude.{count_by, flat_map, map};
ghost use Rattle.report_lines.specs.Lines.{line};
ghost use Rattle.report_lines.specs.Shown.{data_of};
ghost use Rattle.report_forms.specs.Grown.{Grows};
ghost use Rattle.report_forms.specs.Outcomes.{has_failed, is_untried};
ghost use Rattle.report_forms.specs.Provenances.{provenance_of};
ghost use Rattle.report_forms.specs.JunitForm.{attribute, attempt_text};
ghost use Rattle.report_forms.specs.JunitForm.{failure_text, outcome_text, counts_text, case_text};
ghost use Rattle.report_forms.specs.JunitForm.{suite_text, refused_text, refused_head};
ghost use Rattle.report_forms.specs.JunitForm.{refused_suite, junit_text};
ghost use Rattle.report_forms.specs.Refusals.{refused_of};

use crate::escape::push_escaped;
use crate::pieces::{push_clock, push_number, push_text};
use crate::provenance::Provenance;
use crate::refused::Refused;
use report_lines::{Counts, Failure, Line, Report};
use std::alloc::{AllocError, Global};

/// How many failed attempts of an assertion are told.
const MOST_TOLD: usize = 10;

/// Adds an attribute, whose name is the label's end.
fn push_attribute(text: &mut String, label: &str, value: &str) -> Result<(), AllocError>
    ensures { OnOk result
        (Grows (string_bytes text.old) (string_bytes text.new) (attribute label.now value.now)) }
{
    push_text(text, label)?;
    push_escaped(text, value)?;
    push_text(text, "\"")?;
    Ok(())
}

/// Adds an attempt that failed.
fn push_attempt(
    text: &mut String,
    from: &Provenance<'_>,
    failure: &Failure,
) -> Result<(), AllocError>
    ensures { OnOk result (Grows (string_bytes text.old) (string_bytes text.new)
        (attempt_text (provenance_of from.now) failure.now)) }
{
    push_clock(text, from, "began at clock ", failure.start)?;
    push_clock(text, from, ", decided at clock ", failure.clock)?;
    push_text(text, "\n")?;
    Ok(())
}

/// The first failures, as many as are told.
fn told(fails: &[Failure]) -> &[Failure]
    ensures { result.now ≡ take 10 fails.entry.now }
{
    if fails.len() <= MOST_TOLD {
        fails
    } else {
        &fails[..MOST_TOLD]
    }
}

/// Adds the first failed attempts, and how many there are.
fn push_failure(text: &mut String, from: &Provenance<'_>, of: &Line) -> Result<(), AllocError>
    ensures { OnOk result (Grows (string_bytes text.old) (string_bytes text.new)
        (failure_text (provenance_of from.now) (line of.now))) }
{
    let head = "<failure type=\"assertion\" message=\"failed attempts: ";
    push_number(text, head, of.counts.fails)?;
    push_text(text, "\">\n")?;
    let shown = told(of.fails.as_slice());
    for failure in shown {
        push_attempt(text, from, failure)?;
    }
    push_text(text, "</failure>\n")?;
    Ok(())
}

/// Whether some attempt failed.
fn has_failed(of: &Line) -> bool
    ensures { result ≡ has_failed (line of.now) }
{
    0 < of.counts.fails
}

/// Whether no attempt held, failed or is open.
fn is_untried(of: &Line) -> bool
    ensures { result ≡ is_untried (line of.now) }
{
    of.counts.holds == 0 && of.counts.fails == 0 && of.counts.still_open == 0
}

/// Adds whether an assertion failed or was never tried.
fn push_outcome(text: &mut String, from: &Provenance<'_>, of: &Line) -> Result<(), AllocError>
    ensures { OnOk result (Grows (string_bytes text.old) (string_bytes text.new)
        (outcome_text (provenance_of from.now) (line of.now))) }
{
    if has_failed(of) {
        return push_failure(text, from, of);
    }
    let piece = if is_untried(of) {
        "<skipped message=\"never tried\"/>\n"
    } else {
        ""
    };
    push_text(text, piece)
}

/// Adds how many attempts came to each verdict.
fn push_counts(text: &mut String, counts: &Counts) -> Result<(), AllocError>
    ensures { OnOk result
        (Grows (string_bytes text.old) (string_bytes text.new) (counts_text counts.now)) }
{
    push_number(text, "<system-out>holds ", counts.holds)?;
    push_number(text, " vacuous ", counts.vacuous)?;
    push_number(text, " fails ", counts.fails)?;
    push_number(text, " disabled ", counts.disabled)?;
    push_number(text, " open ", counts.still_open)?;
    push_text(text, "</system-out>\n")?;
    Ok(())
}

/// Adds an assertion.
fn push_case(text: &mut String, from: &Provenance<'_>, of: &Line) -> Result<(), AllocError>
    ensures { OnOk result (Grows (string_bytes text.old) (string_bytes text.new)
        (case_text (provenance_of from.now) (line of.now))) }
{
    push_attribute(text, "<testcase name=\"", of.name.as_str())?;
    push_attribute(text, " classname=\"", from.text)?;
    push_text(text, ">\n")?;
    push_outcome(text, from, of)?;
    push_counts(text, &of.counts)?;
    push_text(text, "</testcase>\n")?;
    Ok(())
}

/// How many assertions there are.
fn assertion_count(report: &Report) -> u64
    ensures { result ≡ length (data_of report.now).lines }
{
    report.lines.len() as u64
}

/// How many assertions failed.
fn failed_count(report: &Report) -> u64
    ensures { result ≡ count_by has_failed (data_of report.now).lines }
{
    report.lines.iter().filter(|of| has_failed(of)).count() as u64
}

/// How many assertions were never tried.
fn untried_count(report: &Report) -> u64
    ensures { result ≡ count_by is_untried (data_of report.now).lines }
{
    report.lines.iter().filter(|of| is_untried(of)).count() as u64
}

/// Adds the head of a document of one suite.
fn push_suite(text: &mut String, from: &Provenance<'_>, report: &Report) -> Result<(), AllocError>
    ensures { OnOk result (Grows (string_bytes text.old) (string_bytes text.new)
        (suite_text (provenance_of from.now) (data_of report.now))) }
{
    let all = assertion_count(report);
    let failed = failed_count(report);
    let untried = untried_count(report);
    let clocks = "\">\n<properties>\n<property name=\"clocks\" value=\"";
    push_text(
        text,
        "<?xml version=\"1.0\" encoding=\"UTF-8\"?>\n<testsuites>\n",
    )?;
    push_attribute(text, "<testsuite name=\"", from.dump)?;
    push_number(text, " tests=\"", all)?;
    push_number(text, "\" failures=\"", failed)?;
    push_number(text, "\" errors=\"0\" skipped=\"", untried)?;
    push_number(text, clocks, report.clocks)?;
    push_text(text, "\"/>\n</properties>\n")?;
    Ok(())
}

/// Adds a case for each assertion.
fn push_cases(text: &mut String, from: &Provenance<'_>, lines: &[Line]) -> Result<(), AllocError>
    ensures { OnOk result (Grows (string_bytes text.old) (string_bytes text.new)
        (flat_map (case_text (provenance_of from.now)) (map line lines.now))) }
{
    for line in lines {
        push_case(text, from, line)?;
    }
    Ok(())
}

/// Adds an item that is refused.
fn push_refused(
    text: &mut String,
    from: &Provenance<'_>,
    refused: &Refused<'_>,
) -> Result<(), AllocError>
    ensures { OnOk result (Grows (string_bytes text.old) (string_bytes text.new)
        (refused_text (provenance_of from.now) (refused_of refused.now))) }
{
    push_attribute(text, "<testcase name=\"", refused.place)?;
    push_attribute(text, " classname=\"", from.text)?;
    push_attribute(
        text,
        ">\n<error type=\"refused\" message=\"",
        refused.reason,
    )?;
    push_text(text, "/>\n</testcase>\n")?;
    Ok(())
}

/// Adds a case for each item that is refused.
fn push_refused_cases(
    text: &mut String,
    from: &Provenance<'_>,
    refused: &[Refused<'_>],
) -> Result<(), AllocError>
    ensures { OnOk result (Grows (string_bytes text.old) (string_bytes text.new)
        (flat_map (refused_text (provenance_of from.now)) (map refused_of refused.now))) }
{
    for item in refused {
        push_refused(text, from, item)?;
    }
    Ok(())
}

/// Adds the head of a suite of so many items that are refused.
fn push_refused_head(text: &mut String, count: usize) -> Result<(), AllocError>
    ensures { OnOk result
        (Grows (string_bytes text.old) (string_bytes text.new) (refused_head count)) }
{
    let count = count as u64;
    push_number(text, "<testsuite name=\"refused\" tests=\"", count)?;
    push_number(text, "\" failures=\"0\" errors=\"", count)?;
    push_text(text, "\" skipped=\"0\">\n")?;
    Ok(())
}

/// Adds a suite of those that are refused, if there are some.
fn push_refused_suite(
    text: &mut String,
    from: &Provenance<'_>,
    refused: &[Refused<'_>],
) -> Result<(), AllocError>
    ensures { OnOk result (Grows (string_bytes text.old) (string_bytes text.new)
        (refused_suite (provenance_of from.now) (map refused_of refused.now))) }
{
    if refused.is_empty() {
        return push_text(text, "");
    }
    push_refused_head(text, refused.len())?;
    push_refused_cases(text, from, refused)?;
    push_text(text, "</testsuite>\n")?;
    Ok(())
}

/// A report as a document with a test case for each assertion, and after these one with an error
/// for each item of the text that is refused.
pub fn junit_report(
    alloc: Global,
    from: &Provenance<'_>,
    refused: &[Refused<'_>],
    report: &Report,
) -> Result<Vec<u8>, AllocError>
    ensures { IfOk result (λ bytes. bytes.items
        ≡ junit_text (provenance_of from.now) (map refused_of refused.now)
        (data_of report.now)) }
{
    let mut text = String::new(alloc);
    push_suite(&mut text, from, report)?;
    push_cases(&mut text, from, report.lines.as_slice())?;
    push_text(&mut text, "</testsuite>\n")?;
    push_refused_suite(&mut text, from, refused)?;
    push_text(&mut text, "</testsuites>\n")?;
    Ok(text.into_bytes())
}
