//! A report as JSON.

ghost use Rattle.std.specs.Prelude.{◌≡◌, ◌∷◌, ◌++◌, [], OnOk, IfOk, Some, map, codes, decimal};
ghost use Rattle.json.specs.Json.{document};
ghost use Rattle.json.specs.Print.{print};
ghost use Rattle.json.specs.Token.{key, number, string};
ghost use Rattle.json.specs.Tree.{json_tokens, members_tokens};
ghost use Rattle.report_lines.specs.Lines.{line};
ghost use Rattle.report_lines.specs.Shown.{data_of};
ghost use Rattle.report_forms.specs.Grown.{Adds};
ghost use Rattle.report_forms.specs.Provenances.{provenance_of, time_at};
ghost use Rattle.report_forms.specs.JsonForm.{counts_json, failure_json, line_json, report_json};
ghost use Rattle.report_forms.specs.JsonForm.{list_of, members_with};
ghost use Rattle.report_forms.specs.JsonForm.{refused_json, refused_members};
ghost use Rattle.report_forms.specs.Refusals.{refused_of};

use crate::provenance::Provenance;
use crate::refused::Refused;
use json::Writer;
use report_lines::{Counts, Failure, Line, Report};
use std::alloc::{AllocError, Global};

/// The number of the schema.
const SCHEMA_VERSION: u64 = 1;

/// Adds a member whose value is a number.
fn put_number(out: &mut Writer, name: &str, value: u64) -> Result<(), AllocError>
    ensures { OnOk result (Adds out.old out.new (key name.now ∷ number (decimal value) ∷ [])) }
{
    out.key(name)?;
    out.u64(value)?;
    Ok(())
}

/// Adds a member whose value is a text.
fn put_text(out: &mut Writer, name: &str, value: &str) -> Result<(), AllocError>
    ensures { OnOk result (Adds out.old out.new (key name.now ∷ string value.now ∷ [])) }
{
    out.key(name)?;
    out.string(value)?;
    Ok(())
}

/// Adds a member whose value is the time of a clock.
fn put_time(
    out: &mut Writer,
    from: &Provenance<'_>,
    name: &str,
    clock: u64,
) -> Result<(), AllocError>
    ensures { OnOk result (Adds out.old out.new
        (key name.now ∷ number (decimal (time_at (provenance_of from.now) clock)) ∷ [])) }
{
    put_number(out, name, from.time(clock))
}

/// Adds how many attempts came to each verdict.
fn put_counts(out: &mut Writer, counts: &Counts) -> Result<(), AllocError>
    ensures { OnOk result (Adds out.old out.new (json_tokens (counts_json counts.now))) }
{
    out.begin_object()?;
    put_number(out, "holds", counts.holds)?;
    put_number(out, "vacuous", counts.vacuous)?;
    put_number(out, "fails", counts.fails)?;
    put_number(out, "disabled", counts.disabled)?;
    put_number(out, "open", counts.still_open)?;
    out.end_object()?;
    Ok(())
}

/// Adds an attempt that failed.
fn put_failure(out: &mut Writer, from: &Provenance<'_>, failure: &Failure) -> Result<(), AllocError>
    ensures { OnOk result (Adds out.old out.new
        (json_tokens (failure_json (provenance_of from.now) failure.now))) }
{
    out.begin_object()?;
    put_number(out, "start", failure.start)?;
    put_time(out, from, "start_time", failure.start)?;
    put_number(out, "clock", failure.clock)?;
    put_time(out, from, "clock_time", failure.clock)?;
    out.end_object()?;
    Ok(())
}

/// Adds the attempts that failed.
fn put_failures(
    out: &mut Writer,
    from: &Provenance<'_>,
    fails: &[Failure],
) -> Result<(), AllocError>
    ensures { OnOk result (Adds out.old out.new
        (json_tokens (list_of (map (failure_json (provenance_of from.now)) fails.now)))) }
{
    out.begin_array()?;
    for failure in fails {
        put_failure(out, from, failure)?;
    }
    out.end_array()?;
    Ok(())
}

/// Adds an assertion.
fn put_line(out: &mut Writer, from: &Provenance<'_>, of: &Line) -> Result<(), AllocError>
    ensures { OnOk result (Adds out.old out.new
        (json_tokens (line_json (provenance_of from.now) (line of.now)))) }
{
    out.begin_object()?;
    put_text(out, "name", of.name.as_str())?;
    out.key("counts")?;
    put_counts(out, &of.counts)?;
    out.key("failures")?;
    put_failures(out, from, of.fails.as_slice())?;
    out.end_object()?;
    Ok(())
}

/// Adds the assertions.
fn put_lines(out: &mut Writer, from: &Provenance<'_>, lines: &[Line]) -> Result<(), AllocError>
    ensures { OnOk result (Adds out.old out.new
        (json_tokens (list_of (map (line_json (provenance_of from.now)) (map line lines.now))))) }
{
    out.begin_array()?;
    for line in lines {
        put_line(out, from, line)?;
    }
    out.end_array()?;
    Ok(())
}

/// Adds an item that is refused.
fn put_refused(out: &mut Writer, refused: &Refused<'_>) -> Result<(), AllocError>
    ensures { OnOk result (Adds out.old out.new
        (json_tokens (refused_json (refused_of refused.now)))) }
{
    out.begin_object()?;
    put_text(out, "place", refused.place)?;
    put_text(out, "reason", refused.reason)?;
    out.end_object()?;
    Ok(())
}

/// Adds those that are refused.
fn put_refused_list(out: &mut Writer, refused: &[Refused<'_>]) -> Result<(), AllocError>
    ensures { OnOk result (Adds out.old out.new
        (json_tokens (list_of (map refused_json (map refused_of refused.now))))) }
{
    out.begin_array()?;
    for item in refused {
        put_refused(out, item)?;
    }
    out.end_array()?;
    Ok(())
}

/// Ends an object; those that are refused stand before its end, if there are some.
fn put_end(out: &mut Writer, refused: &[Refused<'_>]) -> Result<(), AllocError>
    ensures { OnOk result (Adds out.old out.new
        (members_tokens (members_with (refused_members (map refused_of refused.now))))) }
{
    if !refused.is_empty() {
        out.key("refused")?;
        put_refused_list(out, refused)?;
    }
    out.end_object()?;
    Ok(())
}

/// Adds the whole report.
fn put_report(
    out: &mut Writer,
    from: &Provenance<'_>,
    refused: &[Refused<'_>],
    report: &Report,
) -> Result<(), AllocError>
    ensures { OnOk result (Adds out.old out.new
        (json_tokens (report_json (provenance_of from.now) (map refused_of refused.now)
        (data_of report.now)))) }
{
    out.begin_object()?;
    put_number(out, "version", SCHEMA_VERSION)?;
    put_text(out, "dump", from.dump)?;
    put_text(out, "text", from.text)?;
    put_number(out, "clocks", report.clocks)?;
    out.key("assertions")?;
    put_lines(out, from, report.lines.as_slice())?;
    out.key("total")?;
    put_counts(out, &report.total)?;
    put_end(out, refused)?;
    Ok(())
}

/// A report as JSON, and items of the text that are refused: one object, in one line without a line
/// feed.
pub fn json_report(
    alloc: Global,
    from: &Provenance<'_>,
    refused: &[Refused<'_>],
    report: &Report,
) -> Result<Vec<u8>, AllocError>
    ensures text { IfOk result (λ bytes. bytes.items
        ≡ print (json_tokens (report_json (provenance_of from.now) (map refused_of refused.now)
        (data_of report.now)))) }
    ensures read_back { IfOk result (λ bytes. document bytes.items
        ≡ Some (report_json (provenance_of from.now) (map refused_of refused.now)
        (data_of report.now))) }
{
    let mut out = Writer::new(Vec::new(alloc));
    put_report(&mut out, from, refused, report)?;
    Ok(out.into_inner())
}
