//! Comments and signals.

ghost use Rattle.std.specs.Prelude.{◌≡◌, ◌≤◌, OnOk, map};
ghost use Rattle.std.specs.List.{flat_map};
ghost use Rattle.report_forms.specs.Grown.{Grows};
ghost use Rattle.report_forms.specs.Provenances.{provenance_of};
ghost use Rattle.report_gtkwave.specs.Views.{wave_data};
ghost use Rattle.report_gtkwave.specs.Saves.{letter_text, name_text, comment_text, format_text};
ghost use Rattle.report_gtkwave.specs.Saves.{row_text, signal_text, is_same_next, group_text};
ghost use Rattle.report_gtkwave.specs.Saves.{groups_text};

use crate::pieces::{push_bytes, push_clock, push_number, push_on_line, push_text};
use crate::waves::{Wave, suffix_in};
use report_explained::{FailedAttempt, RowSource, SheetRow};
use report_forms::Provenance;
use std::alloc::{AllocError, Global};

/// Adds the letter of the first or of the second marker of the attempt of a number, as far as there
/// are letters.
fn push_letter(out: &mut Vec<u8>, number: usize, second: u8) -> Result<(), AllocError>
    requires { second ≤ 1 }
    ensures { OnOk result (Grows out.old.items out.new.items (letter_text number second)) }
{
    if number < 13 {
        out.push(b'A' + number as u8 * 2 + second)?;
        push_text(out, ": ")?;
    }
    Ok(())
}

/// Adds the name of an attempt's assertion, and where that stands.
fn push_name(
    alloc: Global,
    out: &mut Vec<u8>,
    attempt: &FailedAttempt<'_>,
) -> Result<(), AllocError>
    ensures { OnOk result (Grows out.old.items out.new.items (name_text attempt.now)) }
{
    push_text(out, "@200\n-")?;
    push_on_line(out, attempt.name)?;
    push_text(out, "  ")?;
    push_on_line(out, attempt.standing.path)?;
    push_number(alloc, out, ":", attempt.standing.line)?;
    push_number(alloc, out, ":", attempt.standing.column)?;
    push_text(out, "\n-")?;
    Ok(())
}

/// Adds the comment of the attempt of a number.
fn push_comment(
    alloc: Global,
    out: &mut Vec<u8>,
    from: &Provenance<'_>,
    number: usize,
    attempt: &FailedAttempt<'_>,
) -> Result<(), AllocError>
    ensures { OnOk result (Grows out.old.items out.new.items
        (comment_text (provenance_of from.now) number attempt.now)) }
{
    push_name(alloc, out, attempt)?;
    push_letter(out, number, 0)?;
    push_clock(alloc, out, from, "began at clock ", attempt.failure.start)?;
    push_text(out, "\n-")?;
    push_letter(out, number, 1)?;
    push_clock(alloc, out, from, "decided at clock ", attempt.failure.clock)?;
    push_text(out, "\n")?;
    Ok(())
}

/// How values of so many bits are shown: one in binary, several in hexadecimal.
fn format_of(width: u8) -> &'static str
    ensures { result.now ≡ format_text width }
{
    if width <= 1 { "@28\n" } else { "@22\n" }
}

/// Adds a signal.
fn push_signal(out: &mut Vec<u8>, waves: &[Wave], row: &SheetRow) -> Result<(), AllocError>
    ensures { OnOk result (Grows out.old.items out.new.items
        (signal_text (map wave_data waves.now) row.now)) }
{
    let path = row.label.as_str();
    push_text(out, format_of(row.width))?;
    push_text(out, path)?;
    push_bytes(out, suffix_in(waves, path))?;
    push_text(out, "\n")?;
    Ok(())
}

/// Adds a row, if it is a signal's.
fn push_row(out: &mut Vec<u8>, waves: &[Wave], row: &SheetRow) -> Result<(), AllocError>
    ensures { OnOk result (Grows out.old.items out.new.items
        (row_text (map wave_data waves.now) row.now)) }
{
    match row.source {
        RowSource::Signal(_) => push_signal(out, waves, row),
        RowSource::Counter(_) => Ok(()),
        RowSource::Listed(_) => Ok(()),
    }
}

/// Adds the signals among rows.
fn push_rows(out: &mut Vec<u8>, waves: &[Wave], rows: &[SheetRow]) -> Result<(), AllocError>
    ensures { OnOk result (Grows out.old.items out.new.items
        (flat_map (row_text (map wave_data waves.now)) rows.now)) }
{
    for row in rows {
        push_row(out, waves, row)?;
    }
    Ok(())
}

/// Whether the second attempt is one of the same assertion as the first.
fn is_same_next(attempts: &[FailedAttempt<'_>]) -> bool
    ensures { result ≡ is_same_next attempts.now }
{
    match attempts {
        [first, second, ..] => first.name == second.name,
        _ => false,
    }
}

/// Adds the first of some attempts, which has this number: its comment, and after the last one of
/// its assertion the signals.
fn push_group(
    alloc: Global,
    out: &mut Vec<u8>,
    from: &Provenance<'_>,
    waves: &[Wave],
    number: usize,
    attempts: &[FailedAttempt<'_>],
) -> Result<(), AllocError>
    ensures { OnOk result (Grows out.old.items out.new.items
        (group_text (provenance_of from.now) (map wave_data waves.now) number attempts.now)) }
{
    let Some(attempt) = attempts.first() else {
        return Ok(());
    };
    push_comment(alloc, out, from, number, attempt)?;
    if is_same_next(attempts) {
        return Ok(());
    }
    push_rows(out, waves, attempt.sheet.rows.as_slice())?;
    Ok(())
}

/// Adds attempts, the first of which has the number 0.
pub(crate) fn push_groups(
    alloc: Global,
    out: &mut Vec<u8>,
    from: &Provenance<'_>,
    waves: &[Wave],
    attempts: &[FailedAttempt<'_>],
) -> Result<(), AllocError>
    ensures { OnOk result (Grows out.old.items out.new.items
        (groups_text (provenance_of from.now) (map wave_data waves.now) 0 attempts.now)) }
{
    for place in 0..attempts.len() {
        push_group(alloc, out, from, waves, place, &attempts[place..])?;
    }
    Ok(())
}
