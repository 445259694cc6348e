//! Pieces of a text: what the forms of a report are made of.

ghost use Rattle.std.specs.Prelude.{◌++◌, OnOk, string_bytes, encode_utf8};
ghost use Rattle.report_forms.specs.Grown.{Grows};
ghost use Rattle.report_forms.specs.JunitForm.{clock_text, number_text};
ghost use Rattle.report_forms.specs.Provenances.{provenance_of};

use crate::provenance::Provenance;
use std::alloc::AllocError;
use std::fmt::Write;

/// Adds a text.
pub fn push_text(text: &mut String, piece: &str) -> Result<(), AllocError>
    ensures { OnOk result (Grows (string_bytes text.old) (string_bytes text.new) piece.now) }
{
    text.push_str(piece)?;
    Ok(())
}

/// Adds a character.
pub(crate) fn push_character(text: &mut String, character: char) -> Result<(), AllocError>
    ensures { OnOk result
        (Grows (string_bytes text.old) (string_bytes text.new) (encode_utf8 character)) }
{
    text.push(character)?;
    Ok(())
}

/// Adds a label and a number.
pub fn push_number(text: &mut String, label: &str, number: u64) -> Result<(), AllocError>
    ensures { OnOk result
        (Grows (string_bytes text.old) (string_bytes text.new) (number_text label.now number)) }
{
    write!(text, "{label}{number}")
}

/// Adds a label, a clock and its time.
pub fn push_clock(
    text: &mut String,
    from: &Provenance<'_>,
    label: &str,
    clock: u64,
) -> Result<(), AllocError>
    ensures { OnOk result (Grows (string_bytes text.old) (string_bytes text.new)
        (clock_text (provenance_of from.now) label.now clock)) }
{
    let time = from.time(clock);
    push_number(text, label, clock)?;
    push_number(text, " (#", time)?;
    push_text(text, ")")?;
    Ok(())
}
