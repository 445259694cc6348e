//! Pieces of the file.

ghost use Rattle.std.specs.Prelude.{OnOk};
ghost use Rattle.report_forms.specs.Grown.{Grows};
ghost use Rattle.report_forms.specs.JunitForm.{number_text, clock_text};
ghost use Rattle.report_forms.specs.Provenances.{provenance_of};
ghost use Rattle.report_gtkwave.specs.Saves.{on_line, line_byte};

use report_forms::Provenance;
use std::alloc::{AllocError, Global};

/// Adds bytes.
pub(crate) fn push_bytes(out: &mut Vec<u8>, piece: &[u8]) -> Result<(), AllocError>
    ensures { OnOk result (Grows out.old.items out.new.items piece.now) }
{
    out.extend_from_slice(piece)?;
    Ok(())
}

/// Adds a text.
pub(crate) fn push_text(out: &mut Vec<u8>, piece: &str) -> Result<(), AllocError>
    ensures { OnOk result (Grows out.old.items out.new.items piece.now) }
{
    push_bytes(out, piece.as_bytes())
}

/// Adds a label and a number.
pub(crate) fn push_number(
    alloc: Global,
    out: &mut Vec<u8>,
    label: &str,
    number: u64,
) -> Result<(), AllocError>
    ensures { OnOk result (Grows out.old.items out.new.items (number_text label.now number)) }
{
    let text = format!(in alloc; "{label}{number}")?;
    push_text(out, text.as_str())
}

/// Adds a label and a time.
pub(crate) fn push_wide(
    alloc: Global,
    out: &mut Vec<u8>,
    label: &str,
    time: u128,
) -> Result<(), AllocError>
    ensures { OnOk result (Grows out.old.items out.new.items (number_text label.now time)) }
{
    let text = format!(in alloc; "{label}{time}")?;
    push_text(out, text.as_str())
}

/// Adds a label, a clock and its time.
pub(crate) fn push_clock(
    alloc: Global,
    out: &mut Vec<u8>,
    from: &Provenance<'_>,
    label: &str,
    clock: u64,
) -> Result<(), AllocError>
    ensures { OnOk result (Grows out.old.items out.new.items
        (clock_text (provenance_of from.now) label.now clock)) }
{
    let time = from.time(clock);
    push_number(alloc, out, label, clock)?;
    push_number(alloc, out, " (#", time)?;
    push_text(out, ")")?;
    Ok(())
}

/// Adds a byte as it stands on a line.
fn push_line_byte(out: &mut Vec<u8>, byte: u8) -> Result<(), AllocError>
    ensures { OnOk result (Grows out.old.items out.new.items (line_byte byte)) }
{
    if byte < 32 {
        return push_text(out, "?");
    }
    out.push(byte)?;
    Ok(())
}

/// Adds bytes on one line.
fn push_line_bytes(out: &mut Vec<u8>, bytes: &[u8]) -> Result<(), AllocError>
    ensures { OnOk result (Grows out.old.items out.new.items (on_line bytes.now)) }
{
    for byte in bytes {
        push_line_byte(out, *byte)?;
    }
    Ok(())
}

/// Adds a text on one line.
pub(crate) fn push_on_line(out: &mut Vec<u8>, text: &str) -> Result<(), AllocError>
    ensures { OnOk result (Grows out.old.items out.new.items (on_line text.now)) }
{
    push_line_bytes(out, text.as_bytes())
}
