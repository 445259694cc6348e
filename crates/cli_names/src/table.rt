//! The table of what is told.

ghost use Rattle.std.specs.Prelude.{◌≡◌, ◌++◌, [], map, OnOk, IfOk};
ghost use Rattle.report_lines.specs.Texts.{Grows};
ghost use Rattle.cli_names.specs.Rows.{row_data};
ghost use Rattle.std.specs.List.{flat_map};
ghost use Rattle.cli_names.specs.Tables.{blanks, left, right, ending, line_text};
ghost use Rattle.cli_names.specs.Tables.{table_text};
ghost use Rattle.cli_names.specs.Tables.{widths_of};
ghost use Rattle.cli_names.specs.Told.{widths_in};

use crate::column::{Column, cell, width_of};
use crate::rows::{Row, Told};
use std::alloc::{AllocError, Global};

/// The widths of a table's columns.
#[derive(Clone, Copy)]
pub(crate) struct Widths {
    pub(crate) path: usize,
    pub(crate) size: usize,
    pub(crate) range: usize,
    pub(crate) kind: usize,
}

/// Adds a text.
fn push_text(out: &mut Vec<u8>, text: &[u8]) -> Result<(), AllocError>
    ensures { OnOk result (Grows out.old.items out.new.items text.now) }
{
    out.extend_from_slice(text)
}

/// Adds so many blanks.
fn push_blanks(out: &mut Vec<u8>, count: usize) -> Result<(), AllocError>
    ensures { OnOk result (Grows out.old.items out.new.items (blanks count)) }
{
    let mut more = count;
    while more > 0 {
        out.push(b' ')?;
        more -= 1;
    }
    Ok(())
}

/// Adds a text at the left of so many columns.
fn push_left(out: &mut Vec<u8>, width: usize, text: &[u8]) -> Result<(), AllocError>
    ensures { OnOk result (Grows out.old.items out.new.items (left width text.now)) }
{
    push_text(out, text)?;
    push_blanks(out, width.saturating_sub(text.len()))?;
    Ok(())
}

/// Adds a text at the right of so many columns.
fn push_right(out: &mut Vec<u8>, width: usize, text: &[u8]) -> Result<(), AllocError>
    ensures { OnOk result (Grows out.old.items out.new.items (right width text.now)) }
{
    push_blanks(out, width.saturating_sub(text.len()))?;
    push_text(out, text)?;
    Ok(())
}

/// Adds the kind and a note.
fn push_noted(out: &mut Vec<u8>, width: usize, kind: &[u8], note: &[u8]) -> Result<(), AllocError>
    ensures { OnOk result
        (Grows out.old.items out.new.items (left width kind.now ++ blanks 2 ++ note.now)) }
{
    push_left(out, width, kind)?;
    push_blanks(out, 2)?;
    push_text(out, note)?;
    Ok(())
}

/// Adds the kind, and the note where there is one.
fn push_ending(out: &mut Vec<u8>, width: usize, kind: &[u8], note: &[u8]) -> Result<(), AllocError>
    ensures { OnOk result (Grows out.old.items out.new.items (ending width kind.now note.now)) }
{
    match note {
        [] => push_text(out, kind),
        [_, ..] => push_noted(out, width, kind, note),
    }
}

/// Adds a line.
fn push_line(out: &mut Vec<u8>, widths: &Widths, row: &Row<'_>) -> Result<(), AllocError>
    ensures { OnOk result (Grows out.old.items out.new.items
        (line_text (widths_in widths.now) (row_data row.now))) }
{
    push_left(out, widths.path, cell(row, Column::Path))?;
    push_blanks(out, 2)?;
    push_right(out, widths.size, cell(row, Column::Size))?;
    push_blanks(out, 2)?;
    push_left(out, widths.range, cell(row, Column::Range))?;
    push_blanks(out, 2)?;
    push_ending(
        out,
        widths.kind,
        cell(row, Column::Kind),
        row.note.text().as_bytes(),
    )?;
    push_text(out, b"\n".as_slice())?;
    Ok(())
}

/// The lines of rows.
fn lines_of(alloc: Global, rows: &[Row<'_>]) -> Result<Vec<u8>, AllocError>
    ensures { IfOk result (λ out. out.items
        ≡ flat_map (line_text (widths_of (map row_data rows.now))) (map row_data rows.now)) }
{
    let widths = Widths {
        path: width_of(rows, Column::Path),
        size: width_of(rows, Column::Size),
        range: width_of(rows, Column::Range),
        kind: width_of(rows, Column::Kind),
    };
    let mut out = Vec::new(alloc);
    for row in rows {
        push_line(&mut out, &widths, row)?;
    }
    Ok(out)
}

/// What is told where no variable of so many is.
#[tactic(auto, unfolding(crate::specs::Tables::table_text))]
fn none_of(alloc: Global, total: u64) -> Result<Vec<u8>, AllocError>
    ensures { IfOk result (λ out. out.items ≡ table_text [] total) }
{
    let none = format!(in alloc; "0 of {total} variables\n")?;
    Ok(Vec::from_slice(alloc, none.as_bytes())?)
}

/// The table of what is told.
pub(crate) fn table_of(alloc: Global, told: &Told<'_>) -> Result<Vec<u8>, AllocError>
    ensures { IfOk result (λ out. out.items
        ≡ table_text (map row_data told.now.rows.items) told.now.total) }
{
    if told.rows.is_empty() {
        return none_of(alloc, told.total);
    }
    lines_of(alloc, &told.rows)
}
