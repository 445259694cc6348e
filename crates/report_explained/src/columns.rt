//! Texts in columns.

ghost use Rattle.std.specs.Prelude.{◌≤◌, ◌++◌, OnOk, IfOk, string_bytes, map};
ghost use Rattle.std.specs.List.{AllZip, flat_map};
ghost use Rattle.report_forms.specs.Grown.{Grows};
ghost use Rattle.report_explained.specs.SheetText.{blanks, line_data, IsLineText, GrowsPlaced};

use report_forms::push_text;
use std::alloc::{AllocError, Global};

/// A line of a table: what it is called, and a text for each column.
#[derive(Drop)]
pub(crate) struct Line {
    pub label: String,
    pub cells: Vec<String>,
}

/// Adds so many blanks.
fn push_blanks(text: &mut String, count: usize) -> Result<(), AllocError>
    ensures { OnOk result (Grows (string_bytes text.old) (string_bytes text.new) (blanks count)) }
{
    let mut more = count;
    while more > 0 {
        push_text(text, " ")?;
        more -= 1;
    }
    Ok(())
}

/// The width of the widest label.
fn label_width(lines: &[Line]) -> usize {
    let mut width = 0;
    for line in lines {
        width = line.label.len().max(width);
    }
    width
}

/// The width of the widest text in a column.
fn column_width(lines: &[Line], column: usize) -> usize {
    let mut width = 0;
    for line in lines {
        width = cell_width(line, column).max(width);
    }
    width
}

/// The width of a text in a column, 0 where the line has none.
fn cell_width(line: &Line, column: usize) -> usize {
    match line.cells.get(column) {
        None => 0,
        Some(cell) => cell.len(),
    }
}

/// The widths of so many columns.
fn column_widths(alloc: Global, lines: &[Line], count: usize) -> Result<Vec<usize>, AllocError> {
    let mut widths = Vec::with_capacity(alloc, count)?;
    for column in 0..count {
        widths.push(column_width(lines, column))?;
    }
    Ok(widths)
}

/// Adds the texts of a line, each to the right of its column, after so many blanks that are due.
/// It ends with the last text that is not empty.
fn push_cells(
    text: &mut String,
    cells: &[String],
    due: usize,
    widths: &[usize],
) -> Result<(), AllocError>
    ensures { OnOk result (GrowsPlaced (string_bytes text.old) (string_bytes text.new)
        (map string_bytes cells.now)) }
{
    let mut due = due;
    for (column, cell) in cells.iter().enumerate() {
        let width = widths.get(column).copied().unwrap_or(0);
        due = due.saturating_add(width.saturating_sub(cell.len()).saturating_add(2));
        if cell.is_empty() {
            continue;
        }
        push_blanks(text, due)?;
        push_text(text, cell.as_str())?;
        due = 0;
    }
    Ok(())
}

/// The text of a line: its label to the left, and each text to the right of its column.
fn line_text(
    alloc: Global,
    line: &Line,
    label_width: usize,
    widths: &[usize],
) -> Result<String, AllocError>
    ensures { IfOk result (λ text. IsLineText (line_data line.now) (string_bytes text)) }
{
    let mut text = String::new(alloc);
    let due = label_width.saturating_sub(line.label.len());
    push_text(&mut text, "  ")?;
    push_text(&mut text, line.label.as_str())?;
    push_cells(&mut text, line.cells.as_slice(), due, widths)?;
    push_text(&mut text, "\n")?;
    Ok(text)
}

/// The texts of lines, with their texts in so many columns.
pub(crate) fn line_texts(
    alloc: Global,
    lines: &[Line],
    count: usize,
) -> Result<Vec<String>, AllocError>
    ensures { IfOk result (λ texts. AllZip
        (λ line text. IsLineText (line_data line) (string_bytes text)) lines.now texts.items) }
{
    let label_width = label_width(lines);
    let widths = column_widths(alloc, lines, count)?;
    let mut texts = Vec::with_capacity(alloc, lines.len())?;
    for line in lines {
        texts.push(line_text(alloc, line, label_width, widths.as_slice())?)?;
    }
    Ok(texts)
}
