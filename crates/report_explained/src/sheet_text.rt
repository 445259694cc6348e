//! Sheets as text.

ghost use Rattle.std.specs.Prelude.{◌≡◌, [], None, IfOk, OnOk, map, codes, decimal};
ghost use Rattle.std.specs.Prelude.{string_bytes};
ghost use Rattle.std.specs.List.{AllZip};
ghost use Rattle.report_explained.specs.SheetText.{line_data, is_gap, with_gaps, number_line};
ghost use Rattle.report_explained.specs.SheetText.{IsCellText, IsRowLine, GrowsByRow, GrowsByRows};

use crate::cells::RowSource;
use crate::columns::Line;
use crate::sheet::{Sheet, SheetRow};
use crate::values::value_text;
use std::alloc::{AllocError, Global};

/// What stands in the column of clocks that are left out.
const GAP: &str = "..";

/// What stands above the booleans, where one has the text of a signal.
const HEADING: &str = "booleans:";

/// Whether clocks between two, one after the other on a sheet, are left out.
pub fn is_gap(before: Option<usize>, clock: Option<usize>) -> bool
    ensures { result ≡ is_gap before clock }
{
    match (before, clock) {
        (Some(before), Some(clock)) => clock.saturating_sub(before) > 1,
        _ => false,
    }
}

/// Texts, one for each clock, with a column for clocks that are left out.
fn with_gaps(alloc: Global, clocks: &[usize], texts: &[String]) -> Result<Vec<String>, AllocError>
    ensures { IfOk result (λ cells. map string_bytes cells.items
        ≡ with_gaps None clocks.now (map string_bytes texts.now)) }
{
    let mut cells = Vec::new(alloc);
    let mut before = None;
    for place in 0..texts.len() {
        let clock = clocks.get(place).copied();
        if is_gap(before, clock) {
            cells.push(String::from_str(alloc, GAP)?)?;
        }
        cells.push(texts[place].clone()?)?;
        before = clock;
    }
    Ok(cells)
}

/// Numbers in decimal.
fn number_texts(alloc: Global, numbers: &[u64]) -> Result<Vec<String>, AllocError>
    ensures { IfOk result (λ texts. map string_bytes texts.items ≡ map decimal numbers.now) }
{
    let mut texts = Vec::with_capacity(alloc, numbers.len())?;
    for number in numbers {
        texts.push(format!(in alloc; "{number}")?)?;
    }
    Ok(texts)
}

/// The line of numbers, one for each clock, with a column for clocks that are left out.
pub(crate) fn numbers_line(
    alloc: Global,
    label: &str,
    numbers: &[u64],
    clocks: &[usize],
) -> Result<Line, AllocError>
    ensures { IfOk result (λ line.
        line_data line ≡ number_line label.now clocks.now numbers.now) }
{
    let texts = number_texts(alloc, numbers)?;
    let cells = with_gaps(alloc, clocks, texts.as_slice())?;
    Ok(Line {
        label: String::from_str(alloc, label)?,
        cells,
    })
}

/// A cell as text; where it has no value it is a dash, or nothing.
fn cell_text(
    alloc: Global,
    cell: Option<u128>,
    width: u8,
    blank: bool,
) -> Result<String, AllocError>
    ensures { IfOk result (λ text. IsCellText width cell (string_bytes text)) }
{
    match cell {
        Some(value) => value_text(alloc, value, width),
        None => String::from_str(alloc, if blank { "" } else { "-" }),
    }
}

/// The texts of a row's cells: a dash stands where a boolean is not asked, from the clock at which
/// its side begins up to its last value.
fn row_texts(alloc: Global, row: &SheetRow, clocks: &[usize]) -> Result<Vec<String>, AllocError>
    ensures { IfOk result (λ texts. AllZip (λ cell text. IsCellText row.now.width cell
        (string_bytes text)) row.now.cells.items texts.items) }
{
    let end = shown_end(row.cells.as_slice());
    let mut texts = Vec::with_capacity(alloc, row.cells.len())?;
    for (place, cell) in row.cells.iter().enumerate() {
        let clock = clocks.get(place).copied().unwrap_or(0);
        let blank = clock < row.from || place >= end;
        texts.push(cell_text(alloc, *cell, row.width, blank)?)?;
    }
    Ok(texts)
}

/// The line of a row.
fn row_line(alloc: Global, row: &SheetRow, clocks: &[usize]) -> Result<Line, AllocError>
    ensures { IfOk result (λ line. IsRowLine clocks.now row.now (line_data line)) }
{
    let texts = row_texts(alloc, row, clocks)?;
    let cells = with_gaps(alloc, clocks, texts.as_slice())?;
    Ok(Line {
        label: row.label.clone()?,
        cells,
    })
}

/// The place after the last cell with a value, 0 where there is none.
fn shown_end(cells: &[Option<u128>]) -> usize {
    let mut end = 0;
    for (place, cell) in cells.iter().enumerate() {
        if cell.is_some() {
            end = place + 1;
        }
    }
    end
}

/// Whether a row is of a boolean.
fn is_boolean(row: &SheetRow) -> bool {
    matches!(row.source, RowSource::Listed(_))
}

/// Whether a row before this one has the same label.
fn is_named_before(rows: &[SheetRow], row: &SheetRow) -> bool {
    for other in rows {
        if !is_boolean(other) && other.label.as_str() == row.label.as_str() {
            return true;
        }
    }
    false
}

/// Whether a signal or a counter has the text of a boolean.
fn has_doubles(rows: &[SheetRow]) -> bool {
    for row in rows {
        if is_boolean(row) && is_named_before(rows, row) {
            return true;
        }
    }
    false
}

/// The line between the signals and counters and the booleans.
fn heading_line(alloc: Global) -> Result<Line, AllocError>
    ensures { IfOk result (λ line. line_data line ≡ (codes "booleans:", [])) }
{
    Ok(Line {
        label: String::from_str(alloc, HEADING)?,
        cells: Vec::new(alloc),
    })
}

/// Adds the line of a row, after a heading if it is to have one.
fn push_row(
    alloc: Global,
    lines: &mut Vec<Line>,
    row: &SheetRow,
    clocks: &[usize],
    is_headed: bool,
) -> Result<(), AllocError>
    ensures { OnOk result (GrowsByRow clocks.now row.now (map line_data lines.old.items)
        (map line_data lines.new.items)) }
{
    if is_headed {
        lines.push(heading_line(alloc)?)?;
    }
    lines.push(row_line(alloc, row, clocks)?)?;
    Ok(())
}

/// Adds the lines of rows; where a boolean has the text of a signal or a counter, a heading stands
/// before the booleans.
pub(crate) fn push_rows(
    alloc: Global,
    lines: &mut Vec<Line>,
    sheet: &Sheet,
) -> Result<(), AllocError>
    ensures { OnOk result (GrowsByRows sheet.now.clocks.items sheet.now.rows.items
        (map line_data lines.old.items) (map line_data lines.new.items)) }
{
    let clocks = sheet.clocks.as_slice();
    let mut is_parted = !has_doubles(&sheet.rows);
    for row in &sheet.rows {
        let is_headed = !is_parted && is_boolean(row);
        push_row(alloc, lines, row, clocks, is_headed)?;
        is_parted = is_parted || is_headed;
    }
    Ok(())
}

/// How many columns the clocks take, with one for each run of clocks that are left out.
pub(crate) fn columns_of(clocks: &[usize]) -> usize {
    let mut columns = clocks.len();
    let mut before = None;
    for clock in clocks {
        if is_gap(before, Some(*clock)) {
            columns = columns.saturating_add(1);
        }
        before = Some(*clock);
    }
    columns
}
