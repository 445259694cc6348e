//! The values of a row as a drawing.

ghost use Rattle.std.specs.Prelude.{◌≡◌, [], ◌∷◌, OnOk, string_bytes};
ghost use Rattle.report_forms.specs.Grown.{Grows};
ghost use Rattle.report_page.specs.Pictures.{step_text, Draws, DrawsSteps, DrawsCell, DrawsBoxes};
ghost use Rattle.report_page.specs.Pictures.{DrawsValues, DrawsRow};

use crate::canvas::{Anchor, Class, push_box, push_label};
use crate::grid::{Grid, ROW};
use report_explained::{SheetRow, value_text};
use report_forms::{push_number, push_text};
use std::alloc::{AllocError, Global};

/// How far waves and boxes stay from the upper and the lower side of their row.
const SPACE: usize = 6;

/// How far below the upper side of a row its text stands.
pub(crate) const BASE: usize = 18;

/// The height at which a wave stands in a row whose upper side is given.
fn level_of(top: usize, value: u128) -> usize {
    if value == 0 {
        top.saturating_add(ROW - SPACE)
    } else {
        top.saturating_add(SPACE)
    }
}

/// Adds the step of a wave through a column: on from the last one, or anew where that had no value.
fn push_step(
    text: &mut String,
    goes_on: bool,
    left: usize,
    right: usize,
    level: usize,
) -> Result<(), AllocError>
    ensures { OnOk result (Grows (string_bytes text.old) (string_bytes text.new) (step_text
        (record { goes_on = goes_on; left = left; right = right; level = level }))) }
{
    if goes_on {
        push_number(text, "V", level as u64)?;
    } else {
        push_number(text, "M", left as u64)?;
        push_number(text, " ", level as u64)?;
    }
    push_number(text, "H", right as u64)
}

/// Whether the column at a place goes on from the one before it: both have a value, and no free
/// column stands between.
fn goes_on(row: &SheetRow, grid: &Grid, place: usize) -> bool {
    if place == 0 {
        return false;
    }
    let before = row.cells.get(place - 1).copied().unwrap_or(None);
    before.is_some() && grid.right(place - 1) == grid.left(place)
}

/// Adds the step of a cell, if it has a value.
fn push_cell_step(
    text: &mut String,
    row: &SheetRow,
    grid: &Grid,
    place: usize,
    top: usize,
) -> Result<(), AllocError>
    ensures { OnOk result (DrawsSteps (string_bytes text.old) (string_bytes text.new)) }
{
    match row.cells.get(place).copied() {
        Some(Some(value)) => {
            let level = level_of(top, value);
            let is_on = goes_on(row, grid, place);
            push_step(text, is_on, grid.left(place), grid.right(place), level)?;
            Ok(())
        }
        _ => Ok(()),
    }
}

/// Adds the steps of a row of one bit.
fn push_steps(text: &mut String, row: &SheetRow, grid: &Grid, top: usize) -> Result<(), AllocError>
    ensures { OnOk result (DrawsSteps (string_bytes text.old) (string_bytes text.new)) }
{
    for place in 0..row.cells.len() {
        push_cell_step(text, row, grid, place, top)?;
    }
    Ok(())
}

/// Adds the wave of a row of one bit.
fn push_wave(text: &mut String, row: &SheetRow, grid: &Grid, top: usize) -> Result<(), AllocError>
    ensures { OnOk result (Draws (string_bytes text.old) (string_bytes text.new) []) }
{
    push_text(text, "<path class=\"wave\" d=\"")?;
    push_steps(text, row, grid, top)?;
    push_text(text, "\"/>\n")?;
    Ok(())
}

/// Adds the box of a cell with its value, if it has one.
fn push_cell_box(
    alloc: Global,
    text: &mut String,
    grid: &Grid,
    place: usize,
    top: usize,
    cell: Option<u128>,
    width: u8,
) -> Result<(), AllocError>
    ensures { OnOk result
        (DrawsCell width cell (string_bytes text.old) (string_bytes text.new)) }
{
    match cell {
        None => Ok(()),
        Some(value) => {
            let value = value_text(alloc, value, width)?;
            push_value_box(text, grid, place, top, value.as_str())?;
            Ok(())
        }
    }
}

/// Adds the boxes of a row of several bits, each with its value.
fn push_boxes(
    alloc: Global,
    text: &mut String,
    row: &SheetRow,
    grid: &Grid,
    top: usize,
) -> Result<(), AllocError>
    ensures { OnOk result (DrawsBoxes row.now.width row.now.cells.items
        (string_bytes text.old) (string_bytes text.new)) }
{
    for (place, cell) in row.cells.iter().enumerate() {
        push_cell_box(alloc, text, grid, place, top, *cell, row.width)?;
    }
    Ok(())
}

/// Adds the box of a value.
fn push_value_box(
    text: &mut String,
    grid: &Grid,
    place: usize,
    top: usize,
    value: &str,
) -> Result<(), AllocError>
    ensures { OnOk result
        (Draws (string_bytes text.old) (string_bytes text.new) (value.now ∷ [])) }
{
    let upper = top.saturating_add(SPACE - 2);
    let height = ROW - 2 * (SPACE - 2);
    let left = grid.left(place);
    push_box(text, Class::Frame, left, upper, grid.width, height)?;
    let (middle, base) = (grid.middle(place), top.saturating_add(BASE));
    push_label(text, Class::Value, Anchor::Middle, middle, base, value)?;
    Ok(())
}

/// Adds the values of a row: a wave of one bit, and boxes of several.
fn push_values(
    alloc: Global,
    text: &mut String,
    row: &SheetRow,
    grid: &Grid,
    top: usize,
) -> Result<(), AllocError>
    ensures { OnOk result (DrawsValues row.now (string_bytes text.old) (string_bytes text.new)) }
{
    if row.width == 1 {
        push_wave(text, row, grid, top)?;
    } else {
        push_boxes(alloc, text, row, grid, top)?;
    }
    Ok(())
}

/// Adds a row of a sheet: its label, and its values.
pub(crate) fn push_row(
    alloc: Global,
    text: &mut String,
    row: &SheetRow,
    grid: &Grid,
    number: usize,
) -> Result<(), AllocError>
    ensures { OnOk result (DrawsRow row.now (string_bytes text.old) (string_bytes text.new)) }
{
    let top = grid.row_top(number);
    let base = top.saturating_add(BASE);
    push_label(
        text,
        Class::Name,
        Anchor::Start,
        0,
        base,
        row.label.as_str(),
    )?;
    push_values(alloc, text, row, grid, top)?;
    Ok(())
}
