//! Where the columns and rows of a picture stand.

use report_explained::{Sheet, SheetRow, is_gap, value_text};
use report_forms::Provenance;
use std::alloc::{AllocError, Global};

/// The height of a row.
pub(crate) const ROW: usize = 26;

/// How wide a letter of a picture is, rounded up.
const LETTER: usize = 8;

/// The rows before those of the sheet: clocks, and their times.
const HEADS: usize = 2;

/// Where columns begin, and how wide they are.
#[derive(Drop)]
pub(crate) struct Grid {
    /// The left side of each clock's column.
    pub columns: Vec<usize>,
    /// The width of a column.
    pub width: usize,
    /// How many rows there are, with the heads.
    pub rows: usize,
}

/// How many letters a number has.
pub(crate) fn number_of_letters(number: u64) -> usize {
    let mut left = number;
    let mut letters = 1usize;
    for _digit in 0..20 {
        left /= 10;
        if left != 0 {
            letters = letters.saturating_add(1);
        }
    }
    letters
}

/// How many letters the widest value of a row has.
fn letters_of_row(alloc: Global, row: &SheetRow) -> Result<usize, AllocError> {
    let mut letters = 1usize;
    for cell in &row.cells {
        if let Some(value) = cell {
            letters = value_text(alloc, *value, row.width)?.len().max(letters);
        }
    }
    Ok(letters)
}

/// How many letters the widest text of a column has.
fn letters_of_cells(
    alloc: Global,
    from: &Provenance<'_>,
    sheet: &Sheet,
) -> Result<usize, AllocError> {
    let mut letters = 3usize;
    for clock in &sheet.clocks {
        letters = number_of_letters(from.time(*clock as u64)).max(letters);
    }
    letters_of_rows(alloc, sheet, letters)
}

/// How many letters the widest value of a sheet has, at least so many.
fn letters_of_rows(alloc: Global, sheet: &Sheet, least: usize) -> Result<usize, AllocError> {
    let mut letters = least;
    for row in &sheet.rows {
        letters = letters_of_row(alloc, row)?.max(letters);
    }
    Ok(letters)
}

/// How many letters the widest label has.
fn letters_of_labels(sheet: &Sheet) -> usize {
    let mut letters = 5usize;
    for row in &sheet.rows {
        letters = row.label.len().max(letters);
    }
    letters
}

/// So many letters, with some space beside them.
fn width_of(letters: usize) -> usize {
    letters.saturating_mul(LETTER).saturating_add(16)
}

/// The left sides of columns of a width, of which the first is given; a column is left free where
/// clocks are left out.
fn columns_from(
    alloc: Global,
    clocks: &[usize],
    left: usize,
    width: usize,
) -> Result<Vec<usize>, AllocError> {
    let mut columns = Vec::with_capacity(alloc, clocks.len())?;
    let mut next = left;
    let mut before = None;
    for clock in clocks {
        if is_gap(before, Some(*clock)) {
            next = next.saturating_add(width);
        }
        columns.push(next)?;
        next = next.saturating_add(width);
        before = Some(*clock);
    }
    Ok(columns)
}

impl Grid {
    /// The grid of a sheet.
    pub fn of(alloc: Global, from: &Provenance<'_>, sheet: &Sheet) -> Result<Grid, AllocError> {
        let width = width_of(letters_of_cells(alloc, from, sheet)?);
        let left = width_of(letters_of_labels(sheet));
        let columns = columns_from(alloc, sheet.clocks.as_slice(), left, width)?;
        let rows = sheet.rows.len().saturating_add(HEADS);
        Ok(Grid {
            columns,
            width,
            rows,
        })
    }

    /// The left side of the column at a place.
    pub fn left(&self, place: usize) -> usize {
        self.columns.get(place).copied().unwrap_or(0)
    }

    /// The right side of the column at a place.
    pub fn right(&self, place: usize) -> usize {
        self.left(place).saturating_add(self.width)
    }

    /// The middle of the column at a place.
    pub fn middle(&self, place: usize) -> usize {
        self.left(place).saturating_add(self.width / 2)
    }

    /// The upper side of the row of a number, the heads among them.
    pub fn top(&self, row: usize) -> usize {
        row.saturating_mul(ROW)
    }

    /// The upper side of a row of the sheet.
    pub fn row_top(&self, row: usize) -> usize {
        self.top(row.saturating_add(HEADS))
    }

    /// The height of all rows.
    pub fn height(&self) -> usize {
        self.top(self.rows)
    }

    /// The right side of the last column.
    pub fn end(&self) -> usize {
        self.right(self.columns.len().saturating_sub(1))
    }
}
