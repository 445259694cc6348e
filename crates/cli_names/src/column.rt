//! The columns of a table.

ghost use Rattle.std.specs.Prelude.{◌≡◌, map, max};
ghost use Rattle.cli_names.specs.Rows.{row_data};
ghost use Rattle.cli_names.specs.Tables.{cell, most, width_of};

use crate::rows::Row;

/// A column of a table.
#[derive(Clone, Copy)]
pub(crate) enum Column {
    Path,
    Size,
    Range,
    Kind,
}

impl Column {
    /// A column is no wider than that.
    fn most(self) -> usize
        ensures { result ≡ most self }
    {
        match self {
            Column::Path => 60,
            Column::Size => 10,
            Column::Range => 16,
            Column::Kind => 16,
        }
    }
}

/// The text of a row in a column.
pub(crate) fn cell<'r>(row: &'r Row<'_>, column: Column) -> &'r [u8]
    ensures { result.now ≡ cell column (row_data row.now) }
{
    match column {
        Column::Path => row.spelling.path(),
        Column::Size => row.size.as_bytes(),
        Column::Range => row.spelling.range(),
        Column::Kind => row.kind,
    }
}

/// The larger of two numbers.
fn larger(left: usize, right: usize) -> usize
    ensures { result ≡ max left right }
{
    if left < right { right } else { left }
}

/// The width of a column: that of its widest text, at most `most`.
pub(crate) fn width_of(rows: &[Row<'_>], column: Column) -> usize
    ensures { result ≡ width_of column (map row_data rows.now) }
{
    let mut width = 0;
    for row in rows {
        width = larger(width, cell(row, column).len().min(column.most()));
    }
    width
}
