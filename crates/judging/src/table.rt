//! Tables of marks.

ghost use Rattle.std.specs.Prelude.{◌≡◌, Bool};
ghost use Rattle.judging.specs.Tables.{marks};

/// For each place, in order, a row of marks.
pub(crate) type Table = expressions::Table<bool>;

/// Whether the row has a place.
pub(crate) fn is_marked(row: &[bool], place: usize) -> bool
    ensures { result ≡ marks row.now place }
{
    row.get(place).copied().unwrap_or(false)
}
