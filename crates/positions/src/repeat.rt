//! Tables of repetitions.

ghost use Rattle.std.specs.Prelude.{◌≡◌, ◌*◌, ◌<◌, ◌≤◌, length, IfOk, IfErr};
ghost use Rattle.positions.specs.Rows.{copies_data, turn_data, repeat_data, rows_size};
ghost use Rattle.positions.specs.Rows.{IsClosedTable};
ghost use Rattle.positions.specs.Views.{change_data};
ghost use Rattle.positions.specs.Faults.{IsLong};

use crate::change::Change;
use crate::draft::Draft;
use crate::fault::SectionFault;
use crate::list::put_moved;
use crate::table::Table;
use std::alloc::{AllocError, Global};

/// The first positions of the copies from one on: those of the next, or where the body may be empty
/// of each.
fn copies(alloc: Global, body: &Table, first: usize, most: usize) -> Result<Vec<u8>, AllocError>
    requires placed { IsClosedTable body.now }
    requires few { most * length body.now.rows ≤ 127 }
    ensures { IfOk result (λ v. v.items ≡ copies_data body.now first most) }
{
    let rest = most.saturating_sub(first);
    let count = if body.admits_empty() {
        rest
    } else {
        rest.min(1)
    };
    let mut list = Vec::new(alloc);
    for copy in first..first + count {
        put_moved(&mut list, body.starts(), copy * body.len())?;
    }
    Ok(list)
}

/// What becomes of the edges of a copy.
fn turn(
    alloc: Global,
    body: &Table,
    least: usize,
    most: usize,
    copy: usize,
) -> Result<Change, AllocError>
    requires placed { IsClosedTable body.now }
    requires few { most * length body.now.rows ≤ 127 }
    requires within { copy < most }
    ensures { IfOk result (λ c. change_data c ≡ turn_data body.now least most copy) }
{
    Ok(Change {
        wanted: None,
        by: copy * body.len(),
        onward: copies(alloc, body, copy + 1, most)?,
        keeps: least <= most && (least <= copy + 1 || body.admits_empty()),
    })
}

/// So many matches, each directly after the one before: a copy for each.
pub(crate) fn repeat(
    alloc: Global,
    body: &Table,
    least: usize,
    most: usize,
) -> Result<Table, SectionFault>
    requires placed { IsClosedTable body.now }
    requires few { most * length body.now.rows ≤ 127 }
    ensures ok { IfOk result (λ t. t ≡ repeat_data body.now least most) }
    ensures short { IfOk result (λ t. rows_size t.rows ≤ 65535) }
    ensures err { IfErr result (IsLong (rows_size (repeat_data body.now least most).rows)) }
{
    let mut draft = Draft::new(alloc);
    for copy in 0..most {
        let change = turn(alloc, body, least, most, copy)?;
        draft.put_rows(alloc, body.rows(), &change)?;
    }
    let starts = copies(alloc, body, 0, most)?;
    let empty = least <= most && (least == 0 || body.admits_empty());
    Ok(draft.table(starts, empty))
}
