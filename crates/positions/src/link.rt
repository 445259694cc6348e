//! Tables of joinings: one part, what lies between, and another part.

ghost use Rattle.std.specs.Prelude.{◌≡◌, ◌+◌, ◌≤◌, [], length, map, All, OnOk, IfOk, IfErr};
ghost use Rattle.std.specs.List.{flat_map};
ghost use Rattle.positions.specs.Rows.{leading_data, crossing_data, onward_data};
ghost use Rattle.positions.specs.Rows.{link_data};
ghost use Rattle.positions.specs.Rows.{rows_size, IsClosedTable};
ghost use Rattle.positions.specs.Views.{change_data};
ghost use Rattle.positions.specs.Faults.{IsLong};

use crate::change::Change;
use crate::draft::Draft;
use crate::fault::SectionFault;
use crate::lead::Lead;
use crate::list::put_moved;
use crate::table::Table;
use std::alloc::{AllocError, Global};

/// What comes after a match of the first part: the first positions of what lies between, and past
/// it where it may be empty those of the second part.
fn onward_places(
    alloc: Global,
    first: &Table,
    between: &Table,
    second: &Table,
) -> Result<Vec<u8>, AllocError>
    requires between_placed { IsClosedTable between.now }
    requires second_placed { IsClosedTable second.now }
    requires few { length first.now.rows + length between.now.rows + length second.now.rows ≤ 127 }
    ensures { IfOk result (λ v. v.items ≡ onward_data first.now between.now second.now) }
{
    let mut list = Vec::new(alloc);
    put_moved(&mut list, between.starts(), first.len())?;
    if between.admits_empty() {
        put_moved(&mut list, second.starts(), first.len() + between.len())?;
    }
    Ok(list)
}

/// What becomes of the edges of the first part.
fn leading_change(
    alloc: Global,
    follows: bool,
    first: &Table,
    between: &Table,
    second: &Table,
) -> Result<Change, AllocError>
    requires between_placed { IsClosedTable between.now }
    requires second_placed { IsClosedTable second.now }
    requires few { length first.now.rows + length between.now.rows + length second.now.rows ≤ 127 }
    ensures { IfOk result
        (λ c. change_data c ≡ leading_data follows first.now between.now second.now) }
{
    let onward = if follows {
        onward_places(alloc, first, between, second)?
    } else {
        Vec::new(alloc)
    };
    Ok(Change {
        wanted: None,
        by: 0,
        onward,
        keeps: follows && (between.admits_empty() && second.admits_empty()),
    })
}

/// What becomes of the edges of what lies between.
fn crossing_change(
    alloc: Global,
    first: &Table,
    between: &Table,
    second: &Table,
) -> Result<Change, AllocError>
    requires second_placed { IsClosedTable second.now }
    requires few { length first.now.rows + length between.now.rows + length second.now.rows ≤ 127 }
    ensures { IfOk result (λ c. change_data c ≡ crossing_data first.now between.now second.now) }
{
    let mut onward = Vec::new(alloc);
    put_moved(&mut onward, second.starts(), first.len() + between.len())?;
    Ok(Change {
        wanted: None,
        by: first.len(),
        onward,
        keeps: second.admits_empty(),
    })
}

/// The positions that begin.
fn starts(
    alloc: Global,
    follows: bool,
    first: &Table,
    between: &Table,
    second: &Table,
) -> Result<Vec<u8>, AllocError>
    requires between_placed { IsClosedTable between.now }
    requires second_placed { IsClosedTable second.now }
    requires few { length first.now.rows + length between.now.rows + length second.now.rows ≤ 127 }
    ensures { IfOk result
        (λ v. v.items ≡ (link_data follows follows first.now between.now second.now).starts) }
{
    let mut list = Vec::from_slice(alloc, first.starts())?;
    if follows && first.admits_empty() {
        let more = onward_places(alloc, first, between, second)?;
        list.extend_from_slice(&more)?;
    }
    Ok(list)
}

/// Whether an empty match is there.
fn admits_empty(follows: bool, first: &Table, between: &Table, second: &Table) -> bool
    ensures { result ≡ (link_data follows follows first.now between.now second.now).empty }
{
    follows && (first.admits_empty() && (between.admits_empty() && second.admits_empty()))
}

/// The first part and then the second: with its first tick on the last of the first where it may
/// fuse, and after what lies between where it may follow.
pub(crate) fn link(
    alloc: Global,
    fuses: bool,
    follows: bool,
    first: &Table,
    between: &Table,
    second: &Table,
) -> Result<Table, SectionFault>
    requires first_placed { IsClosedTable first.now }
    requires between_placed { IsClosedTable between.now }
    requires second_placed { IsClosedTable second.now }
    requires few { length first.now.rows + length between.now.rows + length second.now.rows ≤ 127 }
    ensures ok { IfOk result (λ t. t ≡ link_data fuses follows first.now between.now second.now) }
    ensures short { IfOk result (λ t. rows_size t.rows ≤ 65535) }
    ensures err { IfErr result (IsLong
        (rows_size (link_data fuses follows first.now between.now second.now).rows)) }
{
    let by = first.len() + between.len();
    let lead = Lead {
        change: leading_change(alloc, follows, first, between, second)?,
        fuses,
        by,
    };
    let mut draft = Draft::new(alloc);
    lead.put_rows(alloc, &mut draft, first.rows(), second)?;
    let change = crossing_change(alloc, first, between, second)?;
    draft.put_rows(alloc, between.rows(), &change)?;
    draft.put_rows(alloc, second.rows(), &Change::by_places(alloc, by))?;
    let starts = starts(alloc, follows, first, between, second)?;
    let empty = admits_empty(follows, first, between, second);
    Ok(draft.table(starts, empty))
}
