//! Tables of the forms that take their parts as they are.

ghost use Rattle.std.specs.Prelude.{◌≡◌, ◌+◌, ◌≤◌, length, IfOk, IfErr};
ghost use Rattle.positions.specs.Rows.{tick_data, either_data, during_data, rows_size};
ghost use Rattle.positions.specs.Rows.{IsClosedTable};
ghost use Rattle.positions.specs.Faults.{IsLong};

use crate::change::Change;
use crate::draft::Draft;
use crate::edge::Edge;
use crate::fault::SectionFault;
use crate::list::{put_edge, put_moved};
use crate::table::Table;
use std::alloc::{AllocError, Global};

/// One tick, at which the atom is 1.
pub(crate) fn tick(alloc: Global, wanted: Option<u8>) -> Result<Table, AllocError>
    ensures { IfOk result (λ t. t ≡ tick_data wanted) }
{
    let mut atoms = Vec::new(alloc);
    if let Some(atom) = wanted {
        atoms.push(atom)?;
    }
    let mut row = Vec::new(alloc);
    let edge = Edge {
        wanted: atoms,
        enters: Vec::new(alloc),
        accepts: true,
    };
    put_edge(&mut row, edge)?;
    let mut rows = Vec::new(alloc);
    rows.push(row)?;
    let mut starts = Vec::new(alloc);
    starts.push(0)?;
    Ok(Table::new(rows, starts, false))
}

/// Either of two: the positions of both, side by side.
pub(crate) fn either(alloc: Global, first: &Table, second: &Table) -> Result<Table, SectionFault>
    requires first_placed { IsClosedTable first.now }
    requires second_placed { IsClosedTable second.now }
    requires few { length first.now.rows + length second.now.rows ≤ 127 }
    ensures ok { IfOk result (λ t. t ≡ either_data first.now second.now) }
    ensures short { IfOk result (λ t. rows_size t.rows ≤ 65535) }
    ensures err { IfErr result (IsLong (rows_size (either_data first.now second.now).rows)) }
{
    let mut draft = Draft::new(alloc);
    draft.put_rows(alloc, first.rows(), &Change::by_places(alloc, 0))?;
    draft.put_rows(alloc, second.rows(), &Change::by_places(alloc, first.len()))?;
    let mut starts = Vec::from_slice(alloc, first.starts())?;
    put_moved(&mut starts, second.starts(), first.len())?;
    Ok(draft.table(starts, first.admits_empty() || second.admits_empty()))
}

/// The boolean of an atom is true at each tick.
pub(crate) fn during(alloc: Global, wanted: Option<u8>, body: &Table) -> Result<Table, SectionFault>
    requires { IsClosedTable body.now }
    ensures ok { IfOk result (λ t. t ≡ during_data wanted body.now) }
    ensures short { IfOk result (λ t. rows_size t.rows ≤ 65535) }
    ensures err { IfErr result (IsLong (rows_size (during_data wanted body.now).rows)) }
{
    let change = Change {
        wanted,
        by: 0,
        onward: Vec::new(alloc),
        keeps: true,
    };
    let mut draft = Draft::new(alloc);
    draft.put_rows(alloc, body.rows(), &change)?;
    let starts = Vec::from_slice(alloc, body.starts())?;
    Ok(draft.table(starts, body.admits_empty()))
}
