//! Tables of two that end together.

ghost use Rattle.std.specs.Prelude.{◌≡◌, ◌*◌, ◌≤◌, length, IfOk, IfErr};
ghost use Rattle.positions.specs.Rows.{pair_data, rows_size, IsClosedTable};
ghost use Rattle.positions.specs.Faults.{IsLong};

use crate::draft::Draft;
use crate::fault::SectionFault;
use crate::pairing::Pairing;
use crate::table::Table;
use std::alloc::Global;

/// Whether an empty match is there.
fn admits_empty(first: &Table, second: &Table) -> bool
    ensures { result ≡ (pair_data first.now second.now).empty }
{
    first.admits_empty() && second.admits_empty()
}

/// Both of two, from the same tick to the same tick: the pairs of their positions.
pub(crate) fn pair(alloc: Global, first: &Table, second: &Table) -> Result<Table, SectionFault>
    requires first_placed { IsClosedTable first.now }
    requires second_placed { IsClosedTable second.now }
    requires few { length first.now.rows * length second.now.rows ≤ 127 }
    ensures ok { IfOk result (λ t. t ≡ pair_data first.now second.now) }
    ensures short { IfOk result (λ t. rows_size t.rows ≤ 65535) }
    ensures err { IfErr result (IsLong (rows_size (pair_data first.now second.now).rows)) }
{
    let pairing = Pairing {
        first: first.len(),
        second: second.len(),
        alone: false,
    };
    let mut draft = Draft::new(alloc);
    pairing.put_all(alloc, &mut draft, first.rows(), second.rows())?;
    let starts = pairing.pairs(alloc, first.starts(), second.starts())?;
    let empty = admits_empty(first, second);
    Ok(draft.table(starts, empty))
}
