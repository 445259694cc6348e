//! Tables of both of two.

ghost use Rattle.std.specs.Prelude.{◌≡◌, ◌+◌, ◌*◌, ◌≤◌, true, length, IfOk, IfErr};
ghost use Rattle.positions.specs.Rows.{both_data, rows_size, IsClosedTable};
ghost use Rattle.positions.specs.Faults.{IsLong};

use crate::change::Change;
use crate::draft::Draft;
use crate::fault::SectionFault;
use crate::list::put_moved;
use crate::pairing::Pairing;
use crate::table::Table;
use std::alloc::{AllocError, Global};

/// The positions that begin.
fn starts(
    alloc: Global,
    pairing: &Pairing,
    first: &Table,
    second: &Table,
) -> Result<Vec<u8>, AllocError>
    requires first_placed { IsClosedTable first.now }
    requires second_placed { IsClosedTable second.now }
    requires alone { pairing.now.alone ≡ true }
    requires first_len { pairing.now.first ≡ length first.now.rows }
    requires second_len { pairing.now.second ≡ length second.now.rows }
    ensures { IfOk result (λ v. v.items ≡ (both_data first.now second.now).starts) }
{
    let mut list = pairing.pairs(alloc, first.starts(), second.starts())?;
    if second.admits_empty() {
        put_moved(&mut list, first.starts(), pairing.first_alone())?;
    }
    if first.admits_empty() {
        put_moved(&mut list, second.starts(), pairing.second_alone())?;
    }
    Ok(list)
}

/// Whether an empty match is there.
fn admits_empty(first: &Table, second: &Table) -> bool
    ensures { result ≡ (both_data first.now second.now).empty }
{
    first.admits_empty() && second.admits_empty()
}

/// Both of two, from the same tick: the pairs of their positions, and each alone where the other
/// has ended.
pub(crate) fn both(alloc: Global, first: &Table, second: &Table) -> Result<Table, SectionFault>
    requires first_placed { IsClosedTable first.now }
    requires second_placed { IsClosedTable second.now }
    requires few { length first.now.rows * length second.now.rows
        + length first.now.rows + length second.now.rows ≤ 127 }
    ensures ok { IfOk result (λ t. t ≡ both_data first.now second.now) }
    ensures short { IfOk result (λ t. rows_size t.rows ≤ 65535) }
    ensures err { IfErr result (IsLong (rows_size (both_data first.now second.now).rows)) }
{
    let pairing = Pairing {
        first: first.len(),
        second: second.len(),
        alone: true,
    };
    let firsts = first.rows();
    let seconds = second.rows();
    let mut draft = Draft::new(alloc);
    pairing.put_all(alloc, &mut draft, firsts, seconds)?;
    let first_alone = Change::by_places(alloc, pairing.first_alone());
    draft.put_rows(alloc, firsts, &first_alone)?;
    let second_alone = Change::by_places(alloc, pairing.second_alone());
    draft.put_rows(alloc, seconds, &second_alone)?;
    let starts = starts(alloc, &pairing, first, second)?;
    let empty = admits_empty(first, second);
    Ok(draft.table(starts, empty))
}
