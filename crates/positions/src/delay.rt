//! Tables of delays.

ghost use Rattle.std.specs.Prelude.{◌≡◌, ◌==◌, ◌+◌, ◌≤◌, None, nat_le, length, IfOk, IfErr};
ghost use Rattle.positions.specs.Rows.{gap_data, apart_data, lead_in_data, tick_data};
ghost use Rattle.positions.specs.Rows.{repeat_data};
ghost use Rattle.positions.specs.Rows.{rows_size, IsClosedTable};
ghost use Rattle.positions.specs.Faults.{IsLong};

use crate::alternatives::tick;
use crate::fault::SectionFault;
use crate::link::link;
use crate::repeat::repeat;
use crate::table::Table;
use std::alloc::Global;

/// So many ticks, whatever is true at them.
fn ticks(alloc: Global, least: usize, most: usize) -> Result<Table, SectionFault>
    requires { most ≤ 127 }
    ensures ok { IfOk result (λ t. t ≡ repeat_data (tick_data None) least most) }
    ensures err { IfErr result (λ fault. fault ≡ SectionFault.Memory) }
{
    repeat(alloc, &tick(alloc, None)?, least, most)
}

/// What lies between the two parts of a delay of one tick or more.
fn gap(alloc: Global, least: usize, most: usize) -> Result<Table, SectionFault>
    requires { most ≤ 127 }
    ensures ok { IfOk result (λ t. t ≡ gap_data least most) }
    ensures err { IfErr result (λ fault. fault ≡ SectionFault.Memory) }
{
    if most == 0 {
        return Ok(Table::still(alloc, true));
    }
    ticks(alloc, least.saturating_sub(1), most - 1)
}

/// Whether the two parts may share a tick.
fn is_fused(least: usize) -> bool
    ensures { result ≡ (least == 0) }
{
    least == 0
}

/// Whether the second part may begin later.
fn is_later(most: usize) -> bool
    ensures { result ≡ nat_le 1 most }
{
    most >= 1
}

/// `first ##[least:most] second`
pub(crate) fn apart(
    alloc: Global,
    first: &Table,
    second: &Table,
    least: usize,
    most: usize,
) -> Result<Table, SectionFault>
    requires first_placed { IsClosedTable first.now }
    requires second_placed { IsClosedTable second.now }
    requires few { length first.now.rows + length second.now.rows + most ≤ 127 }
    ensures ok { IfOk result (λ t. t ≡ apart_data first.now second.now least most) }
    ensures short { IfOk result (λ t. rows_size t.rows ≤ 65535) }
    ensures err { IfErr result
        (IsLong (rows_size (apart_data first.now second.now least most).rows)) }
{
    let between = gap(alloc, least, most)?;
    let fuses = is_fused(least);
    let follows = is_later(most);
    link(alloc, fuses, follows, first, &between, second)
}

/// `##[least:most] body`
pub(crate) fn lead_in(
    alloc: Global,
    least: usize,
    most: usize,
    body: &Table,
) -> Result<Table, SectionFault>
    requires placed { IsClosedTable body.now }
    requires few { length body.now.rows + most ≤ 127 }
    ensures ok { IfOk result (λ t. t ≡ lead_in_data least most body.now) }
    ensures short { IfOk result (λ t. rows_size t.rows ≤ 65535) }
    ensures err { IfErr result (IsLong (rows_size (lead_in_data least most body.now).rows)) }
{
    let delay = ticks(alloc, least, most)?;
    let none = Table::still(alloc, true);
    link(alloc, false, true, &delay, &none, body)
}
