//! Edges of the first part of a joining.

ghost use Rattle.std.specs.Prelude.{◌≡◌, ◌+◌, ◌≤◌, ◌&&◌, [], length, map, All, OnOk, IfErr};
ghost use Rattle.std.specs.List.{flat_map};
ghost use Rattle.positions.specs.Rows.{fused_data, lead_data, joined_data};
ghost use Rattle.positions.specs.Rows.{edges_size, rows_size, draft_size};
ghost use Rattle.positions.specs.Rows.{with_edges, with_rows, IsClosedTable};
ghost use Rattle.positions.specs.Views.{edge_data, change_data, rows_data, AreNear};
ghost use Rattle.positions.specs.Views.{IsNear};
ghost use Rattle.positions.specs.Faults.{IsLong};

use crate::change::Change;
use crate::draft::Draft;
use crate::edge::Edge;
use crate::fault::SectionFault;
use crate::table::Table;
use std::alloc::Global;

/// What becomes of the edges of a first part: they are changed, and where they accept and the
/// second part may begin with the same tick, they do what its first positions do, which lie so much
/// further on.
#[derive(Drop)]
pub(crate) struct Lead {
    pub change: Change,
    pub fuses: bool,
    pub by: usize,
}

/// Puts an edge that does what each of others does at its tick.
fn put_joined(
    alloc: Global,
    draft: &mut Draft,
    edge: &Edge,
    row: &[Edge],
    by: usize,
) -> Result<(), SectionFault>
    requires { AreNear by row.now }
    ensures ok { OnOk result (draft.new
        ≡ with_edges draft.old
        (map (joined_data by (edge_data edge.now)) (map edge_data row.now))) }
    ensures err { IfErr result (IsLong (draft_size draft.old
        + edges_size (map (joined_data by (edge_data edge.now)) (map edge_data row.now)))) }
{
    for other in row {
        draft.put(edge.joined_edge(alloc, other, by)?)?;
    }
    Ok(())
}

/// Puts the edges that do at their tick what the first positions of the second part do.
fn put_fused(
    alloc: Global,
    draft: &mut Draft,
    edge: &Edge,
    second: &Table,
    by: usize,
) -> Result<(), SectionFault>
    requires placed { IsClosedTable second.now }
    requires few { by + length second.now.rows ≤ 127 }
    ensures ok { OnOk result
        (draft.new ≡ with_edges draft.old (fused_data by second.now (edge_data edge.now))) }
    ensures err { IfErr result (IsLong
        (draft_size draft.old + edges_size (fused_data by second.now (edge_data edge.now)))) }
{
    for position in second.starts() {
        put_joined(alloc, draft, edge, second.row(*position as usize), by)?;
    }
    Ok(())
}

impl Lead {
    /// Puts what becomes of an edge.
    fn put(
        &self,
        alloc: Global,
        draft: &mut Draft,
        edge: &Edge,
        second: &Table,
    ) -> Result<(), SectionFault>
        requires near { IsNear self.now.change.by edge.now }
        requires placed { IsClosedTable second.now }
        requires few { self.now.by + length second.now.rows ≤ 127 }
        ensures ok { OnOk result (draft.new ≡ with_edges draft.old
            (lead_data self.now.fuses (change_data self.now.change) self.now.by second.now
            (edge_data edge.now))) }
        ensures err { IfErr result (IsLong (draft_size draft.old + edges_size
            (lead_data self.now.fuses (change_data self.now.change) self.now.by second.now
            (edge_data edge.now)))) }
    {
        draft.put(edge.changed_edge(alloc, &self.change)?)?;
        if edge.accepts && self.fuses {
            put_fused(alloc, draft, edge, second, self.by)?;
        }
        Ok(())
    }

    /// Puts what becomes of the edges of a position.
    fn put_row(
        &self,
        alloc: Global,
        draft: &mut Draft,
        row: &[Edge],
        second: &Table,
    ) -> Result<(), SectionFault>
        requires near { AreNear self.now.change.by row.now }
        requires placed { IsClosedTable second.now }
        requires few { self.now.by + length second.now.rows ≤ 127 }
        ensures ok { OnOk result (draft.new ≡ with_edges draft.old (flat_map
            (lead_data self.now.fuses (change_data self.now.change) self.now.by second.now)
            (map edge_data row.now))) }
        ensures err { IfErr result (IsLong (draft_size draft.old + edges_size (flat_map
            (lead_data self.now.fuses (change_data self.now.change) self.now.by second.now)
            (map edge_data row.now)))) }
    {
        for edge in row {
            self.put(alloc, draft, edge, second)?;
        }
        Ok(())
    }

    /// Puts what becomes of rows.
    pub fn put_rows(
        &self,
        alloc: Global,
        draft: &mut Draft,
        rows: &[Vec<Edge>],
        second: &Table,
    ) -> Result<(), SectionFault>
        requires near { All (λ row. AreNear self.now.change.by row.items) rows.now }
        requires placed { IsClosedTable second.now }
        requires few { self.now.by + length second.now.rows ≤ 127 }
        requires begun { draft.old.begun ≡ [] }
        ensures ok { OnOk result (draft.new ≡ with_rows draft.old (map (flat_map
            (lead_data self.now.fuses (change_data self.now.change) self.now.by second.now))
            (rows_data rows.now))) }
        ensures err { IfErr result (IsLong (draft_size draft.old + rows_size (map (flat_map
            (lead_data self.now.fuses (change_data self.now.change) self.now.by second.now))
            (rows_data rows.now)))) }
    {
        for row in rows {
            self.put_row(alloc, draft, row, second)?;
            draft.close(alloc)?;
        }
        Ok(())
    }
}
