//! Rows in the making.

ghost use Rattle.std.specs.Prelude.{◌≡◌, ◌+◌, ◌<◌, ◌≤◌, [], ◌∷◌, map, All, OnOk, IfErr};
ghost use Rattle.positions.specs.Faults.{IsLong};
ghost use Rattle.positions.specs.Rows.{DraftData, draft_size, rows_size, edges_size};
ghost use Rattle.positions.specs.Rows.{with_edges, closed, with_rows, changed, change_all};
ghost use Rattle.positions.specs.Sections.{edge_size};
ghost use Rattle.positions.specs.Views.{edge_data, change_data, rows_data, AreNear};

use crate::change::Change;
use crate::edge::Edge;
use crate::fault::SectionFault;
use crate::list::put_edge;
use crate::table::Table;
use std::alloc::Global;
use std::marker::Model;
use std::mem;

/// The most instructions that a table may make up: so many have addresses.
const LONGEST_TABLE: usize = 65535;

/// Rows in the making: those that are done, the edges of the next, and how many instructions more
/// there may be.
#[derive(Drop)]
pub(crate) struct Draft {
    rows: Vec<Vec<Edge>>,
    begun: Vec<Edge>,
    room: usize,
}

impl Model for Draft {
    ghost Value = { DraftData };

    ghost view = { λ d.
        record { rows = rows_data d.rows.items; begun = map edge_data d.begun.items } };

    ghost invariant = { λ d.
        d.room + (rows_size (rows_data d.rows.items) + edges_size (map edge_data d.begun.items))
        ≡ 65535 };
}

impl Draft {
    /// No row.
    pub fn new(alloc: Global) -> Draft
        ensures { result ≡ record { rows = []; begun = [] } }
    {
        Draft {
            rows: Vec::new(alloc),
            begun: Vec::new(alloc),
            room: LONGEST_TABLE,
        }
    }

    /// Adds an edge to the next row.
    pub fn put(&mut self, edge: Edge) -> Result<(), SectionFault>
        ensures ok { OnOk result (self.new ≡ with_edges self.old (edge_data edge ∷ [])) }
        ensures err { IfErr result (IsLong (draft_size self.old + edge_size (edge_data edge))) }
    {
        let size = edge.size();
        if size > self.room {
            return Err(SectionFault::TooLong);
        }
        put_edge(&mut self.begun, edge)?;
        self.room -= size;
        Ok(())
    }

    /// The next row is done.
    pub fn close(&mut self, alloc: Global) -> Result<(), SectionFault>
        ensures ok { OnOk result (self.new ≡ closed self.old) }
        ensures err { IfErr result (IsLong (draft_size self.old + 1)) }
    {
        if self.room == 0 {
            return Err(SectionFault::TooLong);
        }
        let row = mem::replace(&mut self.begun, Vec::new(alloc));
        match self.rows.push(row) {
            Ok(()) => {
                self.room -= 1;
                Ok(())
            }
            Err(failed) => {
                self.begun = failed.value;
                Err(SectionFault::Memory)
            }
        }
    }

    /// Adds what becomes of edges to the next row.
    pub fn put_changed(
        &mut self,
        alloc: Global,
        row: &[Edge],
        change: &Change,
    ) -> Result<(), SectionFault>
        requires { AreNear change.now.by row.now }
        ensures ok { OnOk result (self.new
            ≡ with_edges self.old
            (map (changed (change_data change.now)) (map edge_data row.now))) }
        ensures err { IfErr result (IsLong (draft_size self.old
            + edges_size (map (changed (change_data change.now)) (map edge_data row.now)))) }
    {
        for edge in row {
            self.put(edge.changed_edge(alloc, change)?)?;
        }
        Ok(())
    }

    /// Adds what becomes of rows.
    pub fn put_rows(
        &mut self,
        alloc: Global,
        rows: &[Vec<Edge>],
        change: &Change,
    ) -> Result<(), SectionFault>
        requires near { All (λ row. AreNear change.now.by row.items) rows.now }
        requires begun { self.old.begun ≡ [] }
        ensures ok { OnOk result
            (self.new
            ≡ with_rows self.old (change_all (change_data change.now) (rows_data rows.now))) }
        ensures err { IfErr result (IsLong
            (draft_size self.old
            + rows_size (change_all (change_data change.now) (rows_data rows.now)))) }
    {
        for row in rows {
            self.put_changed(alloc, row, change)?;
            self.close(alloc)?;
        }
        Ok(())
    }

    /// The table of the rows that are done.
    pub fn table(self, starts: Vec<u8>, empty: bool) -> Table
        ensures made { result ≡ record { rows = self.rows; starts = starts.items; empty = empty } }
        ensures short { rows_size result.rows ≤ 65535 }
    {
        let _ = &self.room;
        Table::new(self.rows, starts, empty)
    }
}
