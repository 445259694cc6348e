//! Tables of positions.

ghost use Rattle.std.specs.Prelude.{◌≡◌, ◌≤◌, length, map};
ghost use Rattle.positions.specs.Rows.{TableData, rows_size, edges_at, still_data};
ghost use Rattle.positions.specs.Views.{edge_data, rows_data};

use crate::edge::Edge;
use std::alloc::Global;
use std::marker::Model;

/// Positions in order, each by its edges. They make up no more than 65,535 instructions.
#[derive(Drop)]
pub(crate) struct Table {
    rows: Vec<Vec<Edge>>,
    /// The positions that begin.
    starts: Vec<u8>,
    /// Whether an empty match is there.
    empty: bool,
}

impl Model for Table {
    ghost Value = { TableData };

    ghost view = { λ t.
        record { rows = rows_data t.rows.items; starts = t.starts.items; empty = t.empty } };

    ghost invariant = { λ t. rows_size (rows_data t.rows.items) ≤ 65535 };
}

impl Table {
    /// These rows.
    pub fn new(rows: Vec<Vec<Edge>>, starts: Vec<u8>, empty: bool) -> Table
        requires { rows_size (rows_data rows.items) ≤ 65535 }
        ensures { result
            ≡ record { rows = rows_data rows.items; starts = starts.items; empty = empty } }
    {
        Table {
            rows,
            starts,
            empty,
        }
    }

    /// No position.
    pub fn still(alloc: Global, empty: bool) -> Table
        ensures { result ≡ still_data empty }
    {
        Table {
            rows: Vec::new(alloc),
            starts: Vec::new(alloc),
            empty,
        }
    }

    /// The edges of each position.
    pub fn rows(&self) -> &[Vec<Edge>]
        ensures rows { rows_data result.now ≡ self.now.rows }
        ensures short { rows_size self.now.rows ≤ 65535 }
    {
        self.rows.as_slice()
    }

    /// The positions that begin.
    pub fn starts(&self) -> &[u8]
        ensures { result.now ≡ self.now.starts }
    {
        self.starts.as_slice()
    }

    /// Whether an empty match is there.
    pub fn admits_empty(&self) -> bool
        ensures { result ≡ self.now.empty }
    {
        self.empty
    }

    /// How many positions there are.
    pub fn len(&self) -> usize
        ensures { result ≡ length self.now.rows }
    {
        self.rows.len()
    }

    /// The edges of a position, none where it isn't there.
    pub fn row(&self, position: usize) -> &[Edge]
        ensures { map edge_data result.now ≡ edges_at self.now.rows position }
    {
        match self.rows.get(position) {
            None => &[],
            Some(row) => row.as_slice(),
        }
    }
}
