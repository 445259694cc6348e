//! Tables, with a row for each tick.

ghost use Rattle.std.specs.Prelude.{◌≡◌, ◌==◌, ◌<◌, ◌^◌, List, [], ◌∷◌, ◌++◌, length, map};
ghost use Rattle.std.specs.Prelude.{slice_index_or, OnOk, OnErr};
ghost use Rattle.std.specs.Coded.{coded_list};
ghost use Rattle.expressions.specs.Tables.{cell};

use std::alloc::{AllocError, Global};
use std::marker::Model;

/// For each tick, in order, a row of entries.
#[derive(Drop)]
pub struct Table<T: Copy> {
    rows: Vec<Vec<T>>,
}

impl<T: Copy> Model for Table<T> {
    ghost Value = { List (List T) };

    ghost coded = { coded_list (coded_list T.code) };

    ghost view = { λ r. map (λ row. row.items) r.rows.items };
}

impl<T: Copy> Table<T> {
    /// No row.
    pub fn new(alloc: Global) -> Table<T>
        ensures { result ≡ [] }
    {
        Table {
            rows: Vec::new(alloc),
        }
    }

    /// Adds the row of the next tick.
    pub fn push(&mut self, row: Vec<T>) -> Result<(), AllocError>
        ensures ok { OnOk result (self.new ≡ self.old ++ row.items ∷ []) }
        ensures err { OnErr result (self.new ≡ self.old) }
    {
        self.rows.push(row)?;
        Ok(())
    }

    /// The number of ticks.
    pub fn len(&self) -> usize
        ensures len { result ≡ length self.now }
        ensures small { result < 2 ^ 60 }
    {
        let rows = self.rows.as_slice();
        rows.len()
    }

    /// Whether there is no tick.
    pub fn is_empty(&self) -> bool
        ensures { result ≡ (length self.now == 0) }
    {
        self.rows.is_empty()
    }

    /// The row of a tick, empty where there is none.
    pub fn row(&self, tick: usize) -> &[T]
        ensures { result.now ≡ slice_index_or self.now tick [] }
    {
        match self.rows.get(tick) {
            None => &[],
            Some(row) => row.as_slice(),
        }
    }
}

impl Table<u128> {
    /// The number in a column at a tick, and 0 where there is none.
    pub fn cell(&self, tick: usize, place: usize) -> u128
        ensures { result ≡ cell self.now tick place }
    {
        self.row(tick).get(place).copied().unwrap_or(0)
    }
}
