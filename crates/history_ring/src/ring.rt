//! The ring: rows that turn in a store of values.

ghost use Rattle.std.specs.Prelude.{◌≡◌, ◌<◌, ◌≤◌, [], length, get_or, IfOk};
ghost use Rattle.history_ring.specs.History.{cleared, pushed, KeepsLastRows};
ghost use Rattle.history_ring.specs.Turned.{IsRowBefore, IsBehind};

use crate::store::Store;
use std::alloc::{AllocError, Global};
use std::marker::Model;

/// The last `depth + 1` rows of `slots` values each, newest first; rows of zeros before the first.
#[derive(Drop)]
pub struct Ring {
    store: Store,
    depth: usize,
    slots: usize,
    newest: usize,
}

impl Model for Ring {
    ghost use Rattle.history_ring.specs.History.{History, history_code};

    ghost Value = { History };

    ghost coded = { history_code };

    ghost use Rattle.history_ring.specs.Turned.{history_of, IsTurned};

    ghost view = { λ r. history_of r.depth r.slots r.newest r.store };

    ghost invariant = { λ r. IsTurned r.depth r.slots r.newest r.store };
}

/// The row that the next push writes.
fn before(depth: usize, newest: usize) -> usize
    requires { newest ≤ depth }
    ensures { IsRowBefore depth newest result }
{
    if newest == 0 { depth } else { newest - 1 }
}

/// The row that was written so many pushes before the newest.
fn behind(depth: usize, newest: usize, back: usize) -> usize
    requires most { depth ≤ 4096 }
    requires newest { newest ≤ depth }
    requires back { back ≤ depth }
    ensures { IsBehind depth newest back result }
{
    let row = newest + back;
    if row > depth { row - depth - 1 } else { row }
}

impl Ring {
    /// A ring of zeros. Takes the memory for all its rows; no other call takes any.
    pub fn new(alloc: Global, depth: usize, slots: usize) -> Result<Ring, AllocError>
        requires depth { depth ≤ 4096 }
        requires some_slots { 1 ≤ slots }
        requires at_most_256 { slots ≤ 256 }
        ensures { IfOk result (λ ring. ring ≡ cleared depth slots) }
    {
        let store = Store::new(alloc, (depth + 1) * slots)?;
        Ok(Ring {
            store,
            depth,
            slots,
            newest: 0,
        })
    }

    /// Writes over the oldest row, which is now the newest.
    pub fn push(&mut self, row: &[u128])
        requires { length row.now ≡ self.old.slots }
        ensures { self.new ≡ pushed self.old row.now }
    {
        let newest = before(self.depth, self.newest);
        self.store.write(newest * self.slots, row);
        self.newest = newest;
    }

    /// The value of a slot, so many pushes back: 0 is the row that was pushed last.
    pub fn get(&self, back: usize, slot: usize) -> u128
        requires reach { back ≤ self.now.depth }
        requires range { slot < self.now.slots }
        ensures { result ≡ get_or (get_or self.now.rows back []) slot 0 }
    {
        let row = behind(self.depth, self.newest, back);
        self.store.read(row * self.slots + slot)
    }
}

/// A ring to which rows were pushed holds the last of them, with zeros before the first.
pub fn last_rows_law()
    ensures { KeepsLastRows }
{}
