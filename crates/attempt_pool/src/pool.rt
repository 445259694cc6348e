//! Pools of records.

ghost use Rattle.std.specs.Prelude.{◌≡◌, ◌<◌, ◌≤◌, ◌++◌, ◌∷◌, [], None, Some, IfOk, IsSome};
ghost use Rattle.std.specs.Prelude.{length, nat_eq};
ghost use Rattle.std.specs.List.{IsDistinct};
ghost use Rattle.std.specs.Map.{lookup, set_value, remove_entry, keys_of};
ghost use Rattle.attempt_pool.specs.Pooled.{pooled, first_slot, slot_after};

use crate::nodes::Nodes;
use crate::slot::Slot;
use std::alloc::{AllocError, Global};
use std::marker::Model;

/// Records under slots, in order of opening.
#[derive(Drop)]
pub struct Pool<T: Copy> {
    nodes: Nodes<T>,
    // The first free node.
    free: usize,
    len: usize,
}

impl<T: Copy> Model for Pool<T> {
    ghost use Rattle.attempt_pool.specs.Pooled.{Pooled, pooled_code};

    ghost Value = { Pooled T };

    ghost coded = { pooled_code T.code };

    ghost use Rattle.attempt_pool.specs.Lists.{pool_of, IsPool};

    ghost view = { λ p. pool_of p.nodes p.len };

    ghost invariant = { λ p. IsPool p.nodes p.free p.len };
}

impl<T: Copy> Pool<T> {
    /// A pool for `cap` records. No other call takes memory.
    pub fn new(alloc: Global, cap: usize) -> Result<Pool<T>, AllocError>
        requires least { 0 < cap }
        requires most { cap ≤ 1024 }
        ensures { IfOk result (λ pool. pool ≡ pooled cap []) }
    {
        let nodes = Nodes::new(alloc, cap)?;
        Ok(Pool {
            nodes,
            free: 1,
            len: 0,
        })
    }

    /// How many records are live.
    pub fn len(&self) -> usize
        ensures count { result ≡ length self.now.live }
        ensures bound { length self.now.live ≤ self.now.cap }
        ensures distinct { IsDistinct nat_eq (keys_of self.now.live) }
    {
        self.len
    }

    /// How many records may be live.
    pub fn cap(&self) -> usize
        ensures { result ≡ self.now.cap }
    {
        self.nodes.cap()
    }

    /// Adds a record after all that are live.
    pub fn open(&mut self, item: T) -> Slot
        requires { length self.old.live < self.old.cap }
        ensures pool { self.new ≡ pooled self.old.cap (self.old.live ++ (result, item) ∷ []) }
        ensures fresh { lookup (nat_eq result) self.old.live ≡ None }
    {
        let place = self.free;
        let last = self.nodes.prev(0);
        self.free = self.nodes.next(place);
        self.nodes.set_item(place, item);
        self.nodes.set_prev(place, last);
        self.nodes.set_next(place, 0);
        self.nodes.set_next(last, place);
        self.nodes.set_prev(0, place);
        self.len += 1;
        Slot { place }
    }

    /// The slot of the record that was opened first.
    pub fn first(&self) -> Option<Slot>
        ensures slot { result ≡ first_slot self.now.live }
        ensures distinct { IsDistinct nat_eq (keys_of self.now.live) }
    {
        let place = self.nodes.next(0);
        if place == 0 {
            None
        } else {
            Some(Slot { place })
        }
    }

    /// The slot of the record that was opened next after that of `slot`.
    pub fn next(&self, slot: Slot) -> Option<Slot>
        requires { IsSome (lookup (nat_eq slot) self.now.live) }
        ensures { result ≡ slot_after slot self.now.live }
    {
        let place = self.nodes.next(slot.place);
        if place == 0 {
            None
        } else {
            Some(Slot { place })
        }
    }

    /// The record of a slot.
    pub fn get(&self, slot: Slot) -> T
        requires { IsSome (lookup (nat_eq slot) self.now.live) }
        ensures { lookup (nat_eq slot) self.now.live ≡ Some result }
    {
        match self.nodes.item(slot.place) {
            Some(item) => item,
            None => unreachable!(),
        }
    }

    /// Puts another record into a slot.
    pub fn set(&mut self, slot: Slot, item: T)
        requires { IsSome (lookup (nat_eq slot) self.old.live) }
        ensures { self.new ≡ pooled self.old.cap (set_value (nat_eq slot) self.old.live item) }
    {
        self.nodes.set_item(slot.place, item);
    }

    /// Takes a record out. Its slot is free from then on.
    pub fn retire(&mut self, slot: Slot)
        requires { IsSome (lookup (nat_eq slot) self.old.live) }
        ensures { self.new ≡ pooled self.old.cap (remove_entry (nat_eq slot) self.old.live) }
    {
        let before = self.nodes.prev(slot.place);
        let behind = self.nodes.next(slot.place);
        self.nodes.set_next(before, behind);
        self.nodes.set_prev(behind, before);
        self.nodes.set_next(slot.place, self.free);
        self.free = slot.place;
        self.len -= 1;
    }
}
