//! The nodes of a pool, in one block.

ghost use Rattle.std.specs.Prelude.{◌≡◌, ◌<◌, ◌≤◌, ◌-◌, IfOk, length};

use crate::node::Node;
use raw_places::{Lease, Places};
use std::alloc::{AllocError, Global};
use std::marker::Model;

/// How many places at the end stay empty: of the nodes of a machine 128 bytes and more, so that
/// none shares a line of a cache with the next block, which another thread may write.
const SPARE: usize = 2;

/// Places that all hold a node, but for the spare ones, with the right to give their block back.
pub(crate) struct Nodes<T: Copy> {
    places: Places<Node<T>>,
    lease: Lease<Node<T>, Global>,
    alloc: Global,
    count: usize,
}

impl<T: Copy> Model for Nodes<T> {
    ghost use Rattle.std.specs.Prelude.{◌≡◌, List};
    ghost use Rattle.attempt_pool.specs.declared.node.Node.{Node};

    ghost Value = { List (Node T) };

    ghost use Rattle.raw_places.specs.Filled.{values_of, IsFilled};

    ghost view = { λ n. values_of n.places.held };

    ghost invariant = { λ n. IsFilled n.places.held n.count × (n.lease.alloc ≡ n.alloc)
        × (n.lease.start ≡ n.places.start) × (n.lease.count ≡ n.places.count) };
}

impl<T: Copy> Drop for Nodes<T> {
    fn drop(self) {
        let Nodes {
            places,
            lease,
            alloc,
            count: _,
        } = self;
        places.give_back(lease, &alloc);
    }
}

impl<T: Copy> Nodes<T> {
    ghost use Rattle.attempt_pool.specs.Nodes.{next_at, prev_at, item_at};
    ghost use Rattle.attempt_pool.specs.Nodes.{with_next, with_prev, with_item, AreFresh};

    /// Node 0, which is linked to itself, and `cap` others, each linked to the one after it.
    pub(crate) fn new(alloc: Global, cap: usize) -> Result<Nodes<T>, AllocError>
        requires { cap ≤ 1024 }
        ensures { IfOk result (λ nodes. AreFresh cap nodes) }
    {
        let count = cap + 1;
        let Some((mut places, lease)) = Places::take(&alloc, count + SPARE) else {
            return Err(AllocError);
        };
        let ends = Node {
            prev: 0,
            next: 0,
            item: None,
        };
        places.write(0, ends);
        for place in 1..count {
            let free = Node {
                prev: 0,
                next: place + 1,
                item: None,
            };
            places.write(place, free);
        }
        Ok(Nodes {
            places,
            lease,
            alloc,
            count,
        })
    }

    /// How many nodes there are besides node 0.
    pub(crate) fn cap(&self) -> usize
        requires { 0 < length self.now }
        ensures { result ≡ length self.now - 1 }
    {
        self.count - 1
    }

    /// The place of the node after that of `place`.
    pub(crate) fn next(&self, place: usize) -> usize
        requires { place < length self.now }
        ensures { result ≡ next_at self.now place }
    {
        self.places.get(place).next
    }

    /// The place of the node before that of `place`.
    pub(crate) fn prev(&self, place: usize) -> usize
        requires { place < length self.now }
        ensures { result ≡ prev_at self.now place }
    {
        self.places.get(place).prev
    }

    /// The record of a node, once it had one.
    pub(crate) fn item(&self, place: usize) -> Option<T>
        requires { place < length self.now }
        ensures { result ≡ item_at self.now place }
    {
        self.places.get(place).item
    }

    /// Links a node to the one after it.
    pub(crate) fn set_next(&mut self, place: usize, next: usize)
        requires { place < length self.old }
        ensures { self.new ≡ with_next self.old place next }
    {
        self.places.get_mut(place).next = next;
    }

    /// Links a node to the one before it.
    pub(crate) fn set_prev(&mut self, place: usize, prev: usize)
        requires { place < length self.old }
        ensures { self.new ≡ with_prev self.old place prev }
    {
        self.places.get_mut(place).prev = prev;
    }

    /// Puts a record into a node.
    pub(crate) fn set_item(&mut self, place: usize, item: T)
        requires { place < length self.old }
        ensures { self.new ≡ with_item self.old place item }
    {
        self.places.get_mut(place).item = Some(item);
    }
}
