//! Walks over the live records of a pool.

ghost use Rattle.std.specs.Prelude.{◌≡◌, IsSome, IfSome, length, nat_eq};
ghost use Rattle.std.specs.Map.{lookup};
ghost use Rattle.attempt_pool.specs.Pooled.{pooled};
ghost use Rattle.tests_parts.specs.Counted.{counted_down};

use attempt_pool::{Pool, Slot};

/// Counts each record down by one, and retires those that are 0.
pub fn count_down(pool: &mut Pool<u64>)
    ensures { pool.new ≡ pooled pool.old.cap (counted_down pool.old.live) }
{
    let mut at = pool.first();
    while let Some(slot) = at {
        at = pool.next(slot);
        let turns = pool.get(slot);
        if turns == 0 {
            pool.retire(slot);
        } else {
            pool.set(slot, turns - 1);
        }
    }
}

/// Opens equal records until the pool is full.
pub fn fill(pool: &mut Pool<u64>, item: u64)
    ensures cap { pool.new.cap ≡ pool.old.cap }
    ensures full { length pool.new.live ≡ pool.new.cap }
{
    let cap = pool.cap();
    while pool.len() < cap {
        let _slot = pool.open(item);
    }
}

/// The slot of a record by its number in the order of opening, counted from 0.
pub fn nth<T: Copy>(pool: &Pool<T>, number: usize) -> Option<Slot>
    ensures { IfSome result (λ slot. IsSome (lookup (nat_eq slot) pool.now.live)) }
{
    let mut at = pool.first();
    for _step in 0..number {
        let Some(slot) = at else {
            return None;
        };
        at = pool.next(slot);
    }
    at
}

/// Whether these are the records, in order of opening.
pub fn holds(pool: &Pool<u64>, records: &[u64]) -> bool {
    let mut at = pool.first();
    for record in records {
        let Some(slot) = at else {
            return false;
        };
        if pool.get(slot) != *record {
            return false;
        }
        at = pool.next(slot);
    }
    at.is_none()
}
