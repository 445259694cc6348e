//! The values of a ring, row after row, in one block of memory.

ghost use Rattle.std.specs.Prelude.{◌≡◌, ◌+◌, ◌^◌, ◌<◌, ◌≤◌, ◌++◌, length};
ghost use Rattle.history_ring.specs.Held.{IsRowWritten};
ghost use Rattle.std.specs.Prelude.{take, drop, replicate, slice_index, IfOk};

use raw_places::{Lease, Places};
use std::alloc::{AllocError, Global};
use std::marker::Model;

/// How many places at the end stay empty: 128 bytes, so that no value shares a line of a cache with
/// the block after, which another thread may write.
const SPARE: usize = 8;

/// Places that all hold a value, but for the spare ones, with the right to give their block back.
pub struct Store {
    places: Places<u128>,
    lease: Lease<u128, Global>,
    alloc: Global,
}

impl Model for Store {
    ghost use Rattle.std.specs.Prelude.{◌≡◌, ℕ, List};
    ghost use Rattle.raw_places.specs.Filled.{values_of};
    ghost use Rattle.history_ring.specs.Held.{AllHeld};

    ghost Value = { List ℕ };

    ghost view = { λ s. values_of s.places.held };

    ghost invariant = { λ s. AllHeld s.places.held × (s.lease.alloc ≡ s.alloc)
        × (s.lease.start ≡ s.places.start) × (s.lease.count ≡ s.places.count) };
}

impl Drop for Store {
    fn drop(self) {
        let Store {
            places,
            lease,
            alloc,
        } = self;
        places.give_back(lease, &alloc);
    }
}

/// Writes so many zeros into the first places.
fn clear(places: &mut Places<u128>, count: usize)
    requires { count ≤ length places.old.held }
    ensures same { (places.new.start ≡ places.old.start) × (places.new.count ≡ places.old.count) }
    ensures zeros { IsRowWritten 0 (replicate count 0) places.old.held places.new.held }
{
    for index in 0..count {
        places.write(index, 0);
    }
}

/// Writes values into the places from `at` on.
fn write_row(places: &mut Places<u128>, at: usize, row: &[u128])
    requires fits { at + length row.now < 2 ^ 64 }
    requires inside { at + length row.now ≤ length places.old.held }
    ensures same { (places.new.start ≡ places.old.start) × (places.new.count ≡ places.old.count) }
    ensures written { IsRowWritten at row.now places.old.held places.new.held }
{
    for index in 0..row.len() {
        places.write(at + index, row[index]);
    }
}

impl Store {
    /// So many zeros.
    pub(crate) fn new(alloc: Global, count: usize) -> Result<Store, AllocError>
        requires { count < 2 ^ 59 }
        ensures { IfOk result (λ store. store ≡ replicate count 0) }
    {
        let Some((mut places, lease)) = Places::take(&alloc, count + SPARE) else {
            return Err(AllocError);
        };
        clear(&mut places, count);
        Ok(Store {
            places,
            lease,
            alloc,
        })
    }

    /// Writes a row over the values from `at` on.
    pub(crate) fn write(&mut self, at: usize, row: &[u128])
        requires { at + length row.now ≤ length self.old }
        ensures { self.new ≡ take at self.old ++ row.now ++ drop (at + length row.now) self.old }
    {
        write_row(&mut self.places, at, row);
    }

    /// The value at `at`.
    pub(crate) fn read(&self, at: usize) -> u128
        requires { at < length self.now }
        ensures { result ≡ slice_index self.now at }
    {
        self.places.read(at)
    }
}
