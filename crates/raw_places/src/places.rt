//! The places of a block, and the right to give it back. All raw pointers stand here.

ghost use Rattle.std.specs.Prelude.{◌≡◌, ◌<◌, List, Option, Some, None, length};
ghost use Rattle.std.specs.Prelude.{replicate, get_or, slice_set, IfSome, ℕ};
ghost use Rattle.std.specs.Borrow.{sem};
ghost use Rattle.std.specs.Vec.Ownership.{FitsInBlock};
ghost use base.Fml.{ftrue};
ghost use denote.RawPtr.{Ptr};
ghost use Rattle.raw_places.specs.Ownership.{IsHeld, places_owned, places_lent, right_owned};

use std::alloc::Allocator;
use std::marker::{Model, PhantomData, Send, Sync};
use std::mem::{align_of, size_of};
use std_alloc::room::may_hold;

/// The places of one block. Each holds a value once it was written.
pub struct Places<T> {
    start: *mut T,
    count: usize,
    pub ghost held: { List (Option T) },
    ghost all: { count ≡ length held },
}

impl<T> Model for Places<T> {
    ghost also_owns = { λ p. places_owned T.row p.start p.held };

    ghost also_shares = { λ p _ κ. places_lent T.row p.start p.held κ };
}

unsafe impl<T: Send> Send for Places<T> {}

unsafe impl<T: Sync> Sync for Places<T> {}

/// The right to give a block back to its allocator. It takes no space.
pub struct Lease<T, A: Allocator> {
    marker: PhantomData<*const (T, A)>,
    pub ghost alloc: { A },
    pub ghost start: { Ptr },
    pub ghost count: { ℕ },
}

impl<T, A: Allocator> Model for Lease<T, A> {
    ghost also_owns = { λ l. right_owned T.row (A.dealloc_token l.alloc) l.start l.count };

    ghost also_shares = { λ _ _ _. ftrue };
}

unsafe impl<T, A: Allocator + Send> Send for Lease<T, A> {}

// A `&` to it holds nothing.
unsafe impl<T, A: Allocator> Sync for Lease<T, A> {}

/// A block of so many empty places, of a size that a block may have.
fn allocate<T, A: Allocator>(alloc: &A, count: usize) -> Option<(Places<T>, Lease<T, A>)>
    requires { FitsInBlock T.row count }
    ensures empty { IfSome result (λ made. made.0.held ≡ replicate count None) }
    ensures count { IfSome result (λ made. (made.0.count ≡ count) × (made.1.count ≡ count)) }
    ensures allocator { IfSome result (λ made. made.1.alloc ≡ alloc.now) }
    ensures start { IfSome result (λ made. made.1.start ≡ made.0.start) }
{
    match alloc.allocate(count * size_of::<T>(), align_of::<T>()) {
        Ok(block) => {
            let start = block as *mut T;
            let marker = PhantomData;
            Some((Places { start, count }, Lease { marker }))
        }
        Err(_) => None,
    }
}

impl<T: Copy> Places<T> {
    ghost use Rattle.raw_places.specs.Lends.{lends_place};

    /// A block of so many empty places. Nothing where there is no memory for it, or where no block
    /// may be as large.
    pub fn take<A: Allocator>(alloc: &A, count: usize) -> Option<(Places<T>, Lease<T, A>)>
        ensures empty { IfSome result (λ made. made.0.held ≡ replicate count None) }
        ensures count { IfSome result (λ made. (made.0.count ≡ count) × (made.1.count ≡ count)) }
        ensures allocator { IfSome result (λ made. made.1.alloc ≡ alloc.now) }
        ensures start { IfSome result (λ made. made.1.start ≡ made.0.start) }
    {
        if !may_hold::<T>(count) {
            return None;
        }
        allocate(alloc, count)
    }

    /// Puts a value into a place, whether or not the place was empty.
    pub fn write(&mut self, index: usize, value: T)
        requires { index < length self.old.held }
        ensures block { (self.new.start ≡ self.old.start) × (self.new.count ≡ self.old.count) }
        ensures held { self.new.held ≡ slice_set self.old.held index (Some value) }
    {
        unsafe { self.start.add(index).write(value) }
    }

    /// The value that a place holds.
    pub fn read(&self, index: usize) -> T
        requires { IsHeld self.now.held index }
        ensures { get_or self.now.held index None ≡ Some result }
    {
        *self.get(index)
    }

    /// A look at the value that a place holds.
    pub fn get(&self, index: usize) -> &T
        requires { IsHeld self.now.held index }
        ensures { get_or self.now.held index None ≡ Some result.now }
    {
        unsafe { &*self.start.add(index) }
    }

    /// The value that a place holds, to be changed where it stands.
    pub fn get_mut(&mut self, index: usize) -> &mut T
        requires { IsHeld self.old.held index }
        ensures* writes_back { sem 𝓛 (lends_place T.row self.entry index result) }
        ensures value { get_or self.old.held index None ≡ Some result.now }
    {
        unsafe { &mut *self.start.add(index) }
    }

    /// Gives the block back to the allocator that it was taken from.
    pub fn give_back<A: Allocator>(self, lease: Lease<T, A>, alloc: &A)
        requires allocator { lease.alloc ≡ alloc.now }
        requires start { lease.start ≡ self.start }
        requires count { lease.count ≡ self.count }
    {
        let Places { start, count } = self;
        let Lease { marker: _ } = lease;
        unsafe { alloc.deallocate(start as *mut u8, count * size_of::<T>(), align_of::<T>()) }
    }
}
