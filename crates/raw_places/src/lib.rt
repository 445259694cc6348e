//! Blocks of places: the raw memory under `history_ring` and `attempt_pool`.
//!
//! A block has places for values of a `Copy` type, each empty or holding a value. Only here does
//! svamon have raw pointers: in five functions, each a few lines.
//!
//! ```text
//! let Some((mut places, lease)) = Places::take(&alloc, 4) else { return Err(AllocError) };
//! places.write(3, 7u128);
//! let value = *places.get(3);
//! places.give_back(lease, &alloc);
//! ```
//!
//! A contract sees the list `places.held` of what each place holds. A place that was never written
//! is never read. Neither `Places` nor `Lease` can be dropped, so a caller that forgets to give the
//! block back does not compile.
//!
//! The definitions: what places own and lend in `specs/Ownership.antt`, what they hold once a
//! `&mut` to one of them has ended in `specs/Lends.antt`, what places that all hold a value hold in
//! `specs/Filled.antt`.
//!
//! Not promised: that memory suffices.
#![tactic(auto)]

mod places;

pub use places::{Lease, Places};
