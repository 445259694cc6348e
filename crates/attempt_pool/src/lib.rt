//! The pool of live records: attempts and obligations, in the order of opening.
//!
//! A pool keeps records while they live, for a number of them that is known when it is made: each
//! is put last, set, retired from any place, and walked to in the order of opening. A list of the
//! live ones and a list of the free ones share one block, so no call searches.
//!
//! ```text
//! let mut pool = Pool::new(alloc, 3)?;
//! let slot = pool.open(record);
//! pool.set(slot, other);
//! let next = pool.next(slot);    // Some(slot) of the record that was opened after it
//! pool.retire(slot);
//! ```
//!
//! The definitions: what a pool is to its users in `specs/Pooled.antt`, how its nodes are linked in
//! `specs/Walk.antt`, `specs/Lists.antt` and `specs/Nodes.antt`. The block is that of `raw_places`.
//!
//! Not promised: that memory suffices. That a call but the maker takes none, and makes no test, is
//! seen by reading.
#![tactic(auto)]

mod node;
mod nodes;
mod pool;
mod slot;

pub use pool::Pool;
pub use slot::Slot;
