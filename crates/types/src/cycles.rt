//! Named sequences that reach themselves.

ghost use Rattle.std.specs.Prelude.{◌≡◌, ◌<◌, ◌≤◌, ℕ, true, false, map, length, slice_index_or};
ghost use Rattle.std.specs.Prelude.{IfOk, IfNone, IfSome, IsTrue, ◌↔◌};
ghost use Rattle.types.specs.Drafts.{IsCyclic};
ghost use Rattle.types.specs.Entries.{has_entry};
ghost use Rattle.types.specs.Views.{draft_of};
ghost use Rattle.types.specs.CycleStages.{IsFirstCycle, IsAtMost, LacksAt};

use crate::cyclic::is_cyclic;
use crate::draft::Draft;
use crate::entry::Entry;
use std::alloc::{AllocError, Global};

/// The lowest of the bytes of those declarations that reach themselves.
pub(crate) fn first_cycle(
    alloc: Global,
    bodies: &[Draft],
    bytes: &[usize],
) -> Result<Option<usize>, AllocError>
    requires { length bytes.now ≡ length bodies.now }
    ensures { IfOk result (IsFirstCycle (map draft_of bodies.now) bytes.now (length bodies.now)) }
{
    let mut fault = None;
    for place in 0..bodies.len() {
        let byte = bytes[place];
        if is_above(fault, byte) {
            continue;
        }
        if !is_cyclic(alloc, bodies, place)? {
            continue;
        }
        fault = Some(byte);
    }
    Ok(fault)
}

/// Whether a byte is at or above the one that was found.
fn is_above(fault: Option<usize>, byte: usize) -> bool
    ensures { IsTrue result ↔ IsAtMost fault byte }
{
    match fault {
        None => false,
        Some(found) => found <= byte,
    }
}

/// Whether each named sequence has an entry.
pub(crate) fn has_all(table: &[Option<Entry>]) -> bool
    ensures all { IsTrue result → (p : ℕ) → p < length table.now → has_entry table.now p ≡ true }
    ensures some { result ≡ false → LacksAt table.now }
{
    for entry in table {
        if entry.is_none() {
            return false;
        }
    }
    true
}
