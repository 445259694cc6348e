//! What arrives at the instructions that are still to be read.

ghost use Rattle.std.specs.Prelude.{◌≡◌, ◌<◌, ◌≤◌, ◌+◌, ℕ, List, ◌∷◌, length, reverse, slice_get};
ghost use Rattle.std.specs.Prelude.{IfOk};
ghost use Rattle.verifier.specs.Inference.{Message, merge, entry};
ghost use Rattle.verifier.specs.Arrivals.{arrived, HoldsFrom};

use std::alloc::{AllocError, Global};
use std::mem;

/// What arrives at an instruction.
#[derive(Drop)]
pub enum Arrival {
    Nothing,
    /// Lists of widths that are all alike, the top last.
    Agreed(Vec<u8>),
    /// Two that differ.
    Mismatch,
}

/// One list more.
fn merge(arrival: &mut Arrival, list: Vec<u8>)
    ensures { arrived arrival.new ≡ merge (reverse list.items) (arrived arrival.old) }
{
    match arrival {
        Arrival::Nothing => *arrival = Arrival::Agreed(list),
        Arrival::Agreed(other) => {
            if other.as_slice() != list.as_slice() {
                *arrival = Arrival::Mismatch;
            }
        }
        Arrival::Mismatch => {}
    }
}

/// Sends a list to an instruction.
pub(crate) fn send(pending: &mut [Arrival], to: usize, list: Vec<u8>)
    requires { to < length pending.old }
    ensures { (from : ℕ) (ms : List Message) → from ≤ to → HoldsFrom from pending.old ms →
        HoldsFrom from pending.new (record { to = to; list = reverse list.items } ∷ ms) }
{
    merge(&mut pending[to], list)
}

/// Takes what arrived at an instruction, which is then done with.
pub(crate) fn take_arrival(pending: &mut [Arrival], pc: usize) -> Arrival
    requires { pc < length pending.old }
    ensures taken { slice_get pending.old pc ≡ Some result }
    ensures rest { (ms : List Message) → HoldsFrom pc pending.old ms →
        HoldsFrom (pc + 1) pending.new ms }
{
    mem::replace(&mut pending[pc], Arrival::Nothing)
}

/// So many instructions, of which the first has the empty list.
pub(crate) fn first_arrivals(alloc: Global, count: usize) -> Result<Vec<Arrival>, AllocError>
    requires { 0 < count }
    ensures long { IfOk result (λ pending. length pending.items ≡ count) }
    ensures entry { IfOk result (λ pending. HoldsFrom 0 pending.items (entry 0)) }
{
    let mut pending = Vec::with_capacity(alloc, count)?;
    pending.push(Arrival::Agreed(Vec::new(alloc)))?;
    for _ in 1..count {
        pending.push(Arrival::Nothing)?;
    }
    Ok(pending)
}
