//! Notes on what stands at the clocks of a dump.

ghost use Rattle.std.specs.Prelude.{IfOk, IfSome};
ghost use Rattle.cycle_window.specs.Held.{AreClocksOf};

use crate::accepted::Accepted;
use crate::read::push_facts;
use assertions::Suite;
use cycle_window::{Clocks, WindowFault, time_of_tick};
use lint_notes::{Note, edge_note, unknown_bytes, unknown_facts};
use signals::Counted;
use std::alloc::{AllocError, Global};
use suite_over_dump::clock_byte;
use vcd_reader::{Dump, VcdFault, read_dump};

/// The clocks of a suite in a dump; none where there is no such clock.
pub(crate) fn clocks_of(
    alloc: Global,
    dump: &Dump,
    suite: &Suite,
) -> Result<Option<Clocks>, AllocError>
    ensures { IfOk result (λ r. IfSome r (AreClocksOf dump.now)) }
{
    match Clocks::of(alloc, dump, suite.clock()) {
        Ok(clocks) => Ok(Some(clocks)),
        Err(WindowFault::Memory) => Err(AllocError),
        Err(_) => Ok(None),
    }
}

/// The times of clocks.
fn times_of(alloc: Global, dump: &Dump, clocks: &Clocks) -> Result<Vec<u64>, AllocError> {
    let mut times = Vec::new(alloc);
    for clock in 0..clocks.len() {
        times.push(time_of_tick(dump, clocks, clock as usize))?;
    }
    Ok(times)
}

/// The dump of which bits are x or z in a dump of these bytes; none where it can't be had.
fn mask_of(alloc: Global, bytes: &[u8]) -> Result<Option<Dump>, AllocError> {
    let masked = unknown_bytes(alloc, bytes)?;
    let mut source = Counted::new(masked.as_slice());
    match read_dump(alloc, &mut source) {
        Ok(mask) => Ok(Some(mask)),
        Err(VcdFault::Memory) => Err(AllocError),
        Err(_) => Ok(None),
    }
}

/// Adds the notes of signals that are x or z at clocks.
fn push_unknown(
    alloc: Global,
    notes: &mut Vec<Note>,
    times: &[u64],
    accepted: &Accepted<'_, '_>,
    bytes: &[u8],
) -> Result<(), AllocError> {
    let Some(mask) = mask_of(alloc, bytes)? else {
        return Ok(());
    };
    let signals = accepted.suite.names.as_slice();
    let facts = unknown_facts(alloc, &mask, times, signals)?;
    push_facts(alloc, notes, accepted, facts)
}

/// Adds the notes of what stands at clocks.
pub(crate) fn push_clocked(
    alloc: Global,
    notes: &mut Vec<Note>,
    dump: &Dump,
    clocks: &Clocks,
    accepted: &Accepted<'_, '_>,
    bytes: &[u8],
) -> Result<(), AllocError> {
    let times = times_of(alloc, dump, clocks)?;
    push_unknown(alloc, notes, times.as_slice(), accepted, bytes)?;
    let at = clock_byte(accepted.file);
    if let Some(note) = edge_note(alloc, at, accepted.suite.clock(), clocks.len())? {
        notes.push(note)?;
    }
    Ok(())
}
