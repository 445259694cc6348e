//! The signals and the counters of a program.

ghost use Rattle.std.specs.Prelude.{◌≡◌, map, IfOk};
ghost use Rattle.bytecode_programs.specs.Views.{slot_data};
ghost use Rattle.compiler.specs.Parts.{slot_at, width_at};

use assertions::Signal;
use bytecode_programs::Slot;
use expressions::Counter;
use std::alloc::{AllocError, Global};

/// The slot of the signal at a place; of no width, where there is none.
fn slot_at(alloc: Global, signals: &[Signal], place: usize) -> Result<Slot, AllocError>
    ensures { IfOk result (λ slot. slot_data slot ≡ slot_at signals.now place) }
{
    match signals.get(place) {
        None => Ok(Slot {
            width: 0,
            path: String::new(alloc),
        }),
        Some(signal) => Ok(Slot {
            width: signal.width,
            path: String::from_str(alloc, signal.path.as_str())?,
        }),
    }
}

/// The width of the counter at a place; 0, where there is none.
fn width_at(counters: &[Counter], place: usize) -> u8
    ensures { result ≡ width_at counters.now place }
{
    match counters.get(place) {
        None => 0,
        Some(counter) => counter.width,
    }
}

/// The slots of the signals at these places.
pub(crate) fn signal_slots(
    alloc: Global,
    signals: &[Signal],
    places: &[usize],
) -> Result<Vec<Slot>, AllocError>
    ensures { IfOk result (λ slots.
        map slot_data slots.items ≡ map (slot_at signals.now) places.now) }
{
    let mut slots = Vec::new(alloc);
    for place in places {
        slots.push(slot_at(alloc, signals, *place)?)?;
    }
    Ok(slots)
}

/// The widths of the counters at these places.
pub(crate) fn counter_widths(
    alloc: Global,
    counters: &[Counter],
    places: &[usize],
) -> Result<Vec<u8>, AllocError>
    ensures { IfOk result (λ widths. widths.items ≡ map (width_at counters.now) places.now) }
{
    let mut widths = Vec::new(alloc);
    for place in places {
        widths.push(width_at(counters, *place))?;
    }
    Ok(widths)
}
