//! The signals of programs, and whether a dump has them.

ghost use Rattle.std.specs.Prelude.{◌≡◌, ◌++◌, None, IfOk, IfErr, OnOk, map};
ghost use Rattle.bytecode_programs.specs.Views.{slot_data};
ghost use Rattle.vcd_reader.specs.Variables.{variable_named};
ghost use Rattle.vcd_reader.specs.Held.{variables_of};
ghost use Rattle.cycle_window.specs.Bound.{misfit, first_refused, IsMisfit, IsSignalFault};
ghost use Rattle.cycle_window.specs.Signals.{wanted_of};
ghost use Rattle.machine_batches.specs.Reported.{wanted_slot};
ghost use Rattle.workers_core.specs.Wanted.{wanted_in};

use bytecode_programs::Slot;
use cycle_window::{WatchedSignal, WindowFault};
use std::alloc::{AllocError, Global};
use vcd_reader::Dump;
use verifier::Verified;

/// Adds the signals of a program.
fn put_slots<'p>(signals: &mut Vec<WatchedSignal<'p>>, slots: &'p [Slot]) -> Result<(), AllocError>
    ensures { OnOk result (map wanted_of signals.new.items
        ≡ map wanted_of signals.old.items ++ map wanted_slot (map slot_data slots.entry.now)) }
{
    for slot in slots {
        signals.push(WatchedSignal {
            path: slot.path.as_str(),
            width: u32::from(slot.width),
        })?;
    }
    Ok(())
}

/// The signals of programs, in one list.
pub(crate) fn signals_of<'p>(
    alloc: Global,
    programs: &'p [Verified],
) -> Result<Vec<WatchedSignal<'p>>, AllocError>
    ensures { IfOk result (λ ss. map wanted_of ss.items ≡ wanted_in programs.entry.now) }
{
    let mut signals = Vec::new(alloc);
    for verified in programs {
        put_slots(&mut signals, verified.program().signals.as_slice())?;
    }
    Ok(signals)
}

/// Whether a signal names a variable of its width.
fn check_signal(alloc: Global, dump: &Dump, signal: &WatchedSignal<'_>) -> Result<(), WindowFault>
    ensures fits { IfOk result (λ _. misfit (variables_of dump.now)
        (variable_named (variables_of dump.now) signal.now.path.now) signal.now.width ≡ None) }
    ensures fault { IfErr result (IsMisfit (misfit (variables_of dump.now)
        (variable_named (variables_of dump.now) signal.now.path.now) signal.now.width)
        signal.now.path.now) }
{
    match dump.var(signal.path) {
        None => Err(WindowFault::NoSignal(String::from_str(alloc, signal.path)?)),
        Some(variable) => {
            if dump.width(variable) == signal.width {
                Ok(())
            } else {
                Err(WindowFault::SignalWidth(String::from_str(alloc, signal.path)?))
            }
        }
    }
}

/// Whether each signal names a variable of its width, or the first that doesn't.
fn check_signals(
    alloc: Global,
    dump: &Dump,
    signals: &[WatchedSignal<'_>],
) -> Result<(), WindowFault>
    ensures fits { IfOk result (λ _.
        first_refused (variables_of dump.now) (map wanted_of signals.now) ≡ None) }
    ensures fault { IfErr result
        (IsSignalFault (variables_of dump.now) (map wanted_of signals.now)) }
{
    for signal in signals {
        check_signal(alloc, dump, signal)?;
    }
    Ok(())
}

/// Whether each signal of the programs names a variable of its width, or the first that doesn't,
/// by program and signal.
pub(crate) fn check_programs(
    alloc: Global,
    dump: &Dump,
    programs: &[Verified],
) -> Result<(), WindowFault>
    ensures fits { IfOk result (λ _.
        first_refused (variables_of dump.now) (wanted_in programs.now) ≡ None) }
    ensures fault { IfErr result
        (IsSignalFault (variables_of dump.now) (wanted_in programs.now)) }
{
    let signals = signals_of(alloc, programs)?;
    check_signals(alloc, dump, signals.as_slice())
}
