//! Note 2: signals that are x or z at clocks.

ghost use Rattle.vcd_reader.specs.Held.{IsOf};

use crate::facts::PathFact;
use assertions::Signal;
use std::alloc::{AllocError, Global};
use vcd_reader::{Change, Dump, VarId};

/// At how many clocks a variable has a bit that is 1, and the first of them.
#[derive(Clone, Copy)]
struct Seen {
    clocks: u64,
    first: u64,
    time: u64,
}

/// The clocks that were looked at: those at times up to this one.
fn passed(times: &[u64], clock: usize, time: u64) -> usize {
    let left = times.get(clock..).unwrap_or(&[]);
    left.iter().take_while(|tick| **tick <= time).count()
}

/// The value of a variable after changes.
fn value_after(dump: &Dump, variable: VarId, value: u128, changes: &[Change]) -> u128
    requires { IsOf dump.now variable }
{
    let code = dump.code(variable);
    let mut after = value;
    for change in changes {
        if change.code as usize == code {
            after = dump.cut(change, variable);
        }
    }
    after
}

/// What is seen of a variable at the clocks of these times, each before what changes then.
fn seen_of(dump: &Dump, variable: VarId, times: &[u64]) -> Seen
    requires { IsOf dump.now variable }
{
    let mut seen = Seen {
        clocks: 0,
        first: 0,
        time: 0,
    };
    let mut clock = 0usize;
    let mut value = 0u128;
    for step in dump.steps() {
        let more = passed(times, clock, step.time);
        if value != 0 && more > 0 {
            if seen.clocks == 0 {
                seen.first = clock as u64;
                seen.time = times.get(clock).copied().unwrap_or(0);
            }
            seen.clocks = seen.clocks.saturating_add(more as u64);
        }
        clock = clock.saturating_add(more);
        value = value_after(dump, variable, value, &step.changes);
    }
    seen
}

/// What is told of a signal.
fn fact_of(alloc: Global, path: &str, seen: Seen) -> Result<PathFact, AllocError> {
    let Seen {
        clocks,
        first,
        time,
    } = seen;
    let noun = if clocks == 1 { "clock" } else { "clocks" };
    let mut message = format!(in alloc; "{path} is x or z at {clocks} {noun}, ")?;
    let place = format!(in alloc; "first at clock {first} (#{time}); x and z are 0")?;
    message.push_str(place.as_str())?;
    Ok(PathFact {
        number: 2,
        path: String::from_str(alloc, path)?,
        message,
    })
}

/// The facts of those signals that have a bit of 1 in a dump at some clock, whose times these are.
/// Of a dump by [`unknown_bytes`](crate::unknown_bytes) they are the signals that are x or z there.
pub fn unknown_facts(
    alloc: Global,
    mask: &Dump,
    times: &[u64],
    signals: &[Signal],
) -> Result<Vec<PathFact>, AllocError> {
    let mut facts = Vec::new(alloc);
    for signal in signals {
        let path = signal.path.as_str();
        let Some(variable) = mask.var(path) else {
            continue;
        };
        let seen = seen_of(mask, variable, times);
        if seen.clocks > 0 {
            facts.push(fact_of(alloc, path, seen)?)?;
        }
    }
    Ok(facts)
}
