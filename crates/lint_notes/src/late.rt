//! Signals whose first value comes after a dump's first time.

ghost use Rattle.std.specs.Prelude.{◌≡◌, ◌==◌, map, filter, is_some, string_bytes, IfOk};
ghost use Rattle.std.specs.List.{list_any};
ghost use Rattle.vcd_reader.specs.Held.{variables_of, steps_in};
ghost use Rattle.lint_notes.specs.Told.{late_paths};
ghost use Rattle.lint_notes.specs.Late.{has_change, comes_late, is_late};

use crate::facts::Late;
use assertions::Signal;
use std::alloc::{AllocError, Global};
use vcd_reader::{Change, Dump, Step};

/// Whether some change is of a code.
fn has_change(changes: &[Change], code: usize) -> bool
    ensures { result ≡ list_any (λ c. c.code == code) changes.now }
{
    for change in changes {
        if change.code as usize == code {
            return true;
        }
    }
    false
}

/// The first time at which a code changes.
fn first_change(steps: &[Step], code: usize) -> Option<u64>
    ensures { is_some result ≡ list_any (has_change code) steps.now }
{
    for step in steps {
        if has_change(&step.changes, code) {
            return Some(step.time);
        }
    }
    None
}

/// The time of the first change of a code, if that is in no first step.
fn late_time(steps: &[Step], code: usize) -> Option<u64>
    ensures { is_some result ≡ comes_late code steps.now }
{
    match steps {
        [] => None,
        [first, rest @ ..] => {
            if has_change(&first.changes, code) {
                return None;
            }
            first_change(rest, code)
        }
    }
}

/// When the first value of a path comes, if that is after the dump's first time.
fn time_of(dump: &Dump, path: &str) -> Option<u64>
    ensures { is_some result ≡ is_late (variables_of dump.now) (steps_in dump.now) path.now }
{
    match dump.var(path) {
        None => None,
        Some(variable) => late_time(dump.steps(), dump.code(variable)),
    }
}

/// The signals whose first value comes after the dump's first time, in their order. One that has no
/// value in all the dump is none of them.
pub fn late_signals(alloc: Global, dump: &Dump, signals: &[Signal]) -> Result<Vec<Late>, AllocError>
    ensures { IfOk result (λ late. late_paths late.items
        ≡ filter (is_late (variables_of dump.now) (steps_in dump.now))
        (map (λ s. string_bytes s.path) signals.now)) }
{
    let mut late = Vec::new(alloc);
    for signal in signals {
        let Some(time) = time_of(dump, signal.path.as_str()) else {
            continue;
        };
        late.push(Late {
            path: signal.path.clone()?,
            time,
        })?;
    }
    Ok(late)
}
