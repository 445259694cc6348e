//! Note 4: assertions of which no attempt was tried. Note 5: a clock without edges.

ghost use Rattle.std.specs.Prelude.{◌≡◌, ◌++◌, ◌==◌, map, not, ◌&&◌, IfOk, OnOk};
ghost use Rattle.lint_notes.specs.Idle.{data_of, is_idle, idle_keys};
ghost use Rattle.lint_notes.specs.Told.{key_of, key_when, IsNoteWhen};

use crate::head::Head;
use crate::note::Note;
use report_lines::{Counts, Line};
use std::alloc::{AllocError, Global};

/// Whether there are attempts, and all are vacuous or disabled.
fn is_idle(counts: Counts) -> bool
    ensures { result ≡ is_idle counts }
{
    counts.holds == 0
        && counts.fails == 0
        && counts.still_open == 0
        && (counts.vacuous > 0 || counts.disabled > 0)
}

/// What is told of an assertion that was not tried.
fn message_of(alloc: Global, line: &Line) -> Result<String, AllocError> {
    let name = line.name.as_str();
    let Counts {
        vacuous,
        disabled,
        ..
    } = line.counts;
    format!(in alloc; "{name} was never tried: vacuous {vacuous} disabled {disabled}, no other")
}

/// Adds the note of an assertion, where it was not tried.
fn push_idle(
    alloc: Global,
    notes: &mut Vec<Note>,
    head: Head,
    line: &Line,
) -> Result<(), AllocError>
    ensures { OnOk result (map key_of notes.new.items ≡ map key_of notes.old.items
        ++ key_when (is_idle line.now.counts && not head.never) 4 head.at) }
{
    if !is_idle(line.counts) {
        return Ok(());
    }
    if head.never {
        return Ok(());
    }
    notes.push(Note {
        number: 4,
        at: head.at,
        message: message_of(alloc, line)?,
    })?;
    Ok(())
}

/// The notes of a report's lines: one at each assertion whose attempts are all vacuous or disabled,
/// if it has any, but for those that say that their antecedent never matches.
pub fn idle_notes(alloc: Global, heads: &[Head], lines: &[Line]) -> Result<Vec<Note>, AllocError>
    ensures { IfOk result (λ notes.
        map key_of notes.items ≡ idle_keys (map data_of heads.now) lines.now) }
{
    let mut notes = Vec::new(alloc);
    for place in 0..heads.len() {
        if place >= lines.len() {
            return Ok(notes);
        }
        push_idle(alloc, &mut notes, heads[place], &lines[place])?;
    }
    Ok(notes)
}

/// The note of a clock, whose path stands at a byte, where a dump has no edge of it.
pub fn edge_note(
    alloc: Global,
    at: usize,
    clock: &str,
    clocks: u64,
) -> Result<Option<Note>, AllocError>
    ensures { IfOk result (λ n. IsNoteWhen (clocks == 0) 5 at n) }
{
    if clocks != 0 {
        return Ok(None);
    }
    let message = format!(in alloc; "{clock} has no rising edge in the dump: nothing is judged")?;
    Ok(Some(Note {
        number: 5,
        at,
        message,
    }))
}
