//! Signals that the files declare.

use crate::outcome::{Cause, Remark};
use crate::reading::Reading;
use import_elaboration::{Parts, Shape, Type, Value, ValueId, Variable};
use import_expressions::{DumpSignal, known_signal, push_path};
use import_scopes::NoteKind;
use indexmap::IndexSet;
use std::alloc::{AllocError, Global};

/// The dump's signal that a declared one is read as, if it has one.
fn signal_in<'w>(
    alloc: Global,
    parts: &Parts<'_>,
    reading: &Reading<'w>,
    variable: &Variable<'_>,
) -> Result<Option<DumpSignal<'w>>, AllocError> {
    let Some(node) = parts.values.get(variable.value.0) else {
        return Ok(None);
    };
    let Value::Signal(path) = node.value else {
        return Ok(None);
    };
    let mut text = Vec::new(alloc);
    push_path(&mut text, path, reading.scope)?;
    Ok(known_signal(reading.widths, text.as_slice()))
}

/// Whether a signal is declared with another width than the dump's has.
fn is_of_other_width(
    alloc: Global,
    parts: &Parts<'_>,
    reading: &Reading<'_>,
    variable: &Variable<'_>,
) -> Result<bool, AllocError> {
    let Shape::Vector(own, _) = variable.shape else {
        return Ok(false);
    };
    match signal_in(alloc, parts, reading, variable)? {
        Some(known) => Ok(known.width != own.width),
        None => Ok(false),
    }
}

/// Notes that a select takes bits of a value.
fn note_selected(selected: &mut [bool], value: ValueId) {
    if let Some(mark) = selected.get_mut(value.0) {
        *mark = true;
    }
}

/// As many marks as values, none of them set.
fn no_marks(alloc: Global, count: usize) -> Result<Vec<bool>, AllocError> {
    let mut marks = Vec::new(alloc);
    for _ in 0..count {
        marks.push(false)?;
    }
    Ok(marks)
}

/// Of each value of an opening, whether a select takes bits of it.
fn selected_of(alloc: Global, parts: &Parts<'_>) -> Result<Vec<bool>, AllocError> {
    let mut selected = no_marks(alloc, parts.values.len())?;
    for node in parts.values.as_slice() {
        match node.value {
            Value::Index(base, _)
            | Value::Slice(base, _, _)
            | Value::PartUp(base, _, _)
            | Value::PartDown(base, _, _) => note_selected(selected.as_mut_slice(), base),
            _ => {}
        }
    }
    Ok(selected)
}

/// Why selects of a vector that the file declares with a range would take other bits in a rule, if
/// they would: the dump tells no range, or another one.
fn range_cause(
    own: Type,
    range: (u32, u32),
    known: Option<DumpSignal<'_>>,
) -> Option<(&'static str, &'static str)> {
    let counted = range == (own.width.saturating_sub(1), 0);
    let told = match known {
        Some(known) => known.range,
        None => None,
    };
    match told {
        Some(found) if found == range => None,
        Some(_) => Some((
            "Range",
            "the file declares it with another range than the dump: give its bits wires",
        )),
        None if counted => None,
        None => Some((
            "Range",
            "its bits aren't counted from 0, and no dump tells its range: give its bits wires",
        )),
    }
}

/// Whether two ranges have the same lowest bit, and at the same end.
fn ends_alike(first: (u32, u32), second: (u32, u32)) -> bool {
    let turned = (first.0 < first.1) == (second.0 < second.1);
    turned && first.0.min(first.1) == second.0.min(second.1)
}

/// Why selects of a vector whose range is by a parameter or a type can't be read, if they can't:
/// an instance may have another width, and has the same lowest bit.
fn direction_cause(
    range: (u32, u32),
    known: Option<DumpSignal<'_>>,
) -> Option<(&'static str, &'static str)> {
    let told = match known {
        Some(known) if known.width == 1 => return None,
        Some(known) => known.range,
        None => None,
    };
    match told {
        Some(found) if ends_alike(found, range) => None,
        Some(_) => Some((
            "Range",
            "the file declares it with another lowest bit than the dump: give its bits wires",
        )),
        None if range.1 == 0 => None,
        None => Some((
            "Range",
            "its bits aren't counted from 0, and no dump tells its range: give its bits wires",
        )),
    }
}

/// Why selects of a vector of which the file says no range in numbers can't be read, if they
/// can't: the dump tells none.
fn unranged_cause(known: Option<DumpSignal<'_>>) -> Option<(&'static str, &'static str)> {
    match known {
        Some(known) if known.range.is_none() && known.width > 1 => Some((
            "Range",
            "its range isn't known in numbers, and the dump tells none: give its bits wires",
        )),
        _ => None,
    }
}

/// Why a signal can't be read as the file declares it, if it can't: a code and what may be done.
/// A select takes bits of it or not.
fn cause_of(
    alloc: Global,
    parts: &Parts<'_>,
    reading: &Reading<'_>,
    variable: &Variable<'_>,
    is_selected: bool,
) -> Result<Option<(&'static str, &'static str)>, AllocError> {
    if !variable.depends && is_of_other_width(alloc, parts, reading, variable)? {
        return Ok(Some((
            "Width",
            "the file declares it with another width than the dump's signal has: \
             give the --scope of this module",
        )));
    }
    if !is_selected {
        return Ok(None);
    }
    match variable.shape {
        Shape::Array => Ok(Some((
            "Array",
            "a select of it is an element, and no bit: give that a wire of the design",
        ))),
        Shape::Vector(own, range) if !variable.depends => {
            let known = signal_in(alloc, parts, reading, variable)?;
            Ok(range_cause(own, range, known))
        }
        Shape::Vector(_, range) => {
            let known = signal_in(alloc, parts, reading, variable)?;
            Ok(direction_cause(range, known))
        }
        Shape::Unranged(_) => {
            let known = signal_in(alloc, parts, reading, variable)?;
            Ok(unranged_cause(known))
        }
        _ => Ok(None),
    }
}

/// Why an opening is refused of which a signal can't be read as the file declares it. An instance
/// may have other parameters, so of a width by these that is noted alone.
pub(crate) fn first_unfit(
    alloc: Global,
    parts: &Parts<'_>,
    reading: &Reading<'_>,
) -> Result<Option<Cause>, AllocError> {
    let selected = selected_of(alloc, parts)?;
    for variable in parts.variables.as_slice() {
        let is_selected = selected.get(variable.value.0).copied().unwrap_or(false);
        if let Some((code, hint)) = cause_of(alloc, parts, reading, variable, is_selected)? {
            return Ok(Some(Cause {
                code,
                hint,
                at: match parts.values.get(variable.value.0) {
                    Some(node) => node.at,
                    None => variable.declared_at,
                },
            }));
        }
    }
    Ok(None)
}

/// Whether a signal is read of which the file says no type that is known.
pub(crate) fn has_unknown_type(parts: &Parts<'_>) -> bool {
    parts
        .variables
        .as_slice()
        .iter()
        .any(|variable| variable.shape == Shape::Unknown)
}

/// What is to be told of a signal that the file declares, if something is.
fn kind_of(
    alloc: Global,
    parts: &Parts<'_>,
    reading: &Reading<'_>,
    variable: &Variable<'_>,
) -> Result<Option<NoteKind>, AllocError> {
    if is_of_other_width(alloc, parts, reading, variable)? {
        return Ok(Some(NoteKind::Parameters));
    }
    if variable.is_port {
        return Ok(None);
    }
    Ok(Some(NoteKind::Variable))
}

/// Adds a remark on each signal of an opening that the file declares, if something is to be told of
/// it and none was added before; the bytes of those that were are noted.
pub(crate) fn note_variables(
    alloc: Global,
    remarks: &mut Vec<Remark>,
    noted: &mut IndexSet<usize>,
    parts: &Parts<'_>,
    reading: &Reading<'_>,
) -> Result<(), AllocError> {
    for variable in parts.variables.as_slice() {
        let at = variable.declared_at;
        if noted.contains(&at) {
            continue;
        }
        let Some(kind) = kind_of(alloc, parts, reading, variable)? else {
            continue;
        };
        let text = match str::from_utf8(variable.name) {
            Ok(text) => String::from_str(alloc, text)?,
            Err(_) => String::new(alloc),
        };
        remarks.push(Remark { kind, text, at })?;
        noted.insert(at)?;
    }
    Ok(())
}
