//! Names that a dump lacks.

use crate::outcome::{Cause, Missing};
use crate::reading::Reading;
use diagnostics::nearest;
use import_elaboration::{Parts, Value};
use import_expressions::{DumpSignal, known_signal, push_path};
use std::alloc::{AllocError, Global};

/// How many characters of a name may be wrong.
fn most_edits(name: &str) -> u8 {
    if name.len() < 8 { 1 } else { 2 }
}

/// The first scope of a dump that has this name; none where a scope is given.
fn scope_with(
    alloc: Global,
    reading: &Reading<'_>,
    name: &str,
) -> Result<Option<String>, AllocError> {
    if reading.scope.is_some() || name.is_empty() {
        return Ok(None);
    }
    for path in reading.names {
        let front = path.as_str().strip_suffix(name).unwrap_or("");
        if let Some(scope) = front.strip_suffix('.') {
            return Ok(Some(String::from_str(alloc, scope)?));
        }
    }
    Ok(None)
}

/// How many names are compared with one that a dump lacks at most.
const MOST_COMPARED: usize = 2_000;

/// The scopes of a path, with the last dot.
fn scopes_of(path: &str) -> &str {
    match path.rfind('.') {
        Some(dot) => path.get(..dot.saturating_add(1)).unwrap_or(""),
        None => "",
    }
}

/// The names in the scope of a path that are about as long, in their order: no more than the first
/// 2,000.
fn beside(
    alloc: Global,
    reading: &Reading<'_>,
    path: &str,
    most: u8,
) -> Result<Vec<String>, AllocError> {
    let (scopes, most) = (scopes_of(path), usize::from(most));
    let mut found = Vec::new(alloc);
    for name in reading.names {
        let is_near = name.len().abs_diff(path.len()) <= most && scopes_of(name.as_str()) == scopes;
        if is_near && found.len() < MOST_COMPARED {
            found.push(name.clone()?)?;
        }
    }
    Ok(found)
}

/// The name that is meant by one that a dump lacks, if one in its scope is near.
fn name_meant(
    alloc: Global,
    reading: &Reading<'_>,
    name: &str,
) -> Result<Option<String>, AllocError> {
    let most = most_edits(name);
    let names = beside(alloc, reading, name, most)?;
    match nearest(alloc, most, name, names.as_slice())? {
        None => Ok(None),
        Some(place) => match names.get(place) {
            Some(other) => Ok(Some(other.clone()?)),
            None => Ok(None),
        },
    }
}

/// Whether no rule can name a signal: it has no bits, or more than 128.
fn is_unnameable(known: Option<DumpSignal<'_>>) -> bool {
    match known {
        Some(known) => known.width == 0 || known.width > 128,
        None => false,
    }
}

/// What is told of a name that the dump has, and no rule can name.
fn unnameable_name(alloc: Global, path: &[u8], at: usize) -> Result<Missing, AllocError> {
    let name = match str::from_utf8(path) {
        Ok(name) => String::from_str(alloc, name)?,
        Err(_) => String::new(alloc),
    };
    Ok(Missing {
        name,
        nearest: None,
        scope: None,
        unnameable: true,
        at,
    })
}

/// What is told of a name that the dump lacks.
fn missing_name(
    alloc: Global,
    reading: &Reading<'_>,
    path: &[u8],
    at: usize,
) -> Result<Missing, AllocError> {
    let name = match str::from_utf8(path) {
        Ok(name) => String::from_str(alloc, name)?,
        Err(_) => String::new(alloc),
    };
    let nearest = name_meant(alloc, reading, name.as_str())?;
    let scope = scope_with(alloc, reading, name.as_str())?;
    Ok(Missing {
        name,
        nearest,
        scope,
        unnameable: false,
        at,
    })
}

/// The clock of an assertion, where the dump lacks it; none where no dump is given.
pub(crate) fn missing_clock(
    alloc: Global,
    reading: &Reading<'_>,
    clock: &[u8],
    at: usize,
) -> Result<Option<Missing>, AllocError> {
    if reading.widths.is_empty() || known_signal(reading.widths, clock).is_some() {
        return Ok(None);
    }
    Ok(Some(missing_name(alloc, reading, clock, at)?))
}

/// Why an assertion is refused whose clock has several bits in the dump, if it has.
pub(crate) fn wide_clock(reading: &Reading<'_>, clock: &[u8], at: usize) -> Option<Cause> {
    match known_signal(reading.widths, clock) {
        Some(known) if known.width != 1 => Some(Cause {
            code: "ClockForm",
            hint: "the clock has to be one bit",
            at,
        }),
        _ => None,
    }
}

/// The first signal of an opening that the dump lacks; none where no dump is given.
pub(crate) fn first_missing<'t>(
    alloc: Global,
    parts: &Parts<'t>,
    reading: &Reading<'_>,
) -> Result<Option<Missing>, AllocError> {
    if reading.widths.is_empty() {
        return Ok(None);
    }
    for node in parts.values.as_slice() {
        if let Value::Signal(path) = node.value {
            let mut text = Vec::new(alloc);
            push_path(&mut text, path, reading.scope)?;
            let known = known_signal(reading.widths, text.as_slice());
            if is_unnameable(known) {
                return Ok(Some(unnameable_name(alloc, text.as_slice(), node.at)?));
            }
            if known.is_none() {
                return Ok(Some(missing_name(alloc, reading, text.as_slice(), node.at)?));
            }
        }
    }
    Ok(None)
}
