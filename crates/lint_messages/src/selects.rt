//! Selects of bits that a name doesn't have.

use crate::meant::Meant;
use lint_notes::{Range, place_of};
use parser::{File, ItemTree};
use std::alloc::{AllocError, Global};

/// The width of a name of a text, a counter's or a signal's.
fn width_of(meant: &Meant<'_>, file: &File, path: &str) -> Option<u32> {
    for item in &file.items {
        if let ItemTree::Counter(counter) = item {
            if counter.name.text == path {
                return Some(u32::from(counter.width.value));
            }
        }
    }
    let variable = meant.dump.var(path)?;
    Some(meant.dump.width(variable))
}

/// The select that stands first from a byte on, with its brackets.
fn select_from(text: &str, at: usize) -> Option<&str> {
    let rest = text.get(at..)?;
    let start = rest.find("[")?;
    let end = rest.find("]")?;
    rest.get(start..end.saturating_add(1))
}

/// The bounds of a select as they are written; a bit is both.
fn bounds_of(select: &str) -> Option<(u64, u64)> {
    let inside = select.strip_prefix('[')?.strip_suffix(']')?;
    let (first, last) = match inside.split_once(':') {
        None => (inside, inside),
        Some(bounds) => bounds,
    };
    let first = first.trim().parse::<u64>().ok()?;
    let last = last.trim().parse::<u64>().ok()?;
    Some((first, last))
}

/// Whether a text declares a counter of a name.
fn is_counter(file: &File, name: &str) -> bool {
    for item in &file.items {
        if let ItemTree::Counter(counter) = item {
            if counter.name.text == name {
                return true;
            }
        }
    }
    false
}

/// The declared range of a path of the dump, if it is known and isn't `[n:0]`.
fn turned_range(meant: &Meant<'_>, file: &File, path: &str) -> Option<Range> {
    if is_counter(file, path) {
        return None;
    }
    for one in meant.turned {
        if one.path.as_str() == path {
            return Some(one.range);
        }
    }
    None
}

/// The select that reads declared bits of these numbers, if there are such.
fn meant_select(
    alloc: Global,
    range: Range,
    bounds: (u64, u64),
) -> Result<Option<String>, AllocError> {
    let Some(first) = place_of(range, u128::from(bounds.0)) else {
        return Ok(None);
    };
    let Some(last) = place_of(range, u128::from(bounds.1)) else {
        return Ok(None);
    };
    let (high, low) = (first.max(last), first.min(last));
    if high == low {
        return Ok(Some(format!(in alloc; "[{high}]")?));
    }
    Ok(Some(format!(in alloc; "[{high}:{low}]")?))
}

/// What is told of a select of a path with another declared range than `[n:0]`: what reads the bits
/// that are meant.
fn told_turned(
    alloc: Global,
    range: Range,
    path: &str,
    select: &str,
) -> Result<String, AllocError> {
    let Range { first, last } = range;
    let meant = match bounds_of(select) {
        None => None,
        Some(bounds) => meant_select(alloc, range, bounds)?,
    };
    let mut told = format!(in alloc; "Y4 SliceRange; {path} is declared [{first}:{last}]")?;
    match meant {
        None => {
            told.push_str(", and ")?;
            told.push_str(select)?;
            told.push_str(" asks for others")?;
        }
        Some(meant) => {
            told.push_str(": write ")?;
            told.push_str(path)?;
            told.push_str(meant.as_str())?;
            told.push_str(" for its ")?;
            told.push_str(select)?;
        }
    }
    Ok(told)
}

/// What is told of a select of a path of some bits: those that there are, and those that are asked
/// for.
fn told_bits(
    alloc: Global,
    meant: &Meant<'_>,
    width: u32,
    path: &str,
    select: &str,
) -> Result<String, AllocError> {
    let most = width.saturating_sub(1);
    let head = "Y4 SliceRange; the higher bit stands first";
    if let Some((low, high)) = bounds_of(select) {
        if low < high && high < u64::from(width) {
            if meant.knows_ranges {
                return format!(in alloc; "{head}: write {path}[{high}:{low}]");
            }
            return format!(in alloc; "{head}: {path}[{high}:{low}] of a [{most}:0]");
        }
    }
    format!(in alloc;
        "Y4 SliceRange; {path} has {width} bits, [{most}:0], and {select} asks for others"
    )
}

/// What is told of a select of a path that stands at a byte.
pub(crate) fn told_select(
    alloc: Global,
    meant: &Meant<'_>,
    text: &str,
    file: &File,
    path: &str,
    at: usize,
) -> Result<String, AllocError> {
    let Some(width) = width_of(meant, file, path) else {
        return String::from_str(alloc, "Y4 SliceRange");
    };
    let select = select_from(text, at.saturating_add(path.len())).unwrap_or("this");
    match turned_range(meant, file, path) {
        Some(range) => told_turned(alloc, range, path, select),
        None => told_bits(alloc, meant, width, path, select),
    }
}
