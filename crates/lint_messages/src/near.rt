//! The names with which a path that stands for nothing is compared.

use std::alloc::{AllocError, Global};

/// How many names a path is compared with at most, since each pair of bytes is looked at.
const MOST_COMPARED: usize = 2_000;

/// How many bytes a path has at most that is compared.
const MOST_BYTES: usize = 256;

/// The scopes of a path, with the last dot, and its last word.
fn halves(path: &str) -> (&str, &str) {
    let start = match path.rfind('.') {
        Some(dot) => dot.saturating_add(1),
        None => 0,
    };
    (
        path.get(..start).unwrap_or(""),
        path.get(start..).unwrap_or(""),
    )
}

/// Whether a name is about as long as a path, and stands in its scope or has its last word.
fn is_compared(name: &str, path: &str, most_edits: usize) -> bool {
    if name.len().abs_diff(path.len()) > most_edits {
        return has_word_of(name, path);
    }
    halves(name).0 == halves(path).0 || has_word_of(name, path)
}

/// Whether a name has the last word of a path.
pub(crate) fn has_word_of(name: &str, path: &str) -> bool {
    halves(name).1 == halves(path).1
}

/// The names with which a path is compared, in their order: those in its scope that are about as
/// long, and those with its last word; none if it is very long, and no more than the first 2,000.
pub(crate) fn compared(
    alloc: Global,
    names: &[String],
    path: &str,
    most_edits: usize,
) -> Result<Vec<String>, AllocError> {
    let mut found = Vec::new(alloc);
    for name in names {
        if found.len() >= MOST_COMPARED || path.len() > MOST_BYTES {
            return Ok(found);
        }
        if is_compared(name.as_str(), path, most_edits) {
            found.push(name.clone()?)?;
        }
    }
    Ok(found)
}
