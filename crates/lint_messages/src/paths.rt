//! The names that a text may mean.

use crate::comments::comment_end;
use crate::meant::Meant;
use crate::near::{compared, has_word_of};
use crate::unnamed::Unnamed;
use diagnostics::nearest;
use std::alloc::{AllocError, Global};
use vcd_reader::{Dump, Name};

/// Whether a byte goes on with a path.
fn is_path_part(byte: u8) -> bool {
    byte.is_ascii_alphanumeric() || byte == b'_' || byte == b'$' || byte == b'.'
}

/// The path that begins at a byte of a text.
pub(crate) fn path_at(text: &str, at: usize) -> &str {
    let bytes = text.as_bytes();
    for end in at..bytes.len() {
        if !is_path_part(bytes[end]) {
            return text.get(at..end).unwrap_or("");
        }
    }
    text.get(at..).unwrap_or("")
}

/// The names of a text's sequences and counters.
fn push_declared(alloc: Global, text: &str, names: &mut Vec<String>) -> Result<(), AllocError> {
    let mut declares = false;
    for word in text.split_whitespace() {
        if declares {
            names.push(String::from_str(alloc, path_at(word, 0))?)?;
        }
        declares = word == "sequence" || word == "counter";
    }
    Ok(())
}

/// The names that a text may read: of its sequences and counters, and the paths of a dump.
pub fn names_of(alloc: Global, dump: &Dump, text: &str) -> Result<Vec<String>, AllocError> {
    let mut names = Vec::new(alloc);
    push_declared(alloc, text, &mut names)?;
    for Name { path, .. } in dump.names(alloc)? {
        if let Ok(path) = String::from_utf8(path) {
            names.push(path)?;
        }
    }
    Ok(names)
}

/// How many edits make another name of a path: fewer where it is short.
fn most_edits(path: &str) -> u8 {
    if path.len() < 6 { 1 } else { 2 }
}

/// Whether a name is a path in other letters, large and small, or ends with it after a dot.
fn ends_alike(name: &str, path: &str) -> bool {
    let Some(start) = name.len().checked_sub(path.len()) else {
        return false;
    };
    let Some(end) = name.get(start..) else {
        return false;
    };
    let is_apart = start == 0 || name.as_bytes().get(start - 1) == Some(&b'.');
    is_apart && end.eq_ignore_ascii_case(path)
}

/// Whether a name stands in the scope of a path.
fn is_inside(name: &str, path: &str) -> bool {
    match name.strip_prefix(path) {
        None => false,
        Some(rest) => rest.starts_with('.'),
    }
}

/// The first name that ends as a path does, or is it in other letters.
fn alike<'n>(names: &'n [String], path: &str) -> Option<&'n str> {
    for name in names {
        if ends_alike(name.as_str(), path) {
            return Some(name.as_str());
        }
    }
    None
}

/// The first name in the scope of a path.
fn inside<'n>(names: &'n [String], path: &str) -> Option<&'n str> {
    for name in names {
        if is_inside(name.as_str(), path) {
            return Some(name.as_str());
        }
    }
    None
}

/// Whether a path is one of the names.
pub(crate) fn is_listed(names: &[String], path: &str) -> bool {
    for name in names {
        if name.as_str() == path {
            return true;
        }
    }
    false
}

/// The first name that goes on from a path with so few letters that it may be meant.
fn begun<'n>(names: &'n [String], path: &str) -> Option<&'n str> {
    for name in names {
        let Some(rest) = name.as_str().strip_prefix(path) else {
            continue;
        };
        if rest.len() <= usize::from(most_edits(path)) && !rest.starts_with('.') {
            return Some(name.as_str());
        }
    }
    None
}

/// The name that goes on from a path, if no other one is nearer.
fn nearest_begun<'n>(
    alloc: Global,
    names: &'n [String],
    path: &str,
) -> Result<Option<&'n str>, AllocError> {
    let Some(name) = begun(names, path) else {
        return Ok(None);
    };
    let fewer = match name.len().saturating_sub(path.len()) {
        1 => 0u8,
        2 => 1u8,
        _ => return Ok(None),
    };
    match nearest(alloc, fewer, path, names)? {
        None => Ok(Some(name)),
        Some(_) => Ok(None),
    }
}

/// The first name with the last word of a path.
fn worded<'n>(names: &'n [String], path: &str) -> Option<&'n str> {
    for name in names {
        if has_word_of(name.as_str(), path) {
            return Some(name.as_str());
        }
    }
    None
}

/// The name that a path may mean, of some with which it is compared: the nearest one, of equally
/// near ones one that begins as it does, or else one that has its last word.
fn nearest_of<'n>(
    alloc: Global,
    near: &'n [String],
    path: &str,
) -> Result<Option<&'n str>, AllocError> {
    if let Some(name) = nearest_begun(alloc, near, path)? {
        return Ok(Some(name));
    }
    match nearest(alloc, most_edits(path), path, near)? {
        None => Ok(worded(near, path)),
        Some(place) => Ok(near.get(place).map(|name| name.as_str())),
    }
}

/// The name that a path may mean, if one is near, or else one that ends as it does.
fn name_meant(alloc: Global, names: &[String], path: &str) -> Result<Option<String>, AllocError> {
    let near = compared(alloc, names, path, usize::from(most_edits(path)))?;
    let meant = match nearest_of(alloc, near.as_slice(), path)? {
        Some(name) => Some(name),
        None => alike(names, path),
    };
    match meant {
        None => Ok(None),
        Some(name) => Ok(Some(String::from_str(alloc, name)?)),
    }
}

/// How many more unknown names of an item are told with the first.
const OTHERS: usize = 4;

/// Whether a word begins at a byte of a text.
fn begins_word(text: &str, at: usize) -> bool {
    let bytes = text.as_bytes();
    let here = bytes.get(at).copied().unwrap_or(b' ');
    if !here.is_ascii_alphabetic() && here != b'_' {
        return false;
    }
    at == 0 || !is_path_part(bytes.get(at - 1).copied().unwrap_or(b' '))
}

/// Whether a path stands for nothing: one of several words, or one word with which a name ends.
fn is_unknown(names: &[String], path: &str) -> bool {
    if is_listed(names, path) {
        return false;
    }
    path.contains('.') || alike(names, path).is_some()
}

/// Whether a path is one of some.
fn is_told(told: &[&str], path: &str) -> bool {
    for one in told {
        if *one == path {
            return true;
        }
    }
    false
}

/// Adds the other names of an item that stand for nothing, after one that begins at a byte, each
/// with the name that may be meant.
pub(crate) fn push_others(
    alloc: Global,
    meant: &Meant<'_>,
    text: &str,
    start: usize,
    message: &mut String,
) -> Result<(), AllocError> {
    let first = path_at(text, start);
    let mut told = Vec::new(alloc);
    told.push(first)?;
    let mut next = start.saturating_add(first.len());
    for at in start..text.len() {
        if at < next {
            continue;
        }
        if told.len() > OTHERS || text.as_bytes()[at] == b';' {
            return Ok(());
        }
        next = comment_end(text, at);
        let path = path_at(text, at);
        if !begins_word(text, at) || is_told(told.as_slice(), path) {
            continue;
        }
        if is_unknown(meant.names, path) {
            let other = told_path(alloc, meant, "; and", path)?;
            message.push_str(other.as_str())?;
            told.push(path)?;
        }
    }
    Ok(())
}

/// Why no rule can name that path, where it is such a variable.
fn unnamed_why(unnamed: &[Unnamed], path: &str) -> Option<&'static str> {
    for one in unnamed {
        if one.path.as_str() == path {
            return Some(one.why);
        }
    }
    None
}

/// What is told of a path that stands for nothing, with the name that may be meant, or why it can't
/// be named.
pub(crate) fn told_path(
    alloc: Global,
    meant: &Meant<'_>,
    what: &str,
    path: &str,
) -> Result<String, AllocError> {
    if is_listed(meant.names, path) {
        return format!(in alloc; "{what} {path}; it is refused itself, or no value");
    }
    if let Some(why) = unnamed_why(meant.unnamed, path) {
        return format!(in alloc; "{what} {path}; {why}");
    }
    if let Some(name) = inside(meant.names, path) {
        return format!(in alloc; "{what} {path}; it is a scope, in which {name} is");
    }
    match name_meant(alloc, meant.names, path)? {
        None => format!(in alloc; "{what} {path}"),
        Some(name) => format!(in alloc; "{what} {path}; did you mean {name}?"),
    }
}
