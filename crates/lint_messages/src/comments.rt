//! Texts without their comments.

use std::alloc::{AllocError, Global};

/// The byte after the comment that begins at a byte; that byte where none does.
pub(crate) fn comment_end(text: &str, at: usize) -> usize {
    let Some(rest) = text.get(at..) else {
        return at;
    };
    if rest.starts_with("//") {
        return at.saturating_add(rest.find('\n').unwrap_or(rest.len()));
    }
    if !rest.starts_with("/*") {
        return at;
    }
    match rest.find("*/") {
        None => text.len(),
        Some(length) => at.saturating_add(length).saturating_add(2),
    }
}

/// The text with blanks for its comments, so that all else stands where it stood.
pub(crate) fn without_comments(alloc: Global, text: &str) -> Result<String, AllocError> {
    let mut left = Vec::with_capacity(alloc, text.len())?;
    let mut end = 0usize;
    for (at, byte) in text.as_bytes().iter().enumerate() {
        if at >= end {
            end = comment_end(text, at);
        }
        left.push(if at < end && *byte != b'\n' {
            b' '
        } else {
            *byte
        })?;
    }
    match String::from_utf8(left) {
        Ok(left) => Ok(left),
        Err(_) => String::from_str(alloc, text),
    }
}
