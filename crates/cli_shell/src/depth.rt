//! How deep a text is, and what stack that takes.

use cli_faults::Fault;
use lexer::{Token, lex};
use std::alloc::Global;

/// How many bytes of stack each part of a chain takes at the most, which is resolved inside of the
/// one before it.
const PART: usize = 1024;

/// How many bytes of a text make a part at the least, as in `##1a`.
const LEAST: usize = 4;

/// How many bytes of stack all else takes.
const REST: usize = 1 << 19;

/// Whether a word or a sign joins two parts of a chain.
fn joins(text: &str) -> bool {
    matches!(
        text,
        "##" | "or" | "and" | "intersect" | "throughout" | "within"
    )
}

/// How many parts may lie inside one another: those of the longest assertion, and of all named
/// sequences.
fn parts_in(tokens: &[Token]) -> usize {
    let (mut longest, mut here, mut declared) = (0usize, 0usize, 0usize);
    let mut is_declared = false;
    for token in tokens {
        let joined = usize::from(joins(token.text));
        match token.text {
            "sequence" => is_declared = true,
            "endsequence" => is_declared = false,
            ";" => {
                longest = longest.max(here);
                here = 0;
            }
            _ if is_declared => declared = declared.saturating_add(joined),
            _ => here = here.saturating_add(joined),
        }
    }
    longest.max(here).saturating_add(declared)
}

/// Whether so many parts fit on a stack of so many bytes.
fn fits(parts: usize, stack: usize) -> bool {
    parts <= stack.saturating_sub(REST) / PART
}

/// Want of memory, if a stack of so many bytes may not suffice for a text; nothing of one without
/// tokens, whose fault is told later.
pub fn look_whether_fits(alloc: Global, text: &str, stack: usize) -> Result<(), Fault<'static>> {
    if fits(text.len() / LEAST, stack) {
        return Ok(());
    }
    let Ok(tokens) = lex(alloc, text) else {
        return Ok(());
    };
    if fits(parts_in(tokens.as_slice()), stack) {
        return Ok(());
    }
    Err(Fault::Memory)
}
