//! A text with some of its assertions alone.

ghost use Rattle.std.specs.Prelude.{◌≡◌, ◌++◌, map, take, drop, string_bytes, codes, Ok};
ghost use Rattle.std.specs.Prelude.{OnOk, IfOk, IsOk, IsErr};
ghost use Rattle.lexer.specs.Cutting.{cut_of, tokens_of};
ghost use Rattle.diagnostics.specs.Blanked.{blank_for};
ghost use Rattle.source_files.specs.Heads.{head_of};
ghost use Rattle.source_files.specs.Chosen.{between, is_meant, label_text, item_text, chosen_text};
ghost use Rattle.source_files.specs.Chosen.{is_named, added_to, first_unmatched, IsChosen, IsLeft};

use crate::added::Added;
use crate::globs::means;
use crate::heads::{Named, named_in};
use diagnostics::item_ends;
use lexer::{LexFault, Token, lex};
use std::alloc::{AllocError, Global};

/// The text with some of its assertions alone.
#[derive(Drop)]
pub struct Choice {
    pub text: String,
    /// What was added to it.
    pub added: Vec<Added>,
    /// The first of the patterns that means none of its assertions.
    pub unmatched: Option<usize>,
}

/// The bytes up to one.
fn front(bytes: &[u8], end: usize) -> &[u8]
    ensures { result.now ≡ take end bytes.now }
{
    &bytes[..end.min(bytes.len())]
}

/// The bytes from one on.
fn rest(bytes: &[u8], start: usize) -> &[u8]
    ensures { result.now ≡ drop start bytes.now }
{
    &bytes[start.min(bytes.len())..]
}

/// The bytes from one up to another.
fn between(bytes: &[u8], start: usize, end: usize) -> &[u8]
    ensures { result.now ≡ between bytes.now start end }
{
    rest(front(bytes, end), start)
}

/// Adds what stands for bytes that are blanked.
fn push_blanks(out: &mut Vec<u8>, bytes: &[u8]) -> Result<(), AllocError>
    ensures { OnOk result (out.new.items ≡ out.old.items ++ map blank_for bytes.now) }
{
    for byte in bytes {
        out.push(if *byte == b'\n' { b'\n' } else { b' ' })?;
    }
    Ok(())
}

/// Whether one of some patterns means a name.
fn is_meant(patterns: &[String], name: &str) -> bool
    ensures { result ≡ is_meant patterns.now name.now }
{
    for pattern in patterns {
        if means(pattern.as_bytes(), name.as_bytes()) {
            return true;
        }
    }
    false
}

/// Adds the label of an assertion that has none.
fn push_label(out: &mut Vec<u8>, one: &Named) -> Result<(), AllocError>
    ensures { OnOk result (out.new.items ≡ out.old.items ++ label_text (head_of one.now)) }
{
    if one.is_made {
        out.extend_from_slice(one.name.as_bytes())?;
        out.extend_from_slice(b":")?;
    }
    Ok(())
}

/// Adds an assertion with its label.
fn push_whole(out: &mut Vec<u8>, bytes: &[u8], one: &Named) -> Result<(), AllocError>
    ensures { OnOk result (out.new.items ≡ out.old.items
        ++ (between bytes.now one.now.start one.now.first ++ label_text (head_of one.now)
        ++ between bytes.now one.now.first one.now.end)) }
{
    out.extend_from_slice(between(bytes, one.start, one.first))?;
    push_label(out, one)?;
    out.extend_from_slice(between(bytes, one.first, one.end))?;
    Ok(())
}

/// Adds what is left of an assertion.
fn push_item(
    out: &mut Vec<u8>,
    bytes: &[u8],
    patterns: &[String],
    one: &Named,
) -> Result<(), AllocError>
    ensures { OnOk result (out.new.items ≡ out.old.items
        ++ item_text patterns.now bytes.now (head_of one.now)) }
{
    if is_meant(patterns, one.name.as_str()) {
        return push_whole(out, bytes, one);
    }
    push_blanks(out, between(bytes, one.start, one.end))
}

/// What is left of a text.
fn chosen_bytes(
    alloc: Global,
    bytes: &[u8],
    patterns: &[String],
    named: &[Named],
) -> Result<Vec<u8>, AllocError>
    ensures { IfOk result (λ out. out.items
        ≡ chosen_text patterns.now bytes.now 0 (map head_of named.now)) }
{
    let mut out = Vec::new(alloc);
    let mut at = 0;
    for one in named {
        out.extend_from_slice(between(bytes, at, one.start))?;
        push_item(&mut out, bytes, patterns, one)?;
        at = one.end;
    }
    out.extend_from_slice(rest(bytes, at))?;
    Ok(out)
}

/// What is added to a text.
fn added_to(alloc: Global, patterns: &[String], named: &[Named]) -> Result<Vec<Added>, AllocError>
    ensures { IfOk result (λ all. all.items ≡ added_to patterns.now (map head_of named.now)) }
{
    let mut all = Vec::new(alloc);
    for one in named {
        if one.is_made && is_meant(patterns, one.name.as_str()) {
            all.push(Added {
                at: one.first,
                count: one.name.len() + 1,
                from: one.first,
            })?;
        }
    }
    Ok(all)
}

/// Whether a pattern means one of some assertions.
fn is_named(pattern: &str, named: &[Named]) -> bool
    ensures { result ≡ is_named pattern.now (map head_of named.now) }
{
    for one in named {
        if means(pattern.as_bytes(), one.name.as_bytes()) {
            return true;
        }
    }
    false
}

/// The first of some patterns that means none of some assertions.
fn first_unmatched(patterns: &[String], named: &[Named]) -> Option<usize>
    ensures { result ≡ first_unmatched patterns.now (map head_of named.now) }
{
    for (place, pattern) in patterns.iter().enumerate() {
        if !is_named(pattern.as_str(), named) {
            return Some(place);
        }
    }
    None
}

/// What is left of a text that has these tokens.
fn chosen_of(
    alloc: Global,
    text: &str,
    tokens: &[Token],
    patterns: &[String],
) -> Result<Choice, AllocError>
    requires { tokens_of text.now ≡ Ok (map cut_of tokens.now) }
    ensures { IfOk result (IsChosen text.now patterns.now) }
{
    let ends = item_ends(alloc, text)?;
    let named = named_in(alloc, tokens, ends.as_slice())?;
    let bytes = chosen_bytes(alloc, text.as_bytes(), patterns, named.as_slice())?;
    // Items are cut between characters, so that what is left is text.
    let Ok(text) = String::from_utf8(bytes) else {
        return Err(AllocError);
    };
    Ok(Choice {
        text,
        added: added_to(alloc, patterns, named.as_slice())?,
        unmatched: first_unmatched(patterns, named.as_slice()),
    })
}

/// A text as it is.
fn whole(alloc: Global, text: &str) -> Result<Choice, AllocError>
    ensures { IfOk result (IsLeft text.now) }
{
    Ok(Choice {
        text: String::from_str(alloc, text)?,
        added: Vec::new(alloc),
        unmatched: None,
    })
}

/// The text with those of its assertions alone that one of some patterns means by their names. The
/// others are blanked byte for byte, and those without a label get their names as labels.
///
/// A text that has no tokens is left as it is.
pub fn chosen(alloc: Global, text: &str, patterns: &[String]) -> Result<Choice, AllocError>
    ensures chosen { IsOk (tokens_of text.now) → IfOk result (IsChosen text.now patterns.now) }
    ensures left { IsErr (tokens_of text.now) → IfOk result (IsLeft text.now) }
{
    match lex(alloc, text) {
        Ok(tokens) => chosen_of(alloc, text, tokens.as_slice(), patterns),
        Err(LexFault::Memory) => Err(AllocError),
        Err(_) => whole(alloc, text),
    }
}
