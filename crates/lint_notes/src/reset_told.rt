//! Note 5: a clock that disables its assertion, or is called as a reset is.

ghost use Rattle.std.specs.Prelude.{◌≡◌, ◌≤◌, length, map, IfOk};
ghost use Rattle.std.specs.List.{list_any, suffix_len};
ghost use Rattle.std.specs.Str.{bytes_eq};
ghost use Rattle.lint_notes.specs.Words.{path_at, after_name};
ghost use Rattle.lint_notes.specs.Told.{after_sign, is_closed, is_lone, is_disabled_by};
ghost use Rattle.lint_notes.specs.Told.{is_reset_clock, has_reset_note, first_byte, IsNoteWhen};
ghost use Rattle.lint_notes.specs.Told.{is_no_dot, last_word, is_reset_name};

use crate::note::Note;
use crate::words::{after_name, is, path_at};
use lexer::Token;
use std::alloc::{AllocError, Global};

/// The tokens after a sign of complement, if one stands first.
fn after_sign<'t, 'a>(tokens: &'t [Token<'a>]) -> &'t [Token<'a>]
    ensures { result.now ≡ after_sign tokens.now }
{
    match tokens {
        [] => tokens,
        [first, rest @ ..] => {
            if is(first, "!") {
                return rest;
            }
            if is(first, "~") {
                return rest;
            }
            tokens
        }
    }
}

fn is_closed(tokens: &[Token]) -> bool
    ensures { result ≡ is_closed tokens.now }
{
    match tokens {
        [] => false,
        [first, ..] => is(first, ")"),
    }
}

/// Whether a name stands first that is this path, and then a closing bracket.
fn is_lone(text: &[u8], path: &[u8], tokens: &[Token]) -> bool
    ensures { result ≡ is_lone text.now path.now tokens.now }
{
    match tokens {
        [] => false,
        [first, ..] => path_at(text, first.at) == path && is_closed(after_name(text, tokens)),
    }
}

/// Whether the disabling of an assertion by a path alone stands first.
fn is_disabled_by(text: &[u8], path: &[u8], tokens: &[Token]) -> bool
    ensures { result ≡ is_disabled_by text.now path.now tokens.now }
{
    match tokens {
        [_, disable, iff, _, rest @ ..] => {
            is(disable, "disable") && is(iff, "iff") && is_lone(text, path, after_sign(rest))
        }
        _ => false,
    }
}

/// Whether a clock stands first that disables the assertion, too.
fn is_reset_clock(text: &[u8], tokens: &[Token]) -> bool
    ensures { result ≡ is_reset_clock text.now tokens.now }
{
    match tokens {
        [] => false,
        [clock, ..] => { is_disabled_by(text, path_at(text, clock.at), after_name(text, tokens)) }
    }
}

/// What resets are called.
const RESETS: [&str; 12] = [
    "rst", "rst_n", "rst_ni", "rstn", "nrst", "arst", "arst_n", "reset", "reset_n", "resetn",
    "areset", "aresetn",
];

/// How many bytes stand after the last dot.
fn word_length(path: &[u8]) -> usize
    ensures count { result ≡ suffix_len is_no_dot path.now }
    ensures high { result ≤ length path.now }
{
    let mut count = 0;
    for byte in path {
        if *byte == b'.' {
            count = 0;
        } else {
            count += 1;
        }
    }
    count
}

/// The last word of a path.
fn last_word(path: &[u8]) -> &[u8]
    ensures { result.now ≡ last_word path.now }
{
    &path[path.len() - word_length(path)..]
}

/// Whether a word is one of some.
fn is_among(words: &[&str], word: &[u8]) -> bool
    ensures { result ≡ list_any (bytes_eq word.now) (map (λ w. w.now) words.now) }
{
    for one in words {
        if word == one.as_bytes() {
            return true;
        }
    }
    false
}

/// Whether a clock stands first that is called as resets are.
fn is_reset_name(text: &[u8], tokens: &[Token]) -> bool
    ensures { result ≡ is_reset_name text.now tokens.now }
{
    match tokens {
        [] => false,
        [clock, ..] => is_among(&RESETS, last_word(path_at(text, clock.at))),
    }
}

/// What is told of a clock.
fn message_of(disables: bool) -> &'static str {
    if disables {
        "the clock disables the assertion, too: is it a reset?"
    } else {
        "the clock is called as a reset is: is it one?"
    }
}

/// The note of `posedge` with which tokens begin, where its clock disables the assertion, too, or
/// is called as resets are.
pub(crate) fn reset_note(
    alloc: Global,
    text: &[u8],
    tokens: &[Token],
) -> Result<Option<Note>, AllocError>
    ensures { IfOk result (λ n. IsNoteWhen (has_reset_note text.now tokens.now) 5
        (first_byte tokens.now) n) }
{
    let [first, rest @ ..] = tokens else {
        return Ok(None);
    };
    if !is(first, "posedge") {
        return Ok(None);
    }
    let disables = is_reset_clock(text, rest);
    if !disables && !is_reset_name(text, rest) {
        return Ok(None);
    }
    Ok(Some(Note {
        number: 5,
        at: first.at,
        message: String::from_str(alloc, message_of(disables))?,
    }))
}
