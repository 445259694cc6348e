//! Words and paths.

ghost use Rattle.std.specs.Prelude.{◌≡◌, IfOk, map};
ghost use Rattle.std.specs.List.{list_all, list_any};
ghost use Rattle.std.specs.Str.{bytes_eq};
ghost use Rattle.axi4_rules.specs.Names.{is_word_start, is_word_part, is_word};
ghost use Rattle.axi4_rules.specs.Names.{is_keyword, are_path_words, is_path};
ghost use Rattle.axi4_rules.specs.Views.{texts_of};

use crate::text::pieces;
use std::alloc::{AllocError, Global};

/// The words that no path may begin with.
const KEYWORDS: [&str; 40] = [
    "sequence",
    "endsequence",
    "assert",
    "assume",
    "property",
    "posedge",
    "disable",
    "iff",
    "or",
    "and",
    "throughout",
    "intersect",
    "within",
    "first_match",
    "strong",
    "weak",
    "not",
    "if",
    "else",
    "case",
    "always",
    "nexttime",
    "eventually",
    "until",
    "s_always",
    "s_nexttime",
    "s_eventually",
    "s_until",
    "s_until_with",
    "until_with",
    "implies",
    "accept_on",
    "reject_on",
    "cover",
    "restrict",
    "default",
    "clocking",
    "negedge",
    "edge",
    "local",
];

fn is_word_start(byte: u8) -> bool
    ensures { result ≡ is_word_start byte }
{
    byte.is_ascii_alphabetic() || byte == b'_'
}

fn is_word_part(byte: u8) -> bool
    ensures { result ≡ is_word_part byte }
{
    is_word_start(byte) || byte.is_ascii_digit() || byte == b'$'
}

fn are_word_parts(bytes: &[u8]) -> bool
    ensures { result ≡ list_all is_word_part bytes.now }
{
    for byte in bytes {
        if !is_word_part(*byte) {
            return false;
        }
    }
    true
}

/// Whether the text is a word.
#[tactic(auto, unfolding(crate::specs::Names::is_word))]
pub(crate) fn is_word(text: &str) -> bool
    ensures { result ≡ is_word text.now }
{
    match text.as_bytes() {
        [first, rest @ ..] => is_word_start(*first) && are_word_parts(rest),
        [] => false,
    }
}

fn is_one_of(text: &str, words: &[&str]) -> bool
    ensures { result ≡ list_any (bytes_eq text.now) (texts_of words.now) }
{
    for word in words {
        if text == *word {
            return true;
        }
    }
    false
}

#[tactic(auto, unfolding(crate::specs::Names::is_keyword, crate::specs::Names::keywords))]
fn is_keyword(text: &str) -> bool
    ensures { result ≡ is_keyword text.now }
{
    is_one_of(text, &KEYWORDS)
}

fn are_words(texts: &[&str]) -> bool
    ensures { result ≡ list_all is_word (texts_of texts.now) }
{
    for text in texts {
        if !is_word(text) {
            return false;
        }
    }
    true
}

fn are_path_words(words: &[&str]) -> bool
    ensures { result ≡ are_path_words (texts_of words.now) }
{
    match words {
        [first, ..] => !is_keyword(first) && are_words(words),
        [] => false,
    }
}

/// Whether the text is a path.
#[tactic(auto, unfolding(crate::specs::Names::is_path))]
pub(crate) fn is_path(alloc: Global, text: &str) -> Result<bool, AllocError>
    ensures { IfOk result (λ r. r ≡ is_path text.now) }
{
    let words = pieces(alloc, text, '.')?;
    Ok(are_path_words(&words))
}
