//! Words that close nothing.

ghost use Rattle.std.specs.Prelude.{◌≡◌, map};
ghost use Rattle.std.specs.List.{list_any};
ghost use Rattle.diagnostics.specs.Strays.{is_name_byte, is_word_before, closes_nothing};
ghost use Rattle.diagnostics.specs.Linted.{item_of};

use crate::items::item_at;
use crate::marks::stands_before;

fn is_name_byte(byte: u8) -> bool
    ensures { result ≡ is_name_byte byte }
{
    byte.is_ascii_alphanumeric() || byte == b'_'
}

/// Whether a whole word stands before a byte.
fn is_word_before(text: &str, at: usize, word: &str) -> bool
    ensures { result ≡ is_word_before text.now at word.now }
{
    if !stands_before(text, at, word, word.len()) {
        return false;
    }
    if word.len() >= at {
        return true;
    }
    let before = text.as_bytes().get(at - word.len() - 1);
    !is_name_byte(before.copied().unwrap_or(0))
}

/// What closes no item of the profile.
const CLOSING_WORDS: [&str; 13] = [
    "end",
    "endcase",
    "endchecker",
    "endclass",
    "endclocking",
    "endfunction",
    "endgenerate",
    "endinterface",
    "endmodule",
    "endpackage",
    "endprogram",
    "endtask",
    "join",
];

/// Whether one of some words stands before a byte.
fn is_one_before(text: &str, at: usize, words: &[&str]) -> bool
    ensures { result ≡ list_any (is_word_before text.now at) (map (λ word. word.now) words.now) }
{
    for word in words {
        if is_word_before(text, at, word) {
            return true;
        }
    }
    false
}

/// Whether what stands before a byte closes what no item opens.
#[tactic(auto, unfolding(crate::specs::Strays::closing_words))]
pub(crate) fn closes_nothing(text: &str, at: usize) -> bool
    ensures { result ≡ closes_nothing text.now at }
{
    is_one_before(text, at, &CLOSING_WORDS)
}

/// The item that is refused by a fault at a byte: the one that holds it; but the one before that,
/// where this closes nothing, since such a word is taken for a label of what follows.
pub(crate) fn refused_item(text: &str, ends: &[usize], at: usize) -> usize
    ensures { result ≡ item_of text.now ends.now at }
{
    let item = item_at(ends, at.min(text.len().saturating_sub(1)));
    if item == 0 {
        return item;
    }
    let before = ends.get(item - 1).copied().unwrap_or(0);
    if closes_nothing(text, before) {
        item - 1
    } else {
        item
    }
}
