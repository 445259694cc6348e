//! Words with which items begin that a rule doesn't have.

use diagnostics::{Hint, hint_beside};

/// What to write in place of items that begin with these words.
const HEADS: [Hint; 44] = [
    ("module", ITEMS_STAND_ALONE),
    ("interface", ITEMS_STAND_ALONE),
    ("program", ITEMS_STAND_ALONE),
    ("package", ITEMS_STAND_ALONE),
    ("checker", ITEMS_STAND_ALONE),
    ("endmodule", CLOSES_NOTHING),
    ("endinterface", CLOSES_NOTHING),
    ("endprogram", CLOSES_NOTHING),
    ("endpackage", CLOSES_NOTHING),
    ("endchecker", CLOSES_NOTHING),
    ("endclocking", CLOSES_NOTHING),
    ("endgenerate", CLOSES_NOTHING),
    ("endproperty", CLOSES_NOTHING),
    ("end", CLOSES_NOTHING),
    ("generate", "leave it out: write each assertion out"),
    ("begin", "leave it out, with its end"),
    ("for", "write an assertion for each value"),
    ("genvar", "write an assertion for each value"),
    ("let", "leave it out: write the expression where it is used"),
    (
        "function",
        "leave it out: write the expression where it is used",
    ),
    ("task", "leave it out: an assertion has no action"),
    (
        "initial",
        "leave it out: an assertion is judged at each clock",
    ),
    (
        "final",
        "leave it out: an assertion is judged at each clock",
    ),
    (
        "always_ff",
        "leave it out: the clock stands in each assertion",
    ),
    (
        "always_comb",
        "leave it out: the clock stands in each assertion",
    ),
    (
        "bind",
        "leave it out: rules name signals by their paths in the dump",
    ),
    (
        "import",
        "leave it out: rules name signals by their paths in the dump",
    ),
    ("parameter", "write its value where it is used"),
    ("localparam", "write its value where it is used"),
    ("typedef", "leave it out: rules have bits alone"),
    ("timeunit", "leave it out: a rule has no time"),
    ("timeprecision", "leave it out: a rule has no time"),
    ("wire", BENCH),
    ("logic", BENCH),
    ("reg", BENCH),
    ("bit", BENCH),
    ("int", BENCH),
    ("integer", BENCH),
    ("byte", BENCH),
    ("assign", BENCH),
    ("input", BENCH),
    ("output", BENCH),
    ("expect", "write assert property (@(posedge clk) ..)"),
    (
        "endtask",
        "leave out the word before: it closes nothing here",
    ),
];

/// What stands for a file's own frame.
const ITEMS_STAND_ALONE: &str =
    "leave it out: rules stand alone, and name signals by their paths in the dump";

/// What stands for words that close what no item opens.
const CLOSES_NOTHING: &str = "leave out the word before: it closes nothing here";

/// What stands for declarations of signals.
const BENCH: &str = "declare it in the bench, and name it by its path in the dump";

/// What stands of an item before a byte.
pub(crate) fn item_before(text: &str, at: usize) -> &str {
    let front = text.get(..at).unwrap_or("");
    match front.rsplit_once(';') {
        None => front,
        Some((_, item)) => item,
    }
}

/// The word that stands first.
pub(crate) fn first_word(text: &str) -> &str {
    let text = text.trim_start();
    for (at, byte) in text.as_bytes().iter().enumerate() {
        if !byte.is_ascii_alphanumeric() && *byte != b'_' {
            return text.get(..at).unwrap_or("");
        }
    }
    text
}

/// What to write in place of an item, where its first word alone stands before a byte.
pub(crate) fn head_hint(text: &str, at: usize) -> Option<&'static str> {
    let front = item_before(text, at).trim();
    let word = first_word(front);
    if word.is_empty() || word != front {
        return None;
    }
    match hint_beside(word, &HEADS) {
        Some(hint) => Some(hint),
        None => Some(
            "an item is NAME: assert property (@(posedge clk) ..); or a sequence or counter",
        ),
    }
}
