//! What to write where a token can't go on, as the text around it says.

use crate::brackets::{open_before, opener_before};
use crate::item_words::{first_word, item_before};

/// Whether a text stands at a byte.
fn stands_at(text: &str, at: usize, mark: &str) -> bool {
    match text.get(at..) {
        None => false,
        Some(rest) => rest.starts_with(mark),
    }
}

/// What stands before a byte: the last byte that is no white space, and whether a new line begins
/// between.
fn before(text: &str, at: usize) -> (u8, bool) {
    let mut last = b' ';
    let mut has_feed = false;
    for byte in text.as_bytes().iter().take(at) {
        if !byte.is_ascii_whitespace() {
            last = *byte;
            has_feed = false;
        }
        if *byte == b'\n' {
            has_feed = true;
        }
    }
    (last, has_feed)
}

/// Whether an item, a line or the text ends before a byte.
fn is_at_end(text: &str, at: usize, has_feed: bool) -> bool {
    has_feed || at >= text.len() || stands_at(text, at, ";")
}

/// What to write where the token at a byte can't go on.
pub(crate) fn token_hint(text: &str, at: usize) -> Option<&'static str> {
    if stands_at(text, at, "=") && !stands_at(text, at, "==") {
        return Some("write == to compare");
    }
    if stands_at(text, at, "#") && !stands_at(text, at, "##") {
        return Some("write ##5 for 5 clocks: #5 is a time, which no assertion has");
    }
    let (last, has_feed) = before(text, at);
    if is_at_end(text, at, has_feed) && open_before(text, at) > 0 {
        return Some("is a ) missing before it?");
    }
    if stands_at(text, at, ")") && open_before(text, at) == 0 {
        return Some("there is a ) too many");
    }
    if last != b')' {
        return None;
    }
    if text.get(at..).unwrap_or("").trim_start().is_empty() {
        return Some("is a ; missing at the end?");
    }
    if has_feed {
        return Some("is a ; missing before it?");
    }
    None
}

/// The row of codes that says which number a bound is to be: that of `$past`, of a counter's width,
/// or of all others.
pub(crate) fn bound_code(text: &str, at: usize) -> &'static str {
    let front = match opener_before(text, at) {
        None => "",
        Some(opener) => text.get(..opener).unwrap_or("").trim_end(),
    };
    if front.ends_with("$past") {
        return "P4 of $past";
    }
    if item_before(front, front.len())
        .trim_start()
        .starts_with("counter ")
    {
        return "P4 of a counter";
    }
    "P4"
}

/// Whether all bytes may stand in a name, and there are some.
fn is_name(word: &str) -> bool {
    let mut names = false;
    for byte in word.as_bytes() {
        if !byte.is_ascii_alphanumeric() && *byte != b'_' {
            return false;
        }
        names = true;
    }
    names
}

/// Whether a label with a dash stands round a byte: a word before it in its item, and a word and a
/// colon after it.
fn is_dashed_label(text: &str, at: usize) -> bool {
    let Some((_, line)) = item_before(text, at).rsplit_once('\n') else {
        return is_dashed_word(item_before(text, at), text, at);
    };
    is_dashed_word(line, text, at)
}

/// Whether a word stands before a dash, and a word and a colon after it.
fn is_dashed_word(front: &str, text: &str, at: usize) -> bool {
    let Some(rest) = text.get(at..) else {
        return false;
    };
    let Some((after, _)) = rest.split_once(':') else {
        return false;
    };
    let Some(word) = after.strip_prefix('-') else {
        return false;
    };
    is_name(front.trim()) && is_name(word.trim_end())
}

/// Whether a name alone stands at a byte in the brackets of an assertion: that of a property.
fn is_lone_name(text: &str, at: usize) -> bool {
    let Some((word, _)) = text.get(at..).unwrap_or("").split_once(')') else {
        return false;
    };
    let front = text.get(..at).unwrap_or("").trim_end();
    let Some(before) = front.strip_suffix('(') else {
        return false;
    };
    is_name(word.trim_end()) && before.trim_end().ends_with("property")
}

/// The text without the path with which it ends.
fn without_path(text: &str) -> &str {
    for (at, byte) in text.as_bytes().iter().enumerate().rev() {
        if !byte.is_ascii_alphanumeric() && *byte != b'_' && *byte != b'.' {
            return text.get(..at.saturating_add(1)).unwrap_or("");
        }
    }
    ""
}

/// The text without the select with which it ends.
fn without_select(text: &str) -> &str {
    if !text.ends_with(']') {
        return text;
    }
    match text.rsplit_once('[') {
        None => text,
        Some((front, _)) => front,
    }
}

/// Whether `[*]` stands round a byte, and is all of a side that may not match without a clock.
fn is_whole_side(text: &str, at: usize) -> bool {
    let Some(start) = at.checked_sub(2) else {
        return false;
    };
    let Some(rest) = text.get(start..).unwrap_or("").strip_prefix("[*]") else {
        return false;
    };
    let front = without_select(text.get(..start).unwrap_or(""));
    let before = without_path(front).trim_end();
    let begins = before.ends_with("->") || before.ends_with("=>") || before.ends_with(')');
    begins && rest.trim_start().starts_with(')')
}

/// What to write in place of a string at a byte.
fn string_hint(text: &str, at: usize) -> &'static str {
    let front = text.get(..at).unwrap_or("").trim_end();
    if item_before(text, at).find("else").is_some() {
        return "leave out all from else on: the report has the clock of each failure";
    }
    if front.ends_with('(') && item_before(text, at).find('$').is_some() {
        return "leave the call out: an assertion has no action, and the report has each failure";
    }
    "a rule has no strings: write the bytes as a number, as 24'h616263"
}

/// Whether a word stands first.
fn begins_with(text: &str, word: &str) -> bool {
    first_word(text) == word
}

/// What to write where a bracket, a comma or a string stands at a byte.
fn sign_hint(text: &str, at: usize) -> Option<&'static str> {
    if stands_at(text, at, "\"") {
        return Some(string_hint(text, at));
    }
    if is_whole_side(text, at) {
        return Some("write [*1:20]: what has to hold can't match without a clock");
    }
    if stands_at(text, at, "(") && begins_with(item_before(text, at), "sequence") {
        return Some("a sequence has no arguments: write it out where it is used");
    }
    if stands_at(text, at, ";") && item_before(text, at).trim().is_empty() {
        return Some("leave it out: nothing stands before it");
    }
    if stands_at(text, at, ".") && !text.get(..at).unwrap_or("").ends_with(']') {
        return Some("numbers are whole, and a path has no word of the language");
    }
    if !stands_at(text, at, ",") {
        return None;
    }
    if is_in_clock(text, at) {
        return Some("an assertion has one clock: write @(posedge clk) disable iff (!rst_n) ..");
    }
    let opener = opener_before(text, at)?;
    if text.as_bytes().get(opener) == Some(&b'[') {
        return Some("write a colon between bounds, as ##[1:5] for ##[1,5]");
    }
    None
}

/// What to write where more than a mark at a byte says what was meant.
pub(crate) fn mark_hint(text: &str, at: usize) -> Option<&'static str> {
    if is_lone_name(text, at) {
        return Some("write the clock and the body of that property, as @(posedge clk) ..");
    }
    if is_dashed_label(text, at) {
        return Some("a label has letters, digits and _, as o_p for o-p");
    }
    match word_hint(text, at) {
        None => sign_hint(text, at),
        Some(hint) => Some(hint),
    }
}

/// Whether the brackets of a clock are open before a byte.
fn is_in_clock(text: &str, at: usize) -> bool {
    match opener_before(text, at) {
        None => false,
        Some(opener) => text.get(..opener).unwrap_or("").trim_end().ends_with('@'),
    }
}

/// What to write where a word joins what can't be joined at a byte, or stands too late.
fn word_hint(text: &str, at: usize) -> Option<&'static str> {
    if stands_at(text, at, "disable") {
        return Some("it stands after the clock, as @(posedge clk) disable iff (!rst_n) ..");
    }
    if stands_at(text, at, "or ") && is_in_clock(text, at) {
        return Some("an assertion has one clock: write @(posedge clk) disable iff (!rst_n) ..");
    }
    if !holds_arrow(item_before(text, at)) {
        return None;
    }
    if stands_at(text, at, "and ") {
        return Some("write an assertion for each side of and: an implication can't be joined");
    }
    if stands_at(text, at, "or ") {
        return Some("write !c ##0 A |-> B for (A |-> B) or c: an implication can't be joined");
    }
    None
}

/// Whether an implication stands in the item that a text begins with.
fn holds_arrow(text: &str) -> bool {
    let item = match text.split_once(';') {
        None => text,
        Some((front, _)) => front,
    };
    item.find("|->").is_some() || item.find("|=>").is_some()
}

/// What to write for `not` of an implication in brackets, if that stands at a byte.
pub(crate) fn not_hint(text: &str, at: usize) -> Option<&'static str> {
    let rest = text.get(at..)?.strip_prefix("not")?;
    if rest.trim_start().starts_with('(') && holds_arrow(rest) {
        return Some(
            "write a && !b for not (a |-> b), a ##1 !b for not (a |=> b), and S |-> 0 for not (S)",
        );
    }
    None
}

/// What to write for `if`, `else` or `default` at a byte where what stands beside it says what was
/// meant.
pub(crate) fn branch_hint(text: &str, at: usize, word: &str) -> Option<&'static str> {
    let front = text.get(..at).unwrap_or("").trim_end();
    let rest = text.get(at.saturating_add(word.len())..).unwrap_or("");
    if word == "if" && front.ends_with("disable") {
        return Some("write iff, as in disable iff (!rst_n)");
    }
    if word == "else" && (front.ends_with(';') || front.ends_with("end")) {
        return Some("write its condition into each antecedent: !C && A |-> B");
    }
    if word == "default" && rest.trim_start().starts_with(':') {
        return Some("write an assertion for each case");
    }
    None
}

/// Whether a word at a byte stands in a path.
fn is_in_path(text: &str, at: usize, word: &str) -> bool {
    let front = text.get(..at).unwrap_or("");
    front.ends_with('.') || stands_at(text, at.saturating_add(word.len()), ".")
}

/// What to write for a word of the language that stands in a path.
pub(crate) fn path_hint(text: &str, at: usize, word: &str) -> Option<&'static str> {
    if is_in_path(text, at, word) {
        return Some("a path has no word of the language: name the signal by a wire in the bench");
    }
    None
}

/// How many bytes stand first that are digits of a plain number.
fn count_digits(bytes: &[u8]) -> usize {
    for (at, byte) in bytes.iter().enumerate() {
        if !byte.is_ascii_digit() && *byte != b'_' {
            return at;
        }
    }
    bytes.len()
}

/// The row of codes that says what is wrong with the number at a byte: that of a plain one, or of
/// all others.
pub(crate) fn number_code(text: &str, at: usize) -> &'static str {
    let bytes = text.get(at..).unwrap_or("").as_bytes();
    let count = count_digits(bytes);
    let next = bytes.get(count).copied().unwrap_or(b' ');
    if count == 0 || next.is_ascii_alphanumeric() || next == b'\'' || next == b'?' {
        return "L2";
    }
    "L2 of a plain number"
}
