//! What could stand where a token can't go on.

use crate::brackets::{open_before, opener_before};
use crate::item_words::{first_word, item_before};

/// Whether the body of a named sequence is open before a byte.
fn is_in_sequence(text: &str, at: usize) -> bool {
    match text.get(..at).unwrap_or("").rsplit_once("sequence") {
        None => false,
        Some((front, _)) => !front.ends_with("end"),
    }
}

/// What could go on with a named sequence, of which this stands after its word.
fn wanted_of_sequence(text: &str, at: usize) -> &'static str {
    let after = match text.get(..at).unwrap_or("").rsplit_once("sequence") {
        None => "",
        Some((_, after)) => after,
    };
    if after.find(';').is_some() {
        "a further step, as ##1 b, or endsequence"
    } else {
        "a semicolon after the sequence's name"
    }
}

/// What could go on with a counter.
fn wanted_of_counter(text: &str, at: usize) -> &'static str {
    let item = item_before(text, at);
    if item.find('[').is_none() {
        return "[ and the counter's width";
    }
    if open_before(text, at) > 0 {
        return ", and a second value";
    }
    if item.find("sub(").is_some() {
        return "a semicolon, since sub is the last clause";
    }
    if item.find("add(").is_some() {
        return "sub or a semicolon: clauses stand in the order clear, load, add, sub";
    }
    if item.find("load(").is_some() {
        return "add, sub or a semicolon: clauses stand in the order clear, load, add, sub";
    }
    if item.find("clear(").is_some() {
        return "load, add, sub or a semicolon, in this order";
    }
    "clear, load, add, sub or a semicolon, in this order"
}

/// What could go on with an assertion.
fn wanted_of_assertion(text: &str, at: usize) -> &'static str {
    let front = text.get(..at).unwrap_or("").trim_end();
    if front.ends_with("assert") || front.ends_with("assume") {
        return "property";
    }
    if front.ends_with("disable") {
        return "iff";
    }
    match opener_before(text, at) {
        None => "a semicolon",
        Some(opener) => {
            if text.get(..opener).unwrap_or("").trim_end().ends_with('@') {
                "posedge"
            } else {
                "@(posedge clk)"
            }
        }
    }
}

/// What could stand at a byte where the grammar wants something.
pub(crate) fn wanted_at(text: &str, at: usize, what: &'static str) -> &'static str {
    if what != "another token" {
        return what;
    }
    if is_in_sequence(text, at) {
        return wanted_of_sequence(text, at);
    }
    if first_word(item_before(text, at)) == "counter" {
        return wanted_of_counter(text, at);
    }
    wanted_of_assertion(text, at)
}
