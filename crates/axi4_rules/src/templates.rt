//! Fills templates.

ghost use Rattle.std.specs.Prelude.{◌≡◌, ◌++◌, OnOk, IfOk, map, string_bytes};
ghost use Rattle.std.specs.List.{flat_map};
ghost use Rattle.std.specs.Prelude.{codes};
ghost use Rattle.axi4_rules.specs.Rules.{with_item, in_case, signal, own_name};
ghost use Rattle.axi4_rules.specs.Rules.{filled_word, filled, words};
ghost use Rattle.axi4_rules.specs.Seen.{port_data};
ghost use Rattle.axi4_rules.specs.Rows.{fills, filled_texts};
ghost use Rattle.axi4_rules.specs.Views.{Appends};

use crate::case::Case;
use crate::row_values::Filling;
use crate::text::fields;
use std::alloc::{AllocError, Global};

/// Adds the text with the item in place of its first `?`.
fn push_with_item(line: &mut String, text: &str, item: &str) -> Result<(), AllocError>
    ensures { OnOk result (Appends line.old line.new (with_item item.now text.now)) }
{
    match text.split_once('?') {
        Some((front, back)) => {
            line.push_str(front)?;
            line.push_str(item)?;
            line.push_str(back)
        }
        None => line.push_str(text),
    }
}

/// A name in the case.
fn in_case(case: Case, name: String) -> String
    ensures { string_bytes result ≡ in_case case (string_bytes name) }
{
    let mut name = name;
    match case {
        Case::Lower => {}
        Case::Upper => name.make_ascii_uppercase(),
    }
    name
}

/// Adds a signal of the channel.
fn push_signal(
    alloc: Global,
    line: &mut String,
    filling: Filling,
    word: &str,
) -> Result<(), AllocError>
    ensures { OnOk result (Appends line.old line.new (signal (fills filling.entry) word.now)) }
{
    let mut name = String::from_str(alloc, filling.channel)?;
    push_with_item(&mut name, word, filling.item)?;
    let name = in_case(filling.port.case, name);
    line.push_str(filling.port.prefix.as_str())?;
    line.push_str(name.as_str())
}

/// Adds a name of the port's own.
fn push_own_name(line: &mut String, filling: Filling, word: &str) -> Result<(), AllocError>
    ensures { OnOk result (Appends line.old line.new (own_name (fills filling.entry) word.now)) }
{
    line.push_str(filling.port.name.as_str())?;
    line.push_str("_")?;
    line.push_str(filling.channel)?;
    push_with_item(line, word, filling.item)
}

/// Adds a word that names no path.
fn push_word(
    alloc: Global,
    line: &mut String,
    filling: Filling,
    word: &str,
) -> Result<(), AllocError>
    ensures { OnOk result (Appends line.old line.new (filled_word (fills filling.entry) word.now)) }
{
    if let Some(rest) = word.strip_prefix('%') {
        return push_signal(alloc, line, filling, rest);
    }
    if let Some(rest) = word.strip_prefix('_') {
        return push_own_name(line, filling, rest);
    }
    push_with_item(line, word, filling.item)
}

/// Adds a word of a template.
#[tactic(auto, unfolding(crate::specs::Rules::filled))]
fn push_filled(
    alloc: Global,
    line: &mut String,
    filling: Filling,
    word: &str,
) -> Result<(), AllocError>
    ensures { OnOk result (Appends line.old line.new (filled (fills filling.entry) word.now)) }
{
    if word == "CLOCK" {
        return line.push_str(filling.port.clock.as_str());
    }
    if word == "RESET" {
        return line.push_str(filling.port.reset.as_str());
    }
    push_word(alloc, line, filling, word)
}

/// Adds words, each with a space after.
fn push_all(
    alloc: Global,
    line: &mut String,
    filling: Filling,
    words: &[&str],
) -> Result<(), AllocError>
    ensures { OnOk result (Appends line.old line.new (filled_texts filling.entry words.now)) }
{
    for word in words {
        push_filled(alloc, line, filling, word)?;
        line.push_str(" ")?;
    }
    Ok(())
}

/// Adds the words of a template.
#[tactic(auto, unfolding(crate::specs::Rules::words))]
pub(crate) fn push_words(
    alloc: Global,
    line: &mut String,
    filling: Filling,
    template: &str,
) -> Result<(), AllocError>
    ensures { OnOk result (Appends line.old line.new (words (fills filling.entry) template.now)) }
{
    let words = fields(alloc, template)?;
    push_all(alloc, line, filling, &words)
}
