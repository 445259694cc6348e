//! Values of fields.

ghost use Rattle.std.specs.Prelude.{◌≡◌, IfOk, map, None, Some};
ghost use Rattle.std.specs.Option.{option_map};
ghost use Rattle.axi4_rules.specs.Lines.{optional, required, number, number_or};
ghost use Rattle.axi4_rules.specs.Lines.{all_numbers, case_named, mode_named, watched};
ghost use Rattle.axi4_rules.specs.Views.{texts_of, text_in, items_in};

use crate::case::Case;
use crate::mode::Mode;
use crate::text::pieces;
use std::alloc::{AllocError, Global};

/// What is larger is out of range everywhere.
const MOST: u32 = 65_536;

/// What stands after the key, if anything; `None` where the key stands twice.
pub(crate) fn optional<'t>(fields: &[&'t str], key: &str) -> Option<Option<&'t str>>
    ensures { option_map text_in result ≡ optional key.now (texts_of fields.now) }
{
    let mut found = None;
    for field in fields {
        let Some(value) = field.strip_prefix(key) else {
            continue;
        };
        if found.is_some() {
            return None;
        }
        found = Some(value);
    }
    Some(found)
}

/// What stands after the key, which stands once.
#[tactic(auto, unfolding(crate::specs::Lines::required))]
pub(crate) fn required_value<'t>(fields: &[&'t str], key: &str) -> Option<&'t str>
    ensures { text_in result ≡ required key.now (texts_of fields.now) }
{
    optional(fields, key)?
}

/// A number of decimal digits.
pub(crate) fn number(text: &str) -> Option<u32>
    ensures { result ≡ number text.now }
{
    let digits = text.as_bytes();
    if digits.is_empty() {
        return None;
    }
    let mut number = 0u32;
    for digit in digits {
        if !digit.is_ascii_digit() {
            return None;
        }
        number = (10 * number + u32::from(*digit - b'0')).min(MOST);
    }
    Some(number)
}

/// The number, or another where the field is left out.
pub(crate) fn number_or(other: u32, text: Option<&str>) -> Option<u32>
    ensures { result ≡ number_or other (text_in text.entry) }
{
    match text {
        Some(text) => number(text),
        None => Some(other),
    }
}

/// The case that the text names.
#[tactic(auto, unfolding(crate::specs::Lines::case_named))]
pub(crate) fn case_named(text: Option<&str>) -> Option<Case>
    ensures { result ≡ case_named (text_in text.entry) }
{
    match text {
        None => Some(Case::Lower),
        Some(text) => {
            if text == "lower" {
                Some(Case::Lower)
            } else if text == "upper" {
                Some(Case::Upper)
            } else {
                None
            }
        }
    }
}

/// The mode that the text names.
#[tactic(auto, unfolding(crate::specs::Lines::mode_named))]
pub(crate) fn mode_named(text: Option<&str>) -> Option<Mode>
    ensures { result ≡ mode_named (text_in text.entry) }
{
    match text {
        None => Some(Mode::Multi),
        Some(text) => {
            if text == "multi" {
                Some(Mode::Multi)
            } else if text == "single" {
                Some(Mode::Single)
            } else {
                None
            }
        }
    }
}

/// The numbers of a list, or `None` where one is none.
fn numbers(alloc: Global, texts: &[&str]) -> Result<Option<Vec<u32>>, AllocError>
    ensures { IfOk result (λ o. items_in o ≡ all_numbers (texts_of texts.now)) }
{
    let mut found = Vec::new(alloc);
    for text in texts {
        match number(text) {
            Some(number) => found.push(number)?,
            None => return Ok(None),
        }
    }
    Ok(Some(found))
}

/// The numbers between commas, or `None` where one is none.
#[tactic(auto, unfolding(crate::specs::Lines::watched))]
pub(crate) fn watched_ids(alloc: Global, text: Option<&str>) -> Result<Option<Vec<u32>>, AllocError>
    ensures { IfOk result (λ o. items_in o ≡ watched (text_in text.entry)) }
{
    match text {
        Some(text) => {
            let texts = pieces(alloc, text, ',')?;
            numbers(alloc, &texts)
        }
        None => Ok(Some(Vec::new(alloc))),
    }
}
