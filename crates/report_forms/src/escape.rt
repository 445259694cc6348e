//! Texts in XML.

ghost use Rattle.std.specs.Prelude.{◌≡◌, ◌∷◌, ◌++◌, ℕ, List, OnOk, Some, map, string_bytes};
ghost use Rattle.std.specs.Prelude.{encode_utf8_all, chars, true, IsUtf8};
ghost use Rattle.std.specs.List.{list_all};
ghost use Rattle.report_forms.specs.Grown.{Grows};
ghost use Rattle.report_forms.specs.Escapes.{is_xml_char, told_char, escaped_char, escaped};
ghost use Rattle.report_forms.specs.Escapes.{unescaped, plain};

use crate::pieces::{push_character, push_text};
use std::alloc::AllocError;

/// Whether a document may have a character.
fn is_xml_char(character: char) -> bool
    ensures { result ≡ is_xml_char character }
{
    matches!(
        character,
        '\t' | '\n' | '\r' | ' '..='\u{d7ff}' | '\u{e000}'..='\u{fffd}' | '\u{10000}'..
    )
}

/// The character that is told: U+FFFD where a document can't have it.
fn told_char(character: char) -> char
    ensures { result ≡ told_char character }
{
    if is_xml_char(character) {
        character
    } else {
        '\u{fffd}'
    }
}

/// Adds what stands for a character in the value of an attribute.
fn push_char(text: &mut String, character: char) -> Result<(), AllocError>
    ensures { OnOk result (Grows (string_bytes text.old) (string_bytes text.new)
        (encode_utf8_all (escaped_char character))) }
{
    match character {
        '"' => push_text(text, "&quot;"),
        '&' => push_text(text, "&amp;"),
        '<' => push_text(text, "&lt;"),
        '>' => push_text(text, "&gt;"),
        '\t' => push_text(text, "&#9;"),
        '\n' => push_text(text, "&#10;"),
        '\r' => push_text(text, "&#13;"),
        _ => push_character(text, told_char(character)),
    }
}

/// Adds what stands for a text in the value of an attribute.
pub fn push_escaped(text: &mut String, value: &str) -> Result<(), AllocError>
    ensures { OnOk result
        (Grows (string_bytes text.old) (string_bytes text.new) (escaped value.now)) }
{
    for character in value.chars() {
        push_char(text, character)?;
    }
    Ok(())
}

/// A law of what stands for texts in values of attributes, and no code: a reader of XML takes it
/// for the text, with U+FFFD in the place of each character that no document may have; and that is
/// the very text where there is none.
pub fn attribute_law()
    ensures read_back { (text rest : List ℕ) → IsUtf8 text
        → unescaped plain (chars (escaped text ++ 34 ∷ rest))
        ≡ Some (map told_char (chars text), chars rest) }
    ensures same { (text : List ℕ) → list_all is_xml_char (chars text) ≡ true
        → map told_char (chars text) ≡ chars text }
{}
