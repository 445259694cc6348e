//! Paths as texts.

ghost use Rattle.std.specs.Prelude.{◌≡◌, ◌++◌, ◌∷◌, OnOk, IfOk, string_bytes, codes};
ghost use Rattle.std.specs.List.{flat_map};
ghost use Rattle.types_names.specs.Scopes.{path_text, first_byte};
ghost use Rattle.parser_grammar.specs.Views.{path_of};

use lexer::Token;
use parser_grammar::Path;
use std::alloc::{AllocError, Global};

/// Adds a dot and a word.
fn push_word(text: &mut String, word: &str) -> Result<(), AllocError>
    ensures { OnOk result (string_bytes text.new
        ≡ string_bytes text.old ++ (codes "." ++ word.now)) }
{
    text.push_str(".")?;
    text.push_str(word)?;
    Ok(())
}

/// Adds words, a dot before each.
fn push_words(text: &mut String, words: &[Token]) -> Result<(), AllocError>
    ensures { OnOk result (string_bytes text.new
        ≡ string_bytes text.old ++ flat_map (λ w. codes "." ++ w.text.now) words.now) }
{
    for word in words {
        push_word(text, word.text)?;
    }
    Ok(())
}

/// A path as it is written, its words joined by dots.
pub fn path_string(alloc: Global, path: &Path) -> Result<String, AllocError>
    ensures { IfOk result (λ s. string_bytes s ≡ path_text (path_of path.now)) }
{
    let mut text = String::from_str(alloc, path.first.text)?;
    push_words(&mut text, &path.more)?;
    Ok(text)
}
