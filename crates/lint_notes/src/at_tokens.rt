//! The notes of a text's tokens.

ghost use Rattle.std.specs.Prelude.{◌≡◌, ◌++◌, ◌∷◌, [], map, OnOk, IfOk, string_bytes};
ghost use Rattle.lint_notes.specs.Told.{Key, key_of, key_when, first_keys, token_keys, first_read};
ghost use Rattle.lint_notes.specs.Told.{fact_key, note_keys};
ghost use Rattle.lint_notes.specs.Words.{names_one, is_among};

use crate::facts::{Facts, PathFact};
use crate::late_told::late_note;
use crate::note::Note;
use crate::range_told::range_note;
use crate::reset_told::reset_note;
use crate::words::{begins_name, path_at};
use lexer::Token;
use std::alloc::{AllocError, Global};

/// Adds a note, if there is one.
fn push_note(notes: &mut Vec<Note>, note: Option<Note>) -> Result<(), AllocError>
    ensures { OnOk result (map key_of notes.new.items
        ≡ map key_of notes.old.items ++ note_keys note) }
{
    match note {
        None => Ok(()),
        Some(note) => {
            notes.push(note)?;
            Ok(())
        }
    }
}

/// Adds the notes that stand at the first of some tokens.
fn push_first(
    alloc: Global,
    notes: &mut Vec<Note>,
    text: &[u8],
    facts: &Facts<'_>,
    tokens: &[Token],
) -> Result<(), AllocError>
    ensures { OnOk result (map key_of notes.new.items
        ≡ map key_of notes.old.items ++ first_keys text.now facts.now tokens.now) }
{
    push_note(notes, range_note(alloc, text, facts.turned, tokens)?)?;
    push_note(notes, late_note(alloc, text, facts.late, tokens)?)?;
    push_note(notes, reset_note(alloc, text, tokens)?)?;
    Ok(())
}

/// The notes of a text's tokens, in their order: 1 at each select of a name with another range than
/// `[n:0]`, 3 at each call that looks back at a late signal, and 5 at each clock that may be a
/// reset.
pub fn token_notes(
    alloc: Global,
    text: &str,
    tokens: &[Token],
    facts: &Facts<'_>,
) -> Result<Vec<Note>, AllocError>
    ensures { IfOk result (λ notes.
        map key_of notes.items ≡ token_keys text.now facts.now tokens.now) }
{
    let mut notes = Vec::new(alloc);
    for place in 0..tokens.len() {
        push_first(alloc, &mut notes, text.as_bytes(), facts, &tokens[place..])?;
    }
    Ok(notes)
}

/// Whether a token begins a name that is this path.
fn names_path(text: &[u8], path: &[u8], token: &Token) -> bool
    ensures { result ≡ names_one text.now (path.now ∷ []) token.now }
{
    begins_name(text, token) && path_at(text, token.at) == path
}

/// Where a path is first named.
fn first_read(text: &[u8], path: &[u8], tokens: &[Token]) -> usize
    ensures { result ≡ first_read text.now path.now tokens.now }
{
    for token in tokens {
        if names_path(text, path, token) {
            return token.at;
        }
    }
    0
}

/// The notes of facts of paths, in the facts' order, each where the text first names its path.
pub fn path_notes(
    alloc: Global,
    text: &str,
    tokens: &[Token],
    facts: &[PathFact],
) -> Result<Vec<Note>, AllocError>
    ensures { IfOk result (λ notes.
        map key_of notes.items ≡ map (fact_key text.now tokens.now) facts.now) }
{
    let mut notes = Vec::new(alloc);
    for fact in facts {
        let at = first_read(text.as_bytes(), fact.path.as_bytes(), tokens);
        notes.push(Note {
            number: fact.number,
            at,
            message: fact.message.clone()?,
        })?;
    }
    Ok(notes)
}
