//! Why no rule names a variable.

ghost use Rattle.std.specs.Prelude.{◌≡◌};
ghost use Rattle.cli_names.specs.Notes.{path_note, note_of, note_text};

use crate::spelled::{is_after_name, is_of_words};

/// Why no rule names a variable, or that one can.
#[derive(Clone, Copy)]
pub enum Note {
    /// A rule can name it.
    Free,
    /// Of kind `real` or `realtime`.
    Real,
    /// Of kind `string`.
    Text,
    /// Of kind `event`.
    Event,
    /// Of 0 bits.
    NoBits,
    /// Of over 128 bits.
    Wide,
    /// The path is not words joined by dots.
    NoWords,
    /// The path's first word stands for something of the language.
    Reserved,
    /// An earlier variable has the same path.
    Later,
}

/// What the path says.
fn path_note(path: &[u8], itself: bool) -> Note
    ensures { result ≡ path_note path.now itself }
{
    if !is_of_words(path) {
        return Note::NoWords;
    }
    if !is_after_name(path) {
        return Note::Reserved;
    }
    if itself { Note::Free } else { Note::Later }
}

/// What is noted of a variable of that kind, size and path; `itself` where the path names this
/// variable and no earlier one.
#[tactic(auto, unfolding(crate::specs::Notes::note_of))]
pub(crate) fn note_of(kind: &[u8], size: u32, path: &[u8], itself: bool) -> Note
    ensures { result ≡ note_of kind.now size path.now itself }
{
    if kind == b"real".as_slice() || kind == b"realtime".as_slice() {
        return Note::Real;
    }
    if kind == b"string".as_slice() {
        return Note::Text;
    }
    if kind == b"event".as_slice() {
        return Note::Event;
    }
    if size == 0 {
        return Note::NoBits;
    }
    if size > 128 {
        return Note::Wide;
    }
    path_note(path, itself)
}

impl Note {
    /// What is told of it; nothing where a rule can name the variable.
    pub fn text(self) -> &'static str
        ensures { result.now ≡ note_text self }
    {
        match self {
            Note::Free => "",
            Note::Real => "not in a rule: a real",
            Note::Text => "not in a rule: a string",
            Note::Event => "not in a rule: an event",
            Note::NoBits => "not in a rule: of 0 bits",
            Note::Wide => "not in a rule: over 128 bits",
            Note::NoWords => "not in a rule: not words joined by dots",
            Note::Reserved => "not in a rule: begins with a word of the language",
            Note::Later => "not in a rule: an earlier variable has this path",
        }
    }
}
