//! Items that are left out: procedures, and parts with an end of their own.

ghost use Rattle.std.specs.Prelude.{◌≤◌, length};

use crate::passing::{
    after_name, begins_item, deeper, ends_scope, is_begun_at, is_keyword, is_symbol, is_word,
    past_class, past_item, past_word,
};
use crate::statements::past_statement;
use crate::status::{NoteKind, Status};
use crate::walker::Walker;
use import_tokens::{Keyword, Symbol, Token};
use import_trees::Refusal;
use std::alloc::AllocError;

/// Whether a keyword ends a part that another one begins. What stands after it and its name is
/// another item.
fn ends_part(keyword: Keyword) -> bool {
    matches!(
        keyword,
        Keyword::EndProperty
            | Keyword::EndSequence
            | Keyword::EndFunction
            | Keyword::EndTask
            | Keyword::EndClass
            | Keyword::EndGroup
            | Keyword::EndSpecify
            | Keyword::EndClocking
            | Keyword::EndCase
            | Keyword::Join
            | Keyword::JoinAny
            | Keyword::JoinNone
    )
}

/// The word that ends what a word begins which is no keyword here (clauses 29 and 33).
fn last_text(word: &[u8]) -> Option<&'static [u8]> {
    match word {
        b"primitive" => Some(b"endprimitive"),
        b"config" => Some(b"endconfig"),
        _ => None,
    }
}

/// The words before a declaration whose parts stand elsewhere, as before `virtual interface` or
/// `extern function` (8.24, 25.9).
const PROTOTYPES: [&[u8]; 6] = [
    b"extern",
    b"pure",
    b"virtual",
    b"static",
    b"protected",
    b"local",
];

/// The place after an item that isn't known: after its semicolon, or at what begins another item.
pub(crate) fn past_unknown(tokens: &[Token], start: usize) -> usize
    ensures { result ≤ length tokens.now }
{
    let end = past_item(tokens, start);
    let is_prototype = PROTOTYPES.iter().any(|word| is_word(tokens, start, *word));
    if is_prototype || is_begun_at(tokens, start) {
        return end;
    }
    let mut depth = 0u64;
    for index in start..end {
        if depth == 0 && index > start && begins_item(tokens, index) {
            return index;
        }
        depth = deeper(depth, tokens[index].kind);
    }
    end
}

/// The place after the word that ends a part, and its name; at the end of the scope where none
/// does.
fn past_text(tokens: &[Token], start: usize, word: &[u8]) -> usize
    ensures { result ≤ length tokens.now }
{
    for index in start..tokens.len() {
        if is_word(tokens, index, word) {
            return after_name(tokens, index + 1);
        }
        if ends_scope(tokens[index].kind) {
            return index;
        }
    }
    tokens.len()
}

/// The place after the item that begins there with such a word, if one does.
fn worded_end(tokens: &[Token], start: usize) -> Option<usize> {
    let token = tokens.get(start)?;
    let last = last_text(token.text)?;
    Some(past_text(tokens, start, last))
}

impl<'t> Walker<'t> {
    /// Whether the keyword stands after the word that is next.
    fn is_before(&self, word: &[u8], keyword: Keyword) -> bool {
        let next = self.at.saturating_add(1);
        is_word(self.tokens(), self.at, word) && is_keyword(self.tokens(), next, keyword)
    }

    /// Whether an item begins there with a word that is no keyword here, and has an end of its own:
    /// a primitive, a configuration, a virtual class (8.21), or the global clocking (14.14).
    pub(crate) fn begins_with_word(&self) -> bool {
        worded_end(self.tokens(), self.at).is_some()
            || self.is_before(b"virtual", Keyword::Class)
            || self.is_before(b"global", Keyword::Clocking)
    }

    /// Such an item.
    pub(crate) fn worded_item(&mut self) -> Result<(), AllocError> {
        let tokens = self.tokens();
        if let Some(end) = worded_end(tokens, self.at) {
            return self.pass(end, Status::Refused(Refusal::Immediate));
        }
        self.at = self.at.saturating_add(1);
        if is_keyword(self.tokens(), self.at, Keyword::Clocking) {
            return self.clocking();
        }
        self.left_out(Keyword::Class)
    }

    /// Notes each `expect` from one place up to another (16.17).
    pub(crate) fn waits(&mut self, start: usize, end: usize) -> Result<(), AllocError> {
        for index in start..end {
            let open = index.saturating_add(1);
            if is_word(self.tokens(), index, b"expect")
                && is_symbol(self.tokens(), open, Symbol::OpenRound)
            {
                let note = self.note_at(NoteKind::Expect, index);
                self.found.notes.push(note)?;
            }
        }
        Ok(())
    }

    /// An item without declarations: a procedure, a generate block, or a part with an end.
    pub(crate) fn left_out(&mut self, keyword: Keyword) -> Result<(), AllocError> {
        let start = self.at.saturating_add(1);
        let end = match keyword {
            Keyword::Function => {
                self.function(self.at)?;
                past_word(self.tokens(), start, Keyword::EndFunction)
            }
            Keyword::Task => past_word(self.tokens(), start, Keyword::EndTask),
            Keyword::Class => past_class(self.tokens(), self.at),
            Keyword::CoverGroup => past_word(self.tokens(), start, Keyword::EndGroup),
            Keyword::Specify => past_word(self.tokens(), start, Keyword::EndSpecify),
            Keyword::Always
            | Keyword::AlwaysCombinational
            | Keyword::AlwaysFlipFlop
            | Keyword::AlwaysLatch
            | Keyword::Initial
            | Keyword::Final => past_statement(self.tokens(), start),
            Keyword::Case | Keyword::Begin | Keyword::Else => {
                let end = past_statement(self.tokens(), self.at);
                return self.pass(end, Status::Refused(Refusal::Generate));
            }
            _ if ends_part(keyword) => after_name(self.tokens(), start),
            _ => past_item(self.tokens(), self.at),
        };
        self.pass(end, Status::Refused(Refusal::Immediate))
    }
}
