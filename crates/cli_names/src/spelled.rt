//! Which paths a rule can spell.

ghost use Rattle.std.specs.Prelude.{◌≡◌, true};
ghost use Rattle.std.specs.List.{before_first};
ghost use Rattle.lexer.specs.Lexemes as lexemes;
ghost use Rattle.cli_names.specs.Spelled.{are_words, is_dot, is_name_word};
ghost use Rattle.cli_names.specs.Spelled.{begins_with_name};

use lexer::{Kind, Token};
use parser_grammar::is_name;
use std::str::from_utf8;

fn is_letter(byte: u8) -> bool
    ensures { result ≡ lexemes.is_letter byte }
{
    byte >= b'a' && byte <= b'z' || byte >= b'A' && byte <= b'Z' || byte == b'_'
}

fn is_word_part(byte: u8) -> bool
    ensures { result ≡ lexemes.is_word_part byte }
{
    is_letter(byte) || byte >= b'0' && byte <= b'9' || byte == b'$'
}

/// Whether a path is words joined by dots.
pub(crate) fn is_of_words(path: &[u8]) -> bool
    ensures { result ≡ are_words true path.now }
{
    let mut begins = true;
    for byte in path {
        if begins {
            if !is_letter(*byte) {
                return false;
            }
            begins = false;
            continue;
        }
        if *byte == b'.' {
            begins = true;
            continue;
        }
        if !is_word_part(*byte) {
            return false;
        }
    }
    !begins
}

/// What stands before the first dot.
fn first_word(path: &[u8]) -> &[u8]
    ensures { result.now ≡ before_first is_dot path.now }
{
    for (i, byte) in path.iter().enumerate() {
        if *byte == b'.' {
            return &path[..i];
        }
    }
    path
}

/// Whether a word may be a NAME.
#[tactic(auto, unfolding(crate::specs::Spelled::is_name_word))]
fn may_be_name(word: &[u8]) -> bool
    ensures { result ≡ is_name_word word.now }
{
    match from_utf8(word) {
        Err(_) => false,
        Ok(text) => is_name(Token {
            kind: Kind::Word,
            at: 0,
            text,
        }),
    }
}

/// Whether the first word of a path may be a NAME.
pub(crate) fn is_after_name(path: &[u8]) -> bool
    ensures { result ≡ begins_with_name path.now }
{
    may_be_name(first_word(path))
}
