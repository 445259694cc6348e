//! Names that facts are known of.

ghost use Rattle.std.specs.Prelude.{◌≡◌, map, is_some, string_bytes};
ghost use Rattle.std.specs.List.{list_any};
ghost use Rattle.std.specs.Str.{bytes_eq};
ghost use Rattle.lint_notes.specs.Words.{begins_name, path_at, is_among, names_one};
ghost use Rattle.lint_notes.specs.Told.{turned_paths, late_paths};

use crate::facts::{Late, Turned};
use crate::words::{begins_name, path_at};
use lexer::Token;

/// The name of that path.
fn turned_of<'f>(turned: &'f [Turned], path: &[u8]) -> Option<&'f Turned>
    ensures { is_some result ≡ is_among (turned_paths turned.now) path.now }
{
    for one in turned {
        if path == one.path.as_bytes() {
            return Some(one);
        }
    }
    None
}

/// The signal of that path.
fn late_of<'f>(late: &'f [Late], path: &[u8]) -> Option<&'f Late>
    ensures { is_some result ≡ is_among (late_paths late.now) path.now }
{
    for one in late {
        if path == one.path.as_bytes() {
            return Some(one);
        }
    }
    None
}

/// The name with another range that begins with a token.
pub(crate) fn turned_at<'f>(text: &[u8], turned: &'f [Turned], token: &Token) -> Option<&'f Turned>
    ensures { is_some result ≡ names_one text.now (turned_paths turned.now) token.now }
{
    if !begins_name(text, token) {
        return None;
    }
    turned_of(turned, path_at(text, token.at))
}

/// The late signal whose name begins with a token.
fn late_at<'f>(text: &[u8], late: &'f [Late], token: &Token) -> Option<&'f Late>
    ensures { is_some result ≡ names_one text.now (late_paths late.now) token.now }
{
    if !begins_name(text, token) {
        return None;
    }
    late_of(late, path_at(text, token.at))
}

/// The first late signal that tokens name.
pub(crate) fn late_in<'f>(text: &[u8], late: &'f [Late], tokens: &[Token]) -> Option<&'f Late>
    ensures { is_some result
        ≡ list_any (names_one text.now (late_paths late.now)) tokens.now }
{
    for token in tokens {
        if let Some(one) = late_at(text, late, token) {
            return Some(one);
        }
    }
    None
}
