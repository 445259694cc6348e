//! Macros that the words of the command line define.

use cli_words::{Request, TeamFiles};

/// Whether a byte begins a name (IEEE 1800-2017, 5.6).
fn begins_name(byte: u8) -> bool {
    byte.is_ascii_alphabetic() || byte == b'_'
}

/// Whether a byte stands in a name.
fn is_in_name(byte: u8) -> bool {
    begins_name(byte) || byte.is_ascii_digit() || byte == b'$'
}

/// Whether a text is a name.
fn is_name(text: &str) -> bool {
    match text.as_bytes().first() {
        None => false,
        Some(first) => begins_name(*first) && text.as_bytes().iter().all(|it| is_in_name(*it)),
    }
}

/// Whether a word defines a macro: by its name, and after a `=` its text.
fn defines(word: &str) -> bool {
    match word.split_once('=') {
        Some((name, _text)) => is_name(name),
        None => is_name(word),
    }
}

/// The team's files of a request.
fn team_of(request: &Request) -> Option<&TeamFiles> {
    match request {
        Request::Check { team, .. }
        | Request::Explain { team, .. }
        | Request::Lint { team, .. }
        | Request::Import { team, .. } => Some(team),
        _ => None,
    }
}

/// The first word of `--define` that defines no macro.
pub(crate) fn bad_definition(request: &Request) -> Option<&str> {
    for word in &team_of(request)?.define {
        if !defines(word.as_str()) {
            return Some(word.as_str());
        }
    }
    None
}
