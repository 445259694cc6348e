//! Where a byte of a text stands.

ghost use Rattle.std.specs.Prelude.{◌≡◌, ◌≤◌, take, length, count_by};
ghost use Rattle.std.specs.List.{suffix_len};
ghost use Rattle.diagnostics.specs.Places.{is_feed, is_no_feed, line_number, column_number};
ghost use Rattle.diagnostics.specs.Places.{IsLineOf};

/// A line and a column, both counted from 1.
#[derive(Clone, Copy, PartialEq, Eq)]
pub struct Place {
    pub line: usize,
    pub column: usize,
}

/// How many line feeds there are.
fn count_feeds(bytes: &[u8]) -> usize
    ensures { result ≡ count_by is_feed bytes.now }
{
    bytes.iter().filter(|byte| **byte == b'\n').count()
}

/// How many bytes stand after the last line feed.
fn count_behind_feed(bytes: &[u8]) -> usize
    ensures count { result ≡ suffix_len is_no_feed bytes.now }
    ensures high { result ≤ length bytes.now }
{
    let mut count = 0;
    for byte in bytes {
        if *byte == b'\n' {
            count = 0;
        } else {
            count += 1;
        }
    }
    count
}

/// The bytes in front of a place.
pub(crate) fn front(bytes: &[u8], at: usize) -> &[u8]
    ensures { result.now ≡ take at bytes.now }
{
    &bytes[..at.min(bytes.len())]
}

/// Where a byte stands: its line, and its column in bytes.
pub fn place_of(text: &str, at: usize) -> Place
    ensures line { result.line ≡ line_number text.now at }
    ensures column { result.column ≡ column_number text.now at }
{
    let front = front(text.as_bytes(), at);
    Place {
        line: count_feeds(front) + 1,
        column: count_behind_feed(front) + 1,
    }
}

/// The line of a text up to which it was looked through: its number, counted from 1, the byte at
/// which it begins, and the byte that was reached.
#[derive(Clone, Copy)]
pub struct Line {
    pub(crate) number: usize,
    pub(crate) start: usize,
    pub(crate) reached: usize,
}

impl Line {
    /// The first line of a text.
    pub fn first(text: &str) -> Line
        ensures { IsLineOf text.now 0 result }
    {
        let _ = text;
        Line {
            number: 1,
            start: 0,
            reached: 0,
        }
    }
}

/// The line in which a byte stands, from one that was reached before; it is looked for from the
/// text's front where the byte stands before that.
pub fn line_of(text: &str, from: Line, at: usize) -> Line
    requires { IsLineOf text.now from.reached from }
    ensures line { IsLineOf text.now at result }
    ensures reached { IsLineOf text.now result.reached result }
{
    let bytes = text.as_bytes();
    let mut line = if from.reached <= at {
        from
    } else {
        Line::first(text)
    };
    for reached in line.reached..at.min(bytes.len()) {
        if bytes[reached] == b'\n' {
            line.number += 1;
            line.start = reached + 1;
        }
        line.reached = reached + 1;
    }
    line
}
