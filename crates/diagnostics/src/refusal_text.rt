//! The text that tells of a refusal.

ghost use Rattle.std.specs.Prelude.{◌≡◌, ◌++◌, OnOk, codes, string_bytes, count_by};
ghost use Rattle.std.specs.List.{flat_map};
ghost use Rattle.std.specs.Fmt.{decimal};
ghost use Rattle.std.specs.Str.{IsCharBoundary};
ghost use Rattle.diagnostics.specs.Places.{IsLineOf};
ghost use Rattle.diagnostics.specs.Told.{Grows, below, line_text, front_of};
ghost use Rattle.diagnostics.specs.Told.{is_hidden, shown_char, shown_text, begins_char, told_line};
ghost use Rattle.diagnostics.specs.Told.{refusal_text, total_text};

use crate::place::Line;
use std::alloc::AllocError;
use std::fmt::Write;

/// Adds a text.
fn push_text(out: &mut String, piece: &str) -> Result<(), AllocError>
    ensures { OnOk result (Grows (string_bytes out.old) (string_bytes out.new) piece.now) }
{
    out.push_str(piece)?;
    Ok(())
}

/// Adds a number.
fn push_number(out: &mut String, number: usize) -> Result<(), AllocError>
    ensures { OnOk result (Grows (string_bytes out.old) (string_bytes out.new) (decimal number)) }
{
    write!(out, "{number}")
}

/// The text's line that begins at a byte.
fn line_at(text: &str, start: usize) -> &str
    requires { IsCharBoundary text.now start }
    ensures { result.now ≡ line_text text.now start }
{
    text[start..].lines().nth(0).unwrap_or("")
}

/// Adds what stands below bytes.
fn push_below(out: &mut String, bytes: &[u8]) -> Result<(), AllocError>
    ensures { OnOk result (Grows (string_bytes out.old) (string_bytes out.new)
        (flat_map below bytes.now)) }
{
    for byte in bytes {
        match *byte {
            b'\t' => out.push_str("\t")?,
            128..=191 => (),
            _ => out.push_str(" ")?,
        }
    }
    Ok(())
}

/// Adds a line and a column.
fn push_place(out: &mut String, line: usize, column: usize) -> Result<(), AllocError>
    ensures { OnOk result (Grows (string_bytes out.old) (string_bytes out.new)
        (decimal line ++ codes ":" ++ decimal column)) }
{
    write!(out, "{line}:{column}")
}

/// The bytes of its line that stand in front of a byte.
fn front_of(text: &str, at: usize, line: Line) -> &[u8]
    requires { IsLineOf text.now at line }
    ensures { result.now ≡ front_of text.now at }
{
    &text.as_bytes()[line.start..line.reached]
}

/// How many characters of a line are shown at most.
const SHOWN: usize = 240;

/// How many characters may stand in front of a caret.
const FRONT: usize = 160;

/// How many characters are shown in front of a caret, where those at the line's front are not.
const NEAR: usize = 80;

/// What stands below a mark and so many characters.
const BLANKS: &str =
    "                                                                                  ";

/// Whether a character has no place on a line: a control character but a tab, or one that sets a
/// direction of letters.
fn is_hidden(code: u32) -> bool
    ensures { result ≡ is_hidden code }
{
    code < 32 && code != 9
        || 127 <= code && code <= 159
        || code == 0x61c
        || 0x200e <= code && code <= 0x200f
        || 0x202a <= code && code <= 0x202e
        || 0x2066 <= code && code <= 0x2069
}

/// A character as it is shown.
fn shown_char(character: char) -> char
    ensures { result ≡ shown_char character }
{
    if is_hidden(character as u32) {
        '?'
    } else {
        character
    }
}

/// Adds so many characters of a line after so many others.
fn push_shown(out: &mut String, line: &str, before: usize, count: usize) -> Result<(), AllocError>
    ensures { OnOk result (Grows (string_bytes out.old) (string_bytes out.new)
        (shown_text before count line.now)) }
{
    let mut skipped = before;
    let mut left = count;
    for character in line.chars() {
        if skipped > 0 {
            skipped -= 1;
            continue;
        }
        if left == 0 {
            return Ok(());
        }
        left -= 1;
        out.push(shown_char(character))?;
    }
    Ok(())
}

/// How many characters begin in bytes.
fn count_chars(bytes: &[u8]) -> usize
    ensures { result ≡ count_by begins_char bytes.now }
{
    bytes
        .iter()
        .filter(|byte| !(128 <= **byte && **byte < 192))
        .count()
}

/// Adds a line, or the part of it that is near, and what stands below up to the caret.
fn push_line(out: &mut String, line: &str, front: &[u8]) -> Result<(), AllocError>
    ensures { OnOk result (Grows (string_bytes out.old) (string_bytes out.new)
        (told_line line.now front.now)) }
{
    let columns = count_chars(front);
    if columns <= FRONT {
        push_shown(out, line, 0, SHOWN)?;
        push_text(out, "\n")?;
        return push_below(out, front);
    }
    push_text(out, "..")?;
    push_shown(out, line, columns - NEAR, SHOWN)?;
    push_text(out, "\n")?;
    push_text(out, BLANKS)
}

/// Adds what is told of a refusal: the path of the text, the line and the column of the byte where
/// it stands, and why; then the text's line, or the part near the byte, and a caret below that.
///
/// The line of the byte is given, by `line_of`.
pub fn push_refusal(
    out: &mut String,
    path: &str,
    text: &str,
    at: usize,
    line: Line,
    message: &str,
) -> Result<(), AllocError>
    requires { IsLineOf text.now at line }
    ensures { OnOk result (Grows (string_bytes out.old) (string_bytes out.new)
        (refusal_text path.now text.now at message.now)) }
{
    let front = front_of(text, at, line);
    push_text(out, path)?;
    push_text(out, ":")?;
    push_place(out, line.number, front.len() + 1)?;
    push_text(out, ": ")?;
    push_text(out, message)?;
    push_text(out, "\n")?;
    push_line(out, line_at(text, line.start), front)?;
    push_text(out, "^\n")?;
    Ok(())
}

/// Adds the line that counts refusals.
pub fn push_total(out: &mut String, refused: usize, items: usize) -> Result<(), AllocError>
    ensures { OnOk result (Grows (string_bytes out.old) (string_bytes out.new)
        (total_text refused items)) }
{
    push_number(out, refused)?;
    push_text(out, " of ")?;
    push_number(out, items)?;
    push_text(out, " items refused\n")?;
    Ok(())
}
