//! What is shown: no character of a stranger's moves a cursor, or turns the letters around it.

use signals::Counted;
use std::fmt::{Display, Formatter};
use std::io::{Eprint, Print, Printer, Write};
use std::{fmt, io};

/// Whether a character is written by its number: a control character but a line feed and a tab, or
/// one that sets a direction of letters (Unicode's standard annex 9).
fn is_hidden(character: char) -> bool {
    match u32::from(character) {
        0x9 | 0xa => false,
        0x61c | 0x200e | 0x200f | 0x202a..=0x202e | 0x2066..=0x2069 => true,
        _ => character.is_control(),
    }
}

/// A text up to its first hidden character.
struct Cut<'a> {
    clean: &'a str,
    hidden: Option<char>,
    rest: &'a str,
}

/// Cuts a text at its first hidden character.
fn cut_at_hidden(text: &str) -> Cut<'_> {
    for (at, character) in text.char_indices() {
        if is_hidden(character) {
            let after = at.saturating_add(character.len_utf8());
            return Cut {
                clean: text.get(..at).unwrap_or(""),
                hidden: Some(character),
                rest: text.get(after..).unwrap_or(""),
            };
        }
    }
    Cut {
        clean: text,
        hidden: None,
        rest: "",
    }
}

/// How the number of a hidden character is written.
#[derive(Clone, Copy)]
pub(crate) enum Escape {
    /// As `\u{9b}`: at a terminal, and in lines.
    Braced,
    /// As `\u009b`: in a string of JSON (RFC 8259, section 7).
    Json,
    /// As `&#155;`: in XML (1.0, clause 4.1), and in a page.
    Reference,
}

/// A text as it is shown: a hidden character is its number.
#[derive(Clone, Copy)]
pub(crate) struct ShownText<'a> {
    pub(crate) text: &'a str,
    pub(crate) escape: Escape,
}

/// Writes a hidden character by its number.
fn write_number<W: fmt::Write>(
    f: &mut Formatter<W>,
    escape: Escape,
    character: char,
) -> fmt::Result {
    let number = u32::from(character);
    match escape {
        Escape::Braced => write!(f, "\\u{{{number:x}}}"),
        Escape::Json => write!(f, "\\u{number:04x}"),
        Escape::Reference => write!(f, "&#{number};"),
    }
}

impl Display for ShownText<'_> {
    fn fmt<W: fmt::Write>(&self, f: &mut Formatter<W>) -> fmt::Result {
        let mut left = self.text;
        for _ in 0..=self.text.len() {
            let Cut {
                clean,
                hidden,
                rest,
            } = cut_at_hidden(left);
            f.write_str(clean)?;
            match hidden {
                None => return Ok(()),
                Some(character) => write_number(f, self.escape, character)?,
            }
            left = rest;
        }
        Ok(())
    }
}

/// A text as it is shown at a terminal.
fn at_terminal(text: &str) -> ShownText<'_> {
    ShownText {
        text,
        escape: Escape::Braced,
    }
}

/// Writes bytes that are no text, each as in `\xe9`.
fn write_numbers<W: Write>(out: &mut W, bytes: &[u8]) -> io::Result<()> {
    for byte in bytes {
        write!(out, "\\x{byte:02x}")?;
    }
    Ok(())
}

/// A writer that hands on what may be shown.
#[derive(Drop)]
pub struct Shown<W> {
    inner: W,
}

impl<W: Write> Write for Shown<W> {
    fn write(&mut self, buf: &[u8]) -> io::Result<usize> {
        for chunk in buf.utf8_chunks() {
            write!(self.inner, "{}", at_terminal(chunk.valid()))?;
            write_numbers(&mut self.inner, chunk.invalid())?;
        }
        Ok(buf.len())
    }

    fn flush(&mut self) -> io::Result<()> {
        self.inner.flush()
    }
}

/// Standard output, for what may hold names of strangers.
pub fn shown_output<R: Print>(rt: &R) -> Counted<Shown<Printer<'_, R>>> {
    Counted::new(Shown {
        inner: io::writer(rt),
    })
}

/// Writes lines to standard error, as they may be shown; they are lost where that can't be written.
pub fn print_error_lines<R: Eprint>(rt: &R, lines: &str) {
    let _ = eprint!(rt; "{}", at_terminal(lines));
}
