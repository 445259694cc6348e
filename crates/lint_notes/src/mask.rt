//! A dump of which bits are x or z.

use std::alloc::{AllocError, Global};

/// What a token of a dump is.
#[derive(Clone, Copy, PartialEq, Eq)]
enum Mode {
    /// In the header, before its last section.
    Header,
    /// In that section.
    Closing,
    /// A time, a change, or the word of a section.
    Body,
    /// In a section that says nothing of values.
    Section,
    /// The code of a change.
    Code,
}

/// Whether a token is the word of a section whose changes count, or ends one.
fn holds_values(word: &[u8]) -> bool {
    word == b"$dumpvars".as_slice()
        || word == b"$dumpall".as_slice()
        || word == b"$dumpon".as_slice()
        || word == b"$dumpoff".as_slice()
        || word == b"$end".as_slice()
}

/// Whether a token begins with the letter of a vector, of a real or of a string.
fn is_before_code(word: &[u8]) -> bool {
    match word {
        [] => false,
        [first, ..] => b"bBrRsS".as_slice().contains(first),
    }
}

/// Whether a token begins with a dollar sign.
fn is_system(word: &[u8]) -> bool {
    match word {
        [] => false,
        [first, ..] => *first == b'$',
    }
}

/// What a token of the body leaves to the next one.
fn mode_in_body(word: &[u8]) -> Mode {
    if is_before_code(word) {
        return Mode::Code;
    }
    if is_system(word) && !holds_values(word) {
        return Mode::Section;
    }
    Mode::Body
}

/// What the next token is.
fn mode_after(mode: Mode, word: &[u8]) -> Mode {
    match mode {
        Mode::Header => {
            if word == b"$enddefinitions".as_slice() {
                Mode::Closing
            } else {
                Mode::Header
            }
        }
        Mode::Closing | Mode::Section => {
            if word == b"$end".as_slice() {
                Mode::Body
            } else {
                mode
            }
        }
        Mode::Body => mode_in_body(word),
        Mode::Code => Mode::Body,
    }
}

/// 1 for x and z, 0 for any other digit.
fn mask_of(digit: u8) -> u8 {
    if b"xXzZ".as_slice().contains(&digit) {
        b'1'
    } else {
        b'0'
    }
}

/// Adds what stands for the digits of a vector.
fn push_vector(out: &mut Vec<u8>, word: &[u8]) -> Result<(), AllocError> {
    for (place, digit) in word.iter().enumerate() {
        out.push(if place == 0 { *digit } else { mask_of(*digit) })?;
    }
    Ok(())
}

/// Adds what stands for the digit of a change, and its code.
fn push_scalar(out: &mut Vec<u8>, word: &[u8]) -> Result<(), AllocError> {
    for (place, byte) in word.iter().enumerate() {
        out.push(if place == 0 { mask_of(*byte) } else { *byte })?;
    }
    Ok(())
}

/// Adds what stands for a token.
fn push_word(out: &mut Vec<u8>, mode: Mode, word: &[u8]) -> Result<(), AllocError> {
    match (mode, word) {
        (Mode::Body, [b'b' | b'B', ..]) => push_vector(out, word),
        (Mode::Body, [b'0' | b'1' | b'x' | b'X' | b'z' | b'Z', ..]) => push_scalar(out, word),
        _ => out.extend_from_slice(word),
    }
}

/// The bytes of a dump in which a bit is 1 that is x or z in the dump of these bytes, and 0 else;
/// all else is the same, but for white space.
pub fn unknown_bytes(alloc: Global, bytes: &[u8]) -> Result<Vec<u8>, AllocError> {
    let mut out = Vec::with_capacity(alloc, bytes.len())?;
    let mut mode = Mode::Header;
    let mut from = 0;
    for (at, byte) in bytes.iter().enumerate() {
        if !byte.is_ascii_whitespace() {
            continue;
        }
        if from < at {
            let word = &bytes[from..at];
            push_word(&mut out, mode, word)?;
            mode = mode_after(mode, word);
        }
        out.push(b'\n')?;
        from = at + 1;
    }
    if from < bytes.len() {
        push_word(&mut out, mode, &bytes[from..])?;
    }
    Ok(out)
}
