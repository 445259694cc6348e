//! The words of the command line, and what they ask for.

use crate::print::print_version;
use crate::status::{REFUSED_STATUS, StandardError};
use cli_faults::Fault;
use cli_words::{Request, asks_for_version, read_words};
use std::alloc::AllocError;
use std::env::Env;
use std::io::{ErrorKind, Print};
use std::{env, io};

/// The words of the command line, the program's name first.
pub fn words_of<R: Env + AllocGlobal>(rt: &R) -> io::Result<Vec<String>> {
    Ok(env::args(rt)?.collect(rt.alloc())?)
}

/// Refuses words that can't be had: one that is no text as clap does, with the status, or else want
/// of memory.
pub fn refuse_words<R: StandardError>(rt: &R, error: &io::Error) -> Result<u8, Fault<'static>> {
    if error.kind() == ErrorKind::InvalidData {
        let _ = eprintln!(rt;
            "error: invalid UTF-8 was detected in one or more arguments\n\nFor more information, \
             try '--help'."
        );
        return Ok(REFUSED_STATUS);
    }
    Err(Fault::Memory)
}

/// The words as slices.
pub(crate) fn slices_of<'a, R: AllocGlobal>(
    rt: &R,
    words: &'a [String],
) -> Result<Vec<&'a str>, AllocError> {
    let mut slices = Vec::new(rt.alloc());
    for word in words {
        slices.push(word.as_str())?;
    }
    Ok(slices)
}

/// Prints the version to standard output, where the words ask for it; whether they do.
pub fn print_version_if_asked<R: Print + AllocGlobal>(
    rt: &R,
    words: &[String],
) -> Result<bool, Fault<'static>> {
    let is_asked = asks_for_version(slices_of(rt, words)?.as_slice());
    if is_asked {
        print_version(rt)?;
    }
    Ok(is_asked)
}

/// What the words of the command line ask for.
pub fn request_of<R: AllocGlobal>(rt: &R, words: &[String]) -> Result<Request, Fault<'static>> {
    let slices = slices_of(rt, words)?;
    match read_words(rt.alloc(), slices.as_slice()) {
        Ok(request) => Ok(request),
        Err(fault) => Err(Fault::Words(fault)),
    }
}
