//! Files by their paths, and what is wrong with them.

use crate::written_files::put_whole;
use cli_faults::{BadFile, Fault};
use std::alloc::{AllocError, Global};
use std::fs::{File, Files};
use std::io::{ErrorKind, Read};
use std::{fs, io};

/// Why a file could not be opened, read or made; nothing where that is not known.
fn reason_of(kind: ErrorKind) -> &'static str {
    match kind {
        ErrorKind::NotFound => "no such file or folder",
        ErrorKind::PermissionDenied => "no permission",
        ErrorKind::IsADirectory => "it is a folder",
        ErrorKind::NotADirectory => "a part of its path is no folder",
        ErrorKind::StorageFull => "no space is left",
        ErrorKind::QuotaExceeded => "no space is left by the quota",
        ErrorKind::FileTooLarge => "it would be too large",
        ErrorKind::ReadOnlyFilesystem => "it stands where nothing can be written",
        ErrorKind::InvalidFilename => "its name is too long",
        ErrorKind::FilesystemLoop => "its links lead round",
        ErrorKind::BrokenPipe => "nobody reads it any more",
        _ => "",
    }
}

/// Why a text is refused that has more bytes than one may have.
const TOO_LARGE: &str = "it has over 64 MB";

/// The fault of a file that can't be used.
fn bad_file(alloc: Global, path: &str, why: &'static str) -> Fault<'static> {
    match String::from_str(alloc, path) {
        Ok(path) => Fault::File(BadFile { path, why }),
        Err(_) => Fault::Memory,
    }
}

/// The fault of a file that could not be opened, read or made.
fn file_fault(alloc: Global, path: &str, error: io::Error) -> Fault<'static> {
    if error.kind() == ErrorKind::OutOfMemory {
        return Fault::Memory;
    }
    bad_file(alloc, path, reason_of(error.kind()))
}

/// An opened file.
pub fn open<R: Files + AllocGlobal>(rt: &R, path: &str) -> Result<R::File, Fault<'static>> {
    match File::open(rt, path) {
        Ok(file) => Ok(file),
        Err(error) => Err(file_fault(rt.alloc(), path, error)),
    }
}

/// The most bytes of a text.
const MOST_BYTES: u64 = 64 << 20;

/// All of an opened text. One of over 64 MB is refused as a file, once so much of it was read: it
/// is a dump in a text's place, or no text at all.
pub(crate) fn read_opened<F: Read>(
    alloc: Global,
    file: &mut F,
    path: &str,
) -> Result<Vec<u8>, Fault<'static>> {
    let mut bytes = Vec::new(alloc);
    match file.take(MOST_BYTES + 1).read_to_end(&mut bytes) {
        Ok(_) if bytes.len() as u64 > MOST_BYTES => Err(bad_file(alloc, path, TOO_LARGE)),
        Ok(_) => Ok(bytes),
        Err(error) => Err(file_fault(alloc, path, error)),
    }
}

/// All of a file.
pub fn read_bytes<R: Files + AllocGlobal>(rt: &R, path: &str) -> Result<Vec<u8>, Fault<'static>> {
    match fs::read(rt, path) {
        Ok(bytes) => Ok(bytes),
        Err(error) => Err(file_fault(rt.alloc(), path, error)),
    }
}

/// The bytes of a file as text; N2 where they are no UTF-8.
pub(crate) fn text_of(alloc: Global, bytes: Vec<u8>, path: &str) -> Result<String, Fault<'static>> {
    match String::from_utf8(bytes) {
        Ok(text) => Ok(text),
        Err(_) => Err(Fault::NotText(String::from_str(alloc, path)?)),
    }
}

/// A byte of which no token of SystemVerilog is made.
const NO_TOKEN: u8 = 0x7f;

/// Bytes in which each one beyond ASCII is another that no token is made of.
fn ascii_of(alloc: Global, bytes: &[u8]) -> Result<Vec<u8>, AllocError> {
    let mut all = Vec::new(alloc);
    for byte in bytes {
        all.push(if *byte < 0x80 { *byte } else { NO_TOKEN })?;
    }
    Ok(all)
}

/// The bytes of a team's file as text, byte by byte. One that is no UTF-8, as it may have comments
/// in Latin-1, has another byte for each beyond ASCII, which may stand in comments and strings
/// alone.
pub(crate) fn team_text_of(
    alloc: Global,
    bytes: Vec<u8>,
    path: &str,
) -> Result<String, Fault<'static>> {
    if str::from_utf8(bytes.as_slice()).is_ok() {
        return text_of(alloc, bytes, path);
    }
    text_of(alloc, ascii_of(alloc, bytes.as_slice())?, path)
}

/// All of a file, as text; N2 where it is no UTF-8.
pub(crate) fn read_text<R: Files + AllocGlobal>(
    rt: &R,
    path: &str,
) -> Result<String, Fault<'static>> {
    let mut file = open(rt, path)?;
    let bytes = read_opened(rt.alloc(), &mut file, path)?;
    text_of(rt.alloc(), bytes, path)
}

/// Makes a file of these bytes, or puts them in the place of what it held: a plain file whole or
/// not at all.
pub fn write_bytes<R: Files + AllocGlobal>(
    rt: &R,
    path: &str,
    bytes: &[u8],
) -> Result<(), Fault<'static>> {
    match put_whole(rt, path, bytes) {
        Ok(()) => Ok(()),
        Err(error) => Err(file_fault(rt.alloc(), path, error)),
    }
}
