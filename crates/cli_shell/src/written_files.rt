//! Files that are written whole or not at all.

use crate::links::behind_links;
use std::fs::{File, Files, OpenFile, OpenOptions};
use std::io::{ErrorKind, Write};
use std::os::unix::fs::MetadataExt;
use std::{fs, io};

/// How many names are tried for a file that is made beside another one.
const MOST_NAMES: u32 = 100;

/// Whether a device, a pipe or a folder is at a path, behind all links.
fn is_no_plain_file<R: Files>(rt: &R, path: &str) -> bool {
    match fs::metadata(rt, path) {
        Ok(found) => !found.is_file(),
        Err(_) => false,
    }
}

/// The error of a plain file that is there, and can't be written.
fn look_whether_writable<R: Files>(rt: &R, path: &str) -> io::Result<()> {
    match OpenOptions::new().write(true).open(rt, path) {
        Ok(_file) => Ok(()),
        Err(error) => {
            if error.kind() == ErrorKind::NotFound {
                return Ok(());
            }
            Err(error)
        }
    }
}

/// A new file beside a path, which nobody else has, and its path.
fn new_beside<R: Files + AllocGlobal>(rt: &R, path: &str) -> io::Result<(String, R::File)> {
    for number in 0..MOST_NAMES {
        let beside = format!(in rt.alloc(); "{path}.{number}.part")?;
        match OpenOptions::new()
            .write(true)
            .create_new(true)
            .open(rt, beside.as_str())
        {
            Ok(file) => return Ok((beside, file)),
            Err(error) => {
                if error.kind() != ErrorKind::AlreadyExists {
                    return Err(error);
                }
            }
        }
    }
    Err(io::Error::from(ErrorKind::AlreadyExists))
}

/// Waits until the device has a file, where it can say so.
fn settle<F: OpenFile>(file: &F) -> io::Result<()> {
    match file.sync_all() {
        Err(error) => match error.kind() {
            ErrorKind::InvalidInput | ErrorKind::Unsupported => Ok(()),
            _ => Err(error),
        },
        Ok(()) => Ok(()),
    }
}

/// Gives a new file the rights of the one that is at a path, if there is one; whether it may take
/// its place then: both are of one owner and one group, and the old one has no other name.
fn is_like_old<R: Files>(rt: &R, path: &str, file: &R::File) -> bool {
    let Ok(old) = fs::metadata(rt, path) else {
        return true;
    };
    let Ok(new) = file.metadata() else {
        return false;
    };
    let is_alike = old.uid() == new.uid() && old.gid() == new.gid() && old.nlink() == 1;
    is_alike && file.set_permissions(old.permissions()).is_ok()
}

/// Writes all bytes to a new file, and waits until the device has them.
fn fill<F: Write + OpenFile + Drop>(mut file: F, bytes: &[u8]) -> io::Result<()> {
    file.write_all(bytes)?;
    settle(&file)
}

/// Fills a new file, and puts it into the place of what is at a path. Where that fails, it is
/// removed, and what was there stays. A file of somebody else's, or of several names, is written
/// as it is.
fn replace<R: Files>(
    rt: &R,
    path: &str,
    beside: &str,
    file: R::File,
    bytes: &[u8],
) -> io::Result<()> {
    if !is_like_old(rt, path, &file) {
        let _ = fs::remove_file(rt, beside);
        return fs::write(rt, path, bytes);
    }
    let mut outcome = fill(file, bytes);
    if outcome.is_ok() {
        outcome = fs::rename(rt, beside, path);
    }
    if outcome.is_err() {
        let _ = fs::remove_file(rt, beside);
    }
    outcome
}

/// Makes a plain file of these bytes, or puts them in the place of what it held: another file is
/// made beside it, and takes its place once the device has the bytes. A device, a pipe, and a file
/// beside which none can be made are written as they are.
pub(crate) fn put_whole<R: Files + AllocGlobal>(
    rt: &R,
    path: &str,
    bytes: &[u8],
) -> io::Result<()> {
    if is_no_plain_file(rt, path) {
        return fs::write(rt, path, bytes);
    }
    let target = behind_links(rt, path)?;
    let target = target.as_str();
    look_whether_writable(rt, target)?;
    match new_beside(rt, target) {
        Ok((beside, file)) => replace(rt, target, beside.as_str(), file, bytes),
        Err(error) => match error.kind() {
            ErrorKind::OutOfMemory => Err(error),
            _ => fs::write(rt, target, bytes),
        },
    }
}
