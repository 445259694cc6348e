//! Where links lead.

use std::fs::Files;
use std::io::ErrorKind;
use std::path::{Path, PathBuf};
use std::{fs, io};

/// The most links that lead from one to another: as many as Linux follows.
const MOST_LINKS: usize = 40;

/// Where the link at a path leads; none if no link is there.
fn next_path<R: Files + AllocGlobal>(rt: &R, path: &str) -> io::Result<Option<PathBuf>> {
    let is_link = match fs::symlink_metadata(rt, path) {
        Ok(found) => found.is_symlink(),
        Err(_) => false,
    };
    if !is_link {
        return Ok(None);
    }
    let target = fs::read_link(rt, path)?;
    match Path::new(path).parent() {
        None => Ok(Some(target)),
        Some(folder) => Ok(Some(folder.join(rt.alloc(), target.as_str())?)),
    }
}

/// The path of what a path names, behind all links at its end: nothing may be there.
pub(crate) fn behind_links<R: Files + AllocGlobal>(rt: &R, path: &str) -> io::Result<PathBuf> {
    let mut path = PathBuf::from_str(rt.alloc(), path)?;
    for _ in 0..MOST_LINKS {
        match next_path(rt, path.as_str())? {
            None => return Ok(path),
            Some(next) => path = next,
        }
    }
    Err(io::Error::from(ErrorKind::FilesystemLoop))
}
