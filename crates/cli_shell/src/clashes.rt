//! Requests that are refused: files that would be written over one that is read, or over one
//! another, and macros without a name.

use crate::definitions::bad_definition;
use crate::links::behind_links;
use cli_words::{Request, kept_paths, overwritten, written_paths, written_twice};
use std::alloc::{AllocError, Global};
use std::fs;
use std::fs::{Files, Metadata};
use std::io::ErrorKind;
use std::os::unix::fs::MetadataExt;
use std::path::Path;

/// The path of standard output.
const OUTPUT: &str = "/dev/stdout";

/// The path of the device that keeps nothing of what is written to it.
const NULL: &str = "/dev/null";

/// What tells a file or a folder from others: its device, and its number there.
#[derive(Clone, Copy, PartialEq, Eq)]
struct Identity {
    device: u64,
    number: u64,
}

/// What is at a path, behind all links.
#[derive(Drop)]
enum Found {
    /// Nothing: the folder in which a file would be made, and its name there.
    Nothing(Identity, String),
    /// A plain file.
    Plain(Identity),
    /// A device or a pipe.
    Device(Identity),
    /// A folder, what keeps nothing, or what can't be looked at.
    Other,
}

impl Found {
    /// Whether both are one plain file, or would be made as one.
    fn is_file_of(&self, other: &Found) -> bool {
        match (self, other) {
            (Found::Plain(file), Found::Plain(other)) => *file == *other,
            (Found::Nothing(folder, name), Found::Nothing(other, other_name)) => {
                *folder == *other && name.as_str() == other_name.as_str()
            }
            _ => false,
        }
    }

    /// Whether what is written to both would be mixed, or one of the two lost.
    fn mixes_with(&self, other: &Found) -> bool {
        match (self, other) {
            (Found::Device(device), Found::Device(other)) => *device == *other,
            _ => self.is_file_of(other),
        }
    }
}

/// What tells a file or a folder from others, by what the system says of it.
fn identity_of(found: &Metadata) -> Identity {
    Identity {
        device: found.dev(),
        number: found.ino(),
    }
}

/// Whether this is the device that keeps nothing.
fn is_null<R: Files>(rt: &R, identity: Identity) -> bool {
    match fs::metadata(rt, NULL) {
        Ok(found) => identity == identity_of(&found),
        Err(_) => false,
    }
}

/// What tells the folder of a path from others, if it is there.
fn folder_of<R: Files>(rt: &R, path: &str) -> Option<Identity> {
    let parent = Path::new(path).parent()?;
    let parent = if parent.as_os_str().is_empty() {
        Path::new(".")
    } else {
        parent
    };
    match fs::metadata(rt, parent) {
        Ok(found) => Some(identity_of(&found)),
        Err(_) => None,
    }
}

/// Where a file would be made by a path, behind all links.
fn made_at<R: Files + AllocGlobal>(rt: &R, path: &str) -> Result<Found, AllocError> {
    let path = match behind_links(rt, path) {
        Ok(path) => path,
        Err(error) => {
            if error.kind() == ErrorKind::OutOfMemory {
                return Err(AllocError);
            }
            return Ok(Found::Other);
        }
    };
    let Some(folder) = folder_of(rt, path.as_str()) else {
        return Ok(Found::Other);
    };
    match path.file_name() {
        None => Ok(Found::Other),
        Some(name) => Ok(Found::Nothing(folder, String::from_str(rt.alloc(), name)?)),
    }
}

/// What is there, by what the system says of it.
fn found_by<R: Files>(rt: &R, found: &Metadata) -> Found {
    let identity = identity_of(found);
    if found.is_file() {
        return Found::Plain(identity);
    }
    if found.is_dir() || is_null(rt, identity) {
        return Found::Other;
    }
    Found::Device(identity)
}

/// What is at a path, behind all links.
fn found_at<R: Files + AllocGlobal>(rt: &R, path: &str) -> Result<Found, AllocError> {
    match fs::metadata(rt, path) {
        Ok(found) => Ok(found_by(rt, &found)),
        Err(error) => {
            if error.kind() == ErrorKind::NotFound {
                return made_at(rt, path);
            }
            Ok(Found::Other)
        }
    }
}

/// What is at each of some paths.
fn all_found<R: Files + AllocGlobal>(rt: &R, paths: &[&str]) -> Result<Vec<Found>, AllocError> {
    let mut all = Vec::new(rt.alloc());
    for path in paths {
        all.push(found_at(rt, *path)?)?;
    }
    Ok(all)
}

/// Whether something is the file of one of some.
fn is_file_of_one(one: &Found, some: &[Found]) -> bool {
    for other in some {
        if one.is_file_of(other) {
            return true;
        }
    }
    false
}

/// Whether what is written to something mixes with what is written to one of some.
fn mixes_with_one(one: &Found, some: &[Found]) -> bool {
    for other in some {
        if one.mixes_with(other) {
            return true;
        }
    }
    false
}

/// The place of the first of some that is the file of one of others.
fn first_of(some: &[Found], others: &[Found]) -> Option<usize> {
    for (place, one) in some.iter().enumerate() {
        if is_file_of_one(one, others) {
            return Some(place);
        }
    }
    None
}

/// The place of the first that mixes with one after it.
fn first_again(all: &[Found]) -> Option<usize> {
    for place in 0..all.len() {
        if mixes_with_one(&all[place], &all[place + 1..]) {
            return Some(place);
        }
    }
    None
}

/// The path at a place, if there is a place.
fn path_at<'a>(paths: &[&'a str], place: Option<usize>) -> Option<&'a str> {
    paths.get(place?).copied()
}

/// Whether something is printed beside the files that are written.
fn prints(request: &Request) -> bool {
    matches!(request, Request::Check { .. } | Request::Explain { .. })
}

/// The first path whose file would be written over one that is read: by the paths, and by the files
/// that they name.
fn lost_input<'a, R: Files + AllocGlobal>(
    rt: &R,
    request: &'a Request,
) -> Result<Option<&'a str>, AllocError> {
    if let Some(path) = overwritten(rt.alloc(), request)? {
        return Ok(Some(path));
    }
    let kept = kept_paths(rt.alloc(), request)?;
    let written = written_paths(rt.alloc(), request)?;
    let read = all_found(rt, kept.as_slice())?;
    let made = all_found(rt, written.as_slice())?;
    let place = first_of(made.as_slice(), read.as_slice());
    Ok(path_at(written.as_slice(), place))
}

/// The first path whose file would be written over another one that is written.
fn lost_output<'a, R: Files + AllocGlobal>(
    rt: &R,
    request: &'a Request,
) -> Result<Option<&'a str>, AllocError> {
    if let Some(path) = written_twice(rt.alloc(), request)? {
        return Ok(Some(path));
    }
    let written = written_paths(rt.alloc(), request)?;
    let made = all_found(rt, written.as_slice())?;
    Ok(path_at(written.as_slice(), first_again(made.as_slice())))
}

/// The first path whose file is standard output, to which something else goes.
fn mixed_output<'a, R: Files + AllocGlobal>(
    rt: &R,
    request: &'a Request,
) -> Result<Option<&'a str>, AllocError> {
    if !prints(request) {
        return Ok(None);
    }
    let output = found_at(rt, OUTPUT)?;
    for path in written_paths(rt.alloc(), request)? {
        if found_at(rt, path)?.mixes_with(&output) {
            return Ok(Some(path));
        }
    }
    Ok(None)
}

/// What is told of a refused request.
fn refusal_of(alloc: Global, what: &str) -> Result<String, AllocError> {
    format!(in alloc; "error: {what}\n\nFor more information, try '--help'.\n")
}

/// Why a request is refused; none where it is not: a word that is to define a macro has no name,
/// or a file that is read would be written over, or one file be written twice, or what is to go
/// into one mixed with the report.
pub fn refused_request<R: Files + AllocGlobal>(
    rt: &R,
    request: &Request,
) -> Result<Option<String>, AllocError> {
    let alloc = rt.alloc();
    let what = if let Some(word) = bad_definition(request) {
        format!(in alloc; "invalid value '{word}' for '--define <NAME[=TEXT]>': no macro's name")?
    } else if let Some(path) = lost_input(rt, request)? {
        format!(in alloc; "the file '{path}' is read, and would be written over")?
    } else if let Some(path) = lost_output(rt, request)? {
        format!(in alloc; "the file '{path}' would be written twice")?
    } else if let Some(path) = mixed_output(rt, request)? {
        format!(in alloc; "the file '{path}' is standard output, to which the report goes")?
    } else {
        return Ok(None);
    };
    Ok(Some(refusal_of(alloc, what.as_str())?))
}
