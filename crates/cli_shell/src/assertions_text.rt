//! The text of the assertions: those of files, and after them the rules of ports.

use crate::files::{open, read_opened, read_text, team_text_of, text_of};
use crate::words::slices_of;
use axi4_rules::port_rules;
use cli_faults::Fault;
use source_files::{Added, Choice, Origin, Part, chosen, joined};
use std::alloc::{AllocError, Global};
use std::fs::Files;

/// The text that is judged, and what it was made of.
#[derive(Drop)]
pub struct Sources {
    /// The texts of the files, and the rules of the ports.
    pub parts: Vec<Part>,
    /// These as one, or what is left of that.
    pub text: String,
    /// What was added to it.
    pub added: Vec<Added>,
    /// The text of the port file, if there is one.
    pub ports: Option<String>,
}

impl Sources {
    /// The files that the text was made of, and what was added to them.
    pub fn origin(&self) -> Origin<'_> {
        Origin {
            parts: self.parts.as_slice(),
            added: self.added.as_slice(),
        }
    }
}

/// The texts that are judged, and that of the port file, if there is one.
#[derive(Drop)]
struct Read {
    parts: Vec<Part>,
    ports: Option<String>,
}

/// Adds one more.
fn push<T: Drop>(all: &mut Vec<T>, one: T) -> Result<(), AllocError> {
    all.push(one)?;
    Ok(())
}

/// The opened files of some paths.
fn opened<R: Files + AllocGlobal>(rt: &R, paths: &[&str]) -> Result<Vec<R::File>, Fault<'static>> {
    let mut files = Vec::new(rt.alloc());
    for path in paths {
        push(&mut files, open(rt, *path)?)?;
    }
    Ok(files)
}

/// What is in the files of some paths, which are all opened before one is read.
fn read_all<R: Files + AllocGlobal>(
    rt: &R,
    paths: &[&str],
) -> Result<Vec<Vec<u8>>, Fault<'static>> {
    let mut files = opened(rt, paths)?;
    let mut all = Vec::new(rt.alloc());
    for (file, path) in files.iter_mut().zip(paths.iter()) {
        push(&mut all, read_opened(rt.alloc(), file, *path)?)?;
    }
    Ok(all)
}

/// A path as it is told: a line feed as `\n`, so that it stands in one line.
fn told_path(alloc: Global, path: &str) -> Result<String, AllocError> {
    let mut told = String::new(alloc);
    let mut is_first = true;
    for line in path.split('\n') {
        if !is_first {
            told.push_str("\\n")?;
        }
        told.push_str(line)?;
        is_first = false;
    }
    Ok(told)
}

/// The texts of the files of some paths, which are all read before one is found to be no text; or
/// those of a team's files.
fn read_texts<R: Files + AllocGlobal>(
    rt: &R,
    paths: &[&str],
    are_teams: bool,
) -> Result<Vec<Part>, Fault<'static>> {
    let mut parts = Vec::new(rt.alloc());
    for (bytes, path) in read_all(rt, paths)?.into_iter().zip(paths.iter()) {
        let text = if are_teams {
            team_text_of(rt.alloc(), bytes, *path)?
        } else {
            text_of(rt.alloc(), bytes, *path)?
        };
        let path = told_path(rt.alloc(), *path)?;
        push(&mut parts, Part { path, text })?;
    }
    Ok(parts)
}

/// The rules of the ports of a port file, as the text of a file.
fn rules_of(alloc: Global, ports: &Part) -> Result<Part, Fault<'static>> {
    let text = port_rules(alloc, ports.text.as_str())?;
    let told = ports.path.as_str();
    let path = format!(in alloc; "rules of {told}")?;
    Ok(Part { path, text })
}

/// The texts with the rules of the ports of a port file, which is the last of them, in its place.
fn with_rules(alloc: Global, mut parts: Vec<Part>) -> Result<Read, Fault<'static>> {
    match parts.pop() {
        None => Ok(Read { parts, ports: None }),
        Some(ports) => {
            let rules = rules_of(alloc, &ports)?;
            push(&mut parts, rules)?;
            Ok(Read {
                parts,
                ports: Some(ports.text),
            })
        }
    }
}

/// The paths of the files of a text, and after them that of a port file where there is one.
fn paths_of<'a, R: AllocGlobal>(
    rt: &R,
    sva: &'a [String],
    axi: Option<&'a str>,
) -> Result<Vec<&'a str>, AllocError> {
    let mut paths = slices_of(rt, sva)?;
    if let Some(axi) = axi {
        paths.push(axi)?;
    }
    Ok(paths)
}

/// The texts that are judged: those of the files, and the rules of a port file where there is one.
fn read_parts<R: Files + AllocGlobal>(
    rt: &R,
    sva: &[String],
    axi: Option<&str>,
) -> Result<Read, Fault<'static>> {
    let paths = paths_of(rt, sva, axi)?;
    let parts = read_texts(rt, paths.as_slice(), false)?;
    match axi {
        None => Ok(Read { parts, ports: None }),
        Some(_) => with_rules(rt.alloc(), parts),
    }
}

/// The text that is judged: those of the files, one after another, and after them the rules of a
/// port file where there is one.
pub fn read_sources<R: Files + AllocGlobal>(
    rt: &R,
    sva: &[String],
    axi: Option<&str>,
) -> Result<Sources, Fault<'static>> {
    let read = read_parts(rt, sva, axi)?;
    let text = joined(rt.alloc(), read.parts.as_slice())?;
    Ok(Sources {
        parts: read.parts,
        text,
        added: Vec::new(rt.alloc()),
        ports: read.ports,
    })
}

/// The texts of a team's own files, one after another, which may have any bytes in their comments.
pub fn read_team_sources<R: Files + AllocGlobal>(
    rt: &R,
    files: &[String],
) -> Result<Sources, Fault<'static>> {
    let paths = paths_of(rt, files, None)?;
    let parts = read_texts(rt, paths.as_slice(), true)?;
    let text = joined(rt.alloc(), parts.as_slice())?;
    Ok(Sources {
        parts,
        text,
        added: Vec::new(rt.alloc()),
        ports: None,
    })
}

/// The files of a text, with what is left of it.
fn with_choice(sources: Sources, choice: Choice) -> Result<Sources, AllocError> {
    let mut added = choice.added;
    added.extend_from_slice(sources.added.as_slice())?;
    Ok(Sources {
        parts: sources.parts,
        text: choice.text,
        added,
        ports: sources.ports,
    })
}

/// The text with those assertions alone that one of some patterns means, where there are patterns.
/// N1 where one means no assertion.
pub fn chosen_sources(
    alloc: Global,
    sources: Sources,
    only: &[String],
) -> Result<Sources, Fault<'static>> {
    if only.is_empty() {
        return Ok(sources);
    }
    let choice = chosen(alloc, sources.text.as_str(), only)?;
    if let Some(place) = choice.unmatched {
        if let Some(pattern) = only.get(place) {
            return Err(Fault::NoAssertion(pattern.clone()?));
        }
    }
    Ok(with_choice(sources, choice)?)
}

/// The text with a label for each assertion that has none: what it is called in the whole text.
fn labelled_sources(alloc: Global, sources: Sources) -> Result<Sources, AllocError> {
    let mut all = Vec::new(alloc);
    all.push(String::from_str(alloc, "*")?)?;
    let choice = chosen(alloc, sources.text.as_str(), all.as_slice())?;
    with_choice(sources, choice)
}

/// The text that is judged, as [`read_sources`] reads it, but with those assertions alone that one
/// of some patterns means, where there are patterns. N1 where one means no assertion.
pub fn read_chosen<R: Files + AllocGlobal>(
    rt: &R,
    sva: &[String],
    axi: Option<&str>,
    only: &[String],
) -> Result<Sources, Fault<'static>> {
    let sources = read_sources(rt, sva, axi)?;
    chosen_sources(rt.alloc(), sources, only)
}

/// The text of files for a run that leaves out what is refused: each assertion keeps the name that
/// it has in the whole text.
pub fn read_labelled<R: Files + AllocGlobal>(
    rt: &R,
    sva: &[String],
    axi: Option<&str>,
    only: &[String],
) -> Result<Sources, Fault<'static>> {
    let sources = read_chosen(rt, sva, axi, only)?;
    if only.is_empty() {
        return Ok(labelled_sources(rt.alloc(), sources)?);
    }
    Ok(sources)
}

/// The paths of a text as one: those of its files, a comma between, or else that of its ports.
pub fn told_paths(alloc: Global, sva: &[String], axi: Option<&str>) -> Result<String, AllocError> {
    let mut paths = String::new(alloc);
    for path in sva {
        if !paths.as_str().is_empty() {
            paths.push_str(", ")?;
        }
        paths.push_str(path.as_str())?;
    }
    if sva.is_empty() {
        paths.push_str(axi.unwrap_or(""))?;
    }
    Ok(paths)
}

/// The rules of the ports that a file names.
pub fn read_rules<R: Files + AllocGlobal>(rt: &R, axi: &str) -> Result<String, Fault<'static>> {
    let ports = read_text(rt, axi)?;
    Ok(port_rules(rt.alloc(), ports.as_str())?)
}
