//! A team's own files in place of a text.

ghost use Rattle.std.specs.Prelude.{◌≡◌, false, max, true};

use crate::dump_front::{read_dump_front, sound_header};
use crate::import::import_and_tell;
use crate::scope::has_scope;
use cli_faults::Fault;
use cli_shell::{REFUSED_STATUS, Sources, StandardError, chosen_sources, open, read_team_sources};
use cli_words::TeamFiles;
use import_files::{Extent, Imported, extent_of, placed, signals_of};
use std::alloc::{AllocError, Global};
use std::fs::Files;
use std::io::{Chain, Cursor, Read};

/// The front of a dump, and the text that is judged over it in place of a team's files.
#[derive(Drop)]
struct TeamFront {
    /// What was read of the dump: all of its header, and it may be more.
    head: Vec<u8>,
    sources: Sources,
    /// Whether no assertion is refused.
    is_whole: bool,
}

/// A dump, and the text that is judged over it in place of a team's files.
#[derive(Drop)]
pub struct TeamCase<D> {
    /// The dump, from its first byte on.
    pub dump: Chain<Cursor<Vec<u8>>, D>,
    pub sources: Sources,
    /// Whether no assertion is refused.
    pub is_whole: bool,
}

/// The text that is judged in place of files, whose assertions these are.
fn placed_sources(
    alloc: Global,
    mut sources: Sources,
    imported: &Imported,
) -> Result<Sources, AllocError> {
    let placed = placed(alloc, sources.text.as_str(), imported)?;
    sources.text = placed.text;
    sources.added = placed.added;
    Ok(sources)
}

/// The front of a dump, and the text in place of a team's files, whose assertions these are; none
/// where no assertion is written.
fn front_of(
    alloc: Global,
    head: Vec<u8>,
    sources: Sources,
    imported: &Imported,
) -> Result<Option<TeamFront>, Fault<'static>> {
    let is_whole = match extent_of(imported) {
        Extent::Nothing => return Ok(None),
        Extent::Part => false,
        Extent::Whole => true,
    };
    let sources = placed_sources(alloc, sources, imported)?;
    Ok(Some(TeamFront {
        head,
        sources,
        is_whole,
    }))
}

/// Reads a team's files, then the header of a dump, and tells what is refused and noted; none where
/// no assertion is written, or the dump doesn't have the scope that is given.
fn read_team<R: Files + StandardError + AllocGlobal, D: Read>(
    rt: &R,
    dump: &mut D,
    team: &TeamFiles,
) -> Result<Option<TeamFront>, Fault<'static>> {
    let sources = read_team_sources(rt, team.files.as_slice())?;
    let front = read_dump_front(rt.alloc(), dump)?;
    let signals = signals_of(rt.alloc(), sound_header(rt.alloc(), &front)?)?;
    let head = front.bytes;
    if !has_scope(rt, team, &signals)? {
        return Ok(None);
    }
    let Some(imported) = import_and_tell(rt, &sources, team, &signals)? else {
        return Ok(None);
    };
    let front = front_of(rt.alloc(), head, sources, &imported);
    drop(imported);
    front
}

/// Opens a dump, reads a team's files and the dump's header, and tells what is refused and noted.
/// The text has those assertions alone that one of some patterns means, where there are patterns;
/// there is none where no assertion is written, and the status is then 2.
pub fn open_team<R: Files + StandardError + AllocGlobal>(
    rt: &R,
    vcd: &str,
    team: &TeamFiles,
    only: &[String],
) -> Result<Option<TeamCase<R::File>>, Fault<'static>> {
    let mut dump = open(rt, vcd)?;
    let Some(front) = read_team(rt, &mut dump, team)? else {
        return Ok(None);
    };
    let TeamFront {
        head,
        sources,
        is_whole,
    } = front;
    let sources = chosen_sources(rt.alloc(), sources, only)?;
    Ok(Some(TeamCase {
        dump: Cursor::new(head).chain(dump),
        sources,
        is_whole,
    }))
}

/// The status of a command over what is written of a team's files: 2 where the rest is refused, and
/// what the command did is no worse than that.
pub fn status_with(is_whole: bool, status: u8) -> u8
    ensures whole { is_whole ≡ true → result ≡ status }
    ensures part { is_whole ≡ false → result ≡ max status 2 }
{
    if is_whole {
        status
    } else {
        status.max(REFUSED_STATUS)
    }
}
