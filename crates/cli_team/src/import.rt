//! The command that writes a team's own files as a text.

ghost use Rattle.std.specs.Prelude.{◌≡◌};

use crate::dump_front::{read_dump_front, sound_header};
use crate::scope::has_scope;
use cli_faults::Fault;
use cli_shell::{
    REFUSED_STATUS, Sources, StandardError, open, print_bytes, print_error_lines, read_team_sources,
};
use cli_words::TeamFiles;
use import_files::{
    DumpSignal, Extent, ImportFault, Imported, Reading, Signals, extent_of, imported, known_of,
    messages_of, signals_of, text_of, unread_line,
};
use source_files::Part;
use std::fs::Files;
use std::io::Print;

/// The signals of the dump in a file, or none where none is named.
fn signals_in<R: Files + AllocGlobal>(
    rt: &R,
    vcd: Option<&str>,
) -> Result<Signals, Fault<'static>> {
    match vcd {
        None => Ok(signals_of(rt.alloc(), b"")?),
        Some(path) => {
            let mut dump = open(rt, path)?;
            let front = read_dump_front(rt.alloc(), &mut dump)?;
            Ok(signals_of(rt.alloc(), sound_header(rt.alloc(), &front)?)?)
        }
    }
}

/// The bytes of an option that may be left out.
fn bytes_of(option: &Option<String>) -> Option<&[u8]> {
    match option {
        Some(text) => Some(text.as_bytes()),
        None => None,
    }
}

/// How the files are read.
fn reading_of<'a>(
    team: &'a TeamFiles,
    widths: &'a [DumpSignal<'a>],
    names: &'a [String],
) -> Reading<'a> {
    Reading {
        scope: bytes_of(&team.scope),
        bound: team.bound.and_then(|bound| u8::try_from(bound).ok()),
        clock: bytes_of(&team.clock),
        widths,
        names,
        split: team.split,
    }
}

/// Tells of each file that it has no assertion.
fn print_no_assertion<R: StandardError + AllocGlobal>(
    rt: &R,
    parts: &[Part],
) -> Result<(), Fault<'static>> {
    let alloc = rt.alloc();
    for part in parts {
        let path = part.path.as_str();
        let line = format!(in alloc;
            "{path}:1:1: refused file NoAssertion: no assertion stands in it\n"
        )?;
        print_error_lines(rt, line.as_str());
    }
    Ok(())
}

/// Tells what is refused and noted of the assertions of files.
fn print_messages<R: StandardError + AllocGlobal>(
    rt: &R,
    parts: &[Part],
    bound: Option<u8>,
    all: &Imported,
) -> Result<(), Fault<'static>> {
    let told = messages_of(rt.alloc(), parts, bound, all)?;
    print_error_lines(rt, told.as_str());
    if all.outcomes.is_empty() {
        print_no_assertion(rt, parts)?;
    }
    Ok(())
}

/// The assertions of files, of which is told what is refused and noted; none where a comment has
/// no end, which is told.
pub(crate) fn import_and_tell<R: StandardError + AllocGlobal>(
    rt: &R,
    sources: &Sources,
    team: &TeamFiles,
    signals: &Signals,
) -> Result<Option<Imported>, Fault<'static>> {
    let widths = known_of(rt.alloc(), signals)?;
    let reading = reading_of(team, widths.as_slice(), signals.paths.as_slice());
    let parts = sources.parts.as_slice();
    match imported(
        rt.alloc(),
        sources.text.as_str(),
        team.define.as_slice(),
        &reading,
    ) {
        Ok(all) => match print_messages(rt, parts, reading.bound, &all) {
            Ok(()) => Ok(Some(all)),
            Err(fault) => {
                drop(all);
                Err(fault)
            }
        },
        Err(ImportFault::Memory) => Err(Fault::Memory),
        Err(fault) => {
            let line = unread_line(rt.alloc(), parts, fault)?;
            print_error_lines(rt, line.as_str());
            Ok(None)
        }
    }
}

/// The status of an import of which so much is written.
fn status_of(extent: Extent) -> u8
    ensures whole { extent ≡ Extent.Whole → result ≡ 0 }
    ensures part { extent ≡ Extent.Part → result ≡ 1 }
    ensures nothing { extent ≡ Extent.Nothing → result ≡ 2 }
{
    match extent {
        Extent::Whole => 0,
        Extent::Part => 1,
        Extent::Nothing => REFUSED_STATUS,
    }
}

/// Writes the assertions; the answer is the status.
fn print_imported<R: Print + AllocGlobal>(rt: &R, all: &Imported) -> Result<u8, Fault<'static>> {
    let text = text_of(rt.alloc(), all)?;
    print_bytes(rt, text.as_slice())?;
    Ok(status_of(extent_of(all)))
}

/// Reads SystemVerilog files and the header of a dump, and writes the assertions as a text; the
/// answer is the status: 0 where none is refused, 1 where others are written, 2 where none is.
pub fn serve_import<R: Files + Print + StandardError + AllocGlobal>(
    rt: &R,
    team: &TeamFiles,
    vcd: Option<&str>,
) -> Result<u8, Fault<'static>> {
    let sources = read_team_sources(rt, team.files.as_slice())?;
    let signals = signals_in(rt, vcd)?;
    if vcd.is_some() && !has_scope(rt, team, &signals)? {
        return Ok(REFUSED_STATUS);
    }
    let Some(all) = import_and_tell(rt, &sources, team, &signals)? else {
        return Ok(REFUSED_STATUS);
    };
    let status = print_imported(rt, &all);
    drop(all);
    status
}
