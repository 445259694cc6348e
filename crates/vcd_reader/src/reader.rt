//! Dumps from bytes, and from devices.

ghost use Rattle.std.specs.Prelude.{◌≡◌, ℕ, ◌<◌, ◌≤◌, ◌^◌, List, map, length, IfOk, IfErr, OnOk};
ghost use Rattle.std.specs.Prelude.{MatchResult};
ghost use Rattle.std.specs.Io.KnownBytes.{Consumes};
ghost use Rattle.vcd_reader.specs.Faults.{Gives, Fails};
ghost use Rattle.vcd_reader.specs.Index.{codes_in, IsIndex};
ghost use Rattle.vcd_reader.specs.Stored.{stored_step};
ghost use Rattle.vcd_reader.specs.Body.{body, steps_of};
ghost use Rattle.vcd_reader.specs.Kept.{kept_steps};
ghost use Rattle.vcd_reader.specs.Sections.{tokens_at};
ghost use Rattle.vcd_reader.specs.Dump.{dump_of, line_of, fault_at_line, Stands};
ghost use Rattle.vcd_reader.specs.Held.{Parses, ReadsAs};

use crate::body_reader::BodyReader;
use crate::dump::Dump;
use crate::fault::{Fault, ReadError, VcdFault};
use crate::header::{Declarations, read_header};
use crate::one_thread::OneThread;
use crate::packed::table_of;
use crate::places::{Part, Places, places_of};
use crate::reading_team::ReadingTeam;
use crate::step::Step;
use crate::variable::Variable;
use signals::{ReadAllError, Source, read_all};
use std::alloc::Global;
use std::thread::Threads;

/// The most bytes of a dump.
const MOST_BYTES: u64 = 1 << 48;

/// The steps of the body that begins there, and the high halves of their wide values.
fn read_steps<B: BodyReader>(
    alloc: Global,
    reader: &B,
    bytes: &[u8],
    start: usize,
    variables: &[Variable],
    codes: &Places,
) -> Result<(Vec<Step>, Vec<u64>), ReadError>
    requires start { start ≤ length bytes.now }
    requires index { IsIndex (codes_in variables.now) codes.now }
    ensures { Gives (λ r. map (stored_step r.1.items) r.0.items) result
        (kept_steps (steps_of (body (codes_in variables.now) (length bytes.now) 0 0
        (tokens_at bytes.now start)))) }
{
    let header = table_of(alloc, variables, codes)?;
    let read = reader.read_body(alloc, bytes, start, &header);
    drop(header);
    read
}

/// The dump that the bytes are.
fn parse<B: BodyReader>(alloc: Global, reader: &B, bytes: &[u8]) -> Result<Dump, ReadError>
    ensures { MatchResult result (Parses bytes.now) (λ e. Fails e (dump_of bytes.now)) }
{
    let Declarations {
        scopes,
        variables,
        end,
    } = read_header(alloc, bytes)?;
    let paths = places_of(alloc, &scopes, &variables, Part::Path)?;
    let codes = places_of(alloc, &scopes, &variables, Part::Code)?;
    let (steps, high) = read_steps(alloc, reader, bytes, end, &variables, &codes)?;
    Ok(Dump {
        scopes,
        variables,
        paths,
        codes,
        steps,
        high,
    })
}

fn line_at(bytes: &[u8], at: usize) -> usize
    requires { length bytes.now < 2 ^ 62 }
    ensures { result ≡ line_of bytes.now at }
{
    let end = at.min(bytes.len());
    1 + bytes[..end].iter().filter(|b| **b == 10).count()
}

fn with_line(bytes: &[u8], fault: Fault) -> VcdFault
    requires { length bytes.now < 2 ^ 62 }
    ensures { result ≡ fault_at_line bytes.now fault }
{
    match fault {
        Fault::BadToken(at) => VcdFault::BadToken(line_at(bytes, at)),
        Fault::UnknownCode(at) => VcdFault::UnknownCode(line_at(bytes, at)),
        Fault::TimeBack(at) => VcdFault::TimeBack(line_at(bytes, at)),
        Fault::UnclosedSection(at) => VcdFault::UnclosedSection(line_at(bytes, at)),
        Fault::BadSize(at) => VcdFault::BadSize(line_at(bytes, at)),
        Fault::Truncated => VcdFault::Truncated,
        Fault::TooLarge => VcdFault::TooLarge,
    }
}

/// The dump that the source gives, read to its end, and the bytes that it gave.
fn read_source<S: Source, B: BodyReader>(
    alloc: Global,
    reader: &B,
    source: &mut S,
) -> Result<(Dump, Vec<u8>), VcdFault>
    ensures accepted { IfOk result (λ r.
        ReadsAs (S.state source.old).remaining (S.state source.new).remaining r.0) }
    ensures bytes { IfOk result (λ r.
        Consumes (S.state source.old).remaining (S.state source.new).remaining r.1.items) }
    ensures counted { OnOk result
        ((S.state source.new).failures ≡ (S.state source.old).failures) }
    ensures refused { IfErr result (Stands (S.state source.old) (S.state source.new)) }
{
    let bytes = match read_all(alloc, source, MOST_BYTES) {
        Ok(bytes) => bytes,
        Err(ReadAllError::Memory) => return Err(VcdFault::Memory),
        Err(ReadAllError::Failed) => return Err(VcdFault::Read),
        Err(ReadAllError::TooLarge) => return Err(VcdFault::TooLarge),
    };
    match parse(alloc, reader, &bytes) {
        Ok(dump) => Ok((dump, bytes)),
        Err(ReadError::Memory) => Err(VcdFault::Memory),
        Err(ReadError::Fault(fault)) => Err(with_line(&bytes, fault)),
    }
}

/// The dump that the source gives, read to its end.
pub fn read_dump<S: Source>(alloc: Global, source: &mut S) -> Result<Dump, VcdFault>
    // What is accepted is what the grammar says of all the bytes that the source had.
    ensures accepted { IfOk result
        (ReadsAs (S.state source.old).remaining (S.state source.new).remaining) }
    ensures counted { OnOk result
        ((S.state source.new).failures ≡ (S.state source.old).failures) }
    // What is refused has the fault, the first one, or the source failed, or it gave too much.
    ensures refused { IfErr result (Stands (S.state source.old) (S.state source.new)) }
{
    let (dump, _bytes) = read_source(alloc, &OneThread, source)?;
    Ok(dump)
}

/// What [`read_dump`] gives, by so many threads at most, the calling one among them: for each MB of
/// the body that is begun there is at most one, and there are 8 at most. All have ended when it
/// returns.
pub fn read_dump_by<S: Source, R: Threads>(
    rt: &R,
    alloc: Global,
    source: &mut S,
    threads: usize,
) -> Result<Dump, VcdFault>
    ensures accepted { IfOk result
        (ReadsAs (S.state source.old).remaining (S.state source.new).remaining) }
    ensures counted { OnOk result
        ((S.state source.new).failures ≡ (S.state source.old).failures) }
    ensures refused { IfErr result (Stands (S.state source.old) (S.state source.new)) }
{
    let (dump, _bytes) = read_dump_and_bytes(rt, alloc, source, threads)?;
    Ok(dump)
}

/// What [`read_dump_by`] gives, and the bytes that the source gave, for a caller that tells more of
/// them than the dump does.
pub fn read_dump_and_bytes<S: Source, R: Threads>(
    rt: &R,
    alloc: Global,
    source: &mut S,
    threads: usize,
) -> Result<(Dump, Vec<u8>), VcdFault>
    ensures accepted { IfOk result (λ r.
        ReadsAs (S.state source.old).remaining (S.state source.new).remaining r.0) }
    ensures bytes { IfOk result (λ r.
        Consumes (S.state source.old).remaining (S.state source.new).remaining r.1.items) }
    ensures counted { OnOk result
        ((S.state source.new).failures ≡ (S.state source.old).failures) }
    ensures refused { IfErr result (Stands (S.state source.old) (S.state source.new)) }
{
    read_source(alloc, &ReadingTeam { rt, threads }, source)
}
