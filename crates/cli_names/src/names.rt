//! The call behind the command `names`.

ghost use Rattle.std.specs.Prelude.{◌≡◌, IfOk, IfErr, OnOk, false};
ghost use Rattle.std.specs.Io.KnownBytes.{Appends};
ghost use Rattle.vcd_reader.specs.Dump.{Gave};
ghost use Rattle.vcd_reader.specs.Held.{Parses};
ghost use Rattle.cli_names.specs.Faults.{StandsOver, WhyNoTable, WhyNoTableOver, WhyTableUnwritten};
ghost use Rattle.cli_names.specs.Told.{IsTable, IsTableOf, IsTold, WhyNotTold};

use crate::fault::NamesFault;
use crate::filter::Filter;
use crate::held::Held;
use crate::rows::told_in;
use crate::table::table_of;
use report_lines::ReportFault;
use signals::{ReadAllError, Sink, Source, read_all, write_all};
use std::alloc::{AllocError, Global};
use vcd_declarations::declarations_law;
use vcd_reader::{Dump, VcdFault, read_dump};

/// The most bytes of a dump.
const MOST_BYTES: u64 = 1 << 48;

/// All that a source has.
fn bytes_of<S: Source>(alloc: Global, source: &mut S) -> Result<Vec<u8>, NamesFault>
    ensures gave { IfOk result (λ bytes. Gave (S.state source.old).remaining
        (S.state source.new).remaining bytes.items) }
    ensures counted { OnOk result
        ((S.state source.new).failures ≡ (S.state source.old).failures) }
    ensures refused { IfErr result (WhyNoTable (S.state source.old) (S.state source.new)) }
{
    match read_all(alloc, source, MOST_BYTES) {
        Ok(bytes) => Ok(bytes),
        Err(ReadAllError::Memory) => Err(NamesFault::Memory),
        Err(ReadAllError::Failed) => Err(NamesFault::Vcd(VcdFault::Read)),
        Err(ReadAllError::TooLarge) => Err(NamesFault::Vcd(VcdFault::TooLarge)),
    }
}

/// The dump that bytes are.
fn dump_of(alloc: Global, bytes: &[u8]) -> Result<Dump, VcdFault>
    ensures parses { IfOk result (Parses bytes.now) }
    ensures refused { IfErr result (StandsOver bytes.now) }
{
    let mut source = Held { rest: bytes };
    read_dump(alloc, &mut source)
}

/// The table of a dump's variables that are asked for, and how many they are.
fn table_in(
    alloc: Global,
    dump: &Dump,
    bytes: &[u8],
    filter: &Filter<'_>,
) -> Result<(Vec<u8>, u64), AllocError>
    requires { Parses bytes.now dump.now }
    ensures { IfOk result (λ r. IsTable filter.now bytes.now r.0.items r.1) }
{
    declarations_law();
    let told = told_in(alloc, dump, bytes, filter)?;
    let table = table_of(alloc, &told)?;
    Ok((table, told.rows.len() as u64))
}

/// The table of bytes that are to be a dump.
fn table_over(
    alloc: Global,
    bytes: &[u8],
    filter: &Filter<'_>,
) -> Result<(Vec<u8>, u64), NamesFault>
    ensures told { IfOk result (λ r. IsTableOf filter.now bytes.now r.0.items r.1) }
    ensures refused { IfErr result (WhyNoTableOver bytes.now) }
{
    let dump = dump_of(alloc, bytes)?;
    Ok(table_in(alloc, &dump, bytes, filter)?)
}

/// Writes a table and flushes it.
fn write_table<W: Sink>(out: &mut W, table: &[u8]) -> Result<(), NamesFault>
    ensures written { OnOk result
        (Appends (W.state out.old).contents (W.state out.new).contents table.now) }
    ensures flushed { OnOk result ((W.state out.new).keeps_back ≡ false) }
    ensures refused { IfErr result
        (WhyTableUnwritten (W.state out.old) (W.state out.new) table.now) }
{
    if write_all(out, table).is_err() {
        return Err(NamesFault::Report(ReportFault::Write));
    }
    match out.flush() {
        Ok(()) => Ok(()),
        Err(_) => Err(NamesFault::Report(ReportFault::Write)),
    }
}

/// Tells the variables of the dump that a source gives that are asked for, in the header's order:
/// of each its path, its width in bits, its declared range, its kind, and where no rule can name
/// it, why not. Where none is told, it writes `0 of N variables`.
///
/// The answer is how many are told.
///
/// # Errors
///
/// What is wrong with the dump (V1 to V8), G1 where the sink failed, and want of memory.
pub fn names_one<S: Source, W: Sink>(
    alloc: Global,
    source: &mut S,
    filter: &Filter<'_>,
    out: &mut W,
) -> Result<u64, NamesFault>
    ensures told { IfOk result (IsTold (S.state source.old) (S.state source.new)
        (W.state out.old) (W.state out.new) filter.now) }
    // Where it is not the sink that failed, nothing was written.
    ensures refused { IfErr result (WhyNotTold (S.state source.old) (S.state source.new)
        (W.state out.old) (W.state out.new) filter.now) }
{
    let bytes = bytes_of(alloc, source)?;
    let (table, count) = table_over(alloc, &bytes, filter)?;
    write_table(out, &table)?;
    Ok(count)
}
