//! The call of the command `lint`.

ghost use Rattle.std.specs.Prelude.{◌≡◌, List, [], false, string_bytes, Ok, IfOk, IfErr, OnOk};
ghost use Rattle.std.specs.Io.KnownBytes.{Appends};
ghost use Rattle.diagnostics.specs.declared.front.Refusal.{Refusal};
ghost use Rattle.vcd_reader.specs.Dump.{Contents, Gave, dump_of};
ghost use Rattle.vcd_reader.specs.Held.{variables_of, Parses};
ghost use Rattle.lint_refusals.specs.Refused.{IsAccepted};
ghost use Rattle.lint_refusals.specs.Rests.{IsRest};
ghost use Rattle.lint.specs.Tells.{TellsRefusals, IsLinted, StandsOver, WhyNoText, WhyNoTextOver};
ghost use Rattle.lint.specs.Tells.{WhyTextUnwritten, WhyNotLinted};

use crate::fault::LintFault;
use crate::held::Held;
use crate::refusals::text_of;
use diagnostics::{Linted, Refusal};
use lint_dump_notes::{Beside, Selects, told_notes};
use lint_messages::{Meant, Unnamed, names_of, unnamed_in};
use lint_notes::{PortSaid, Turned, turned_names};
use lint_refusals::lint_over;
use report_lines::ReportFault;
use signals::{ReadAllError, Sink, Source, read_all, write_all};
use source_files::Origin;
use std::alloc::{AllocError, Global};
use vcd_reader::{Dump, VcdFault, read_dump};

/// What is told of a text: how much of it is refused, and the text without that.
#[derive(Drop)]
pub struct Rest {
    /// Each refusal with its file, its line and its column, and how many items are refused.
    pub told: String,
    /// How many refusals there are.
    pub refused: usize,
    /// The text without the items that are refused; none where it could not be cut.
    pub text: Option<String>,
}

/// All refusals of a text over a dump, told in the order of their places by the files that the text
/// was made of, and the text without the items that are refused.
pub fn rest_over<'a>(
    alloc: Global,
    dump: &'a Dump,
    text: &'a str,
    origin: &Origin<'a>,
) -> Result<Rest, AllocError>
    ensures tells { IfOk result (λ r. TellsRefusals (variables_of dump.now) text.now
        origin.now.parts.now origin.now.added.now [] r.refused (string_bytes r.told) r.text) }
    ensures rest { IfOk result (λ r.
        IsRest (variables_of dump.now) text.now r.refused r.text) }
    ensures accepted { IfOk result (λ r. r.refused ≡ 0
        → IsAccepted (variables_of dump.now) text.now) }
{
    let names = names_of(alloc, dump, text)?;
    let meant = Meant {
        dump,
        names: names.as_slice(),
        unnamed: &[],
        turned: &[],
        knows_ranges: false,
        origin: *origin,
    };
    let mut told = lint_over(alloc, &meant, text)?;
    let refused = told.linted.refusals.len();
    let written = text_of(alloc, origin, &mut told.linted.refusals, &[], told.items)?;
    Ok(Rest {
        told: written,
        refused,
        text: told.linted.rest,
    })
}

/// What the declarations of a dump say beside paths and widths.
#[derive(Drop)]
struct Declared {
    /// What no rule can name.
    unnamed: Vec<Unnamed>,
    /// Names whose declared range isn't counted from 0 at the right.
    turned: Vec<Turned>,
}

/// What the declarations of the dump say that bytes are.
fn declared_in(alloc: Global, bytes: &[u8]) -> Result<Declared, AllocError> {
    let unnamed = unnamed_in(alloc, bytes)?;
    let turned = turned_names(alloc, bytes)?;
    Ok(Declared { unnamed, turned })
}

/// What is refused of a text, with notes on what is left.
fn noted_over<'a>(
    alloc: Global,
    dump: Dump,
    text: &'a str,
    origin: &Origin<'a>,
    declared: Declared,
    beside: &Beside<'_, '_>,
) -> Result<Rest, AllocError>
    ensures { IfOk result (λ r. (notes : List Refusal)
        × TellsRefusals (variables_of dump) text.now origin.now.parts.now origin.now.added.now
        notes r.refused (string_bytes r.told) r.text) }
{
    let Declared { unnamed, turned } = declared;
    let names = names_of(alloc, &dump, text)?;
    let meant = Meant {
        dump: &dump,
        names: names.as_slice(),
        unnamed: unnamed.as_slice(),
        turned: turned.as_slice(),
        knows_ranges: true,
        origin: *origin,
    };
    let mut told = lint_over(alloc, &meant, text)?;
    let notes = notes_on(alloc, dump, &told.linted, beside)?;
    let refused = told.linted.refusals.len();
    let refusals = &mut told.linted.refusals;
    let written = text_of(alloc, origin, refusals, notes.as_slice(), told.items)?;
    let left = told.linted.rest;
    Ok(Rest {
        told: written,
        refused,
        text: left,
    })
}

/// The notes on what is left of a text.
fn notes_on(
    alloc: Global,
    dump: Dump,
    linted: &Linted,
    beside: &Beside<'_, '_>,
) -> Result<Vec<Refusal>, AllocError> {
    match &linted.rest {
        None => Ok(Vec::new(alloc)),
        Some(rest) => told_notes(
            alloc,
            dump,
            rest.as_str(),
            beside,
            linted.refusals.is_empty(),
        ),
    }
}

/// The most bytes of a dump.
const MOST_BYTES: u64 = 1 << 48;

/// All that a source has.
fn bytes_of<S: Source>(alloc: Global, source: &mut S) -> Result<Vec<u8>, LintFault>
    ensures gave { IfOk result (λ bytes. Gave (S.state source.old).remaining
        (S.state source.new).remaining bytes.items) }
    ensures counted { OnOk result
        ((S.state source.new).failures ≡ (S.state source.old).failures) }
    ensures refused { IfErr result (WhyNoText (S.state source.old) (S.state source.new)) }
{
    match read_all(alloc, source, MOST_BYTES) {
        Ok(bytes) => Ok(bytes),
        Err(ReadAllError::Memory) => Err(LintFault::Memory),
        Err(ReadAllError::Failed) => Err(LintFault::Vcd(VcdFault::Read)),
        Err(ReadAllError::TooLarge) => Err(LintFault::Vcd(VcdFault::TooLarge)),
    }
}

/// The dump that bytes are.
fn dump_of(alloc: Global, bytes: &[u8]) -> Result<Dump, VcdFault>
    ensures parses { IfOk result (Parses bytes.now) }
    ensures refused { IfErr result (StandsOver bytes.now) }
{
    let mut source = Held { rest: bytes };
    read_dump(alloc, &mut source)
}

/// What is told of a text over the dump that bytes are.
fn told_over<'a>(
    alloc: Global,
    bytes: &[u8],
    text: &'a str,
    origin: &Origin<'a>,
    ports: &[PortSaid],
    selects: Selects,
) -> Result<Rest, LintFault>
    ensures told { IfOk result (λ r. (c : Contents) × (dump_of bytes.now ≡ Ok c)
        × (notes : List Refusal)
        × TellsRefusals c.variables text.now origin.now.parts.now origin.now.added.now notes
        r.refused (string_bytes r.told) r.text) }
    ensures refused { IfErr result (WhyNoTextOver bytes.now) }
{
    let dump = dump_of(alloc, bytes)?;
    let declared = declared_in(alloc, bytes)?;
    let beside = Beside {
        bytes,
        ports,
        selects,
    };
    let rest = noted_over(alloc, dump, text, origin, declared, &beside)?;
    Ok(rest)
}

/// Writes what is told, and hands it on.
fn write_told<W: Sink>(out: &mut W, told: &str) -> Result<(), LintFault>
    ensures written { OnOk result
        (Appends (W.state out.old).contents (W.state out.new).contents told.now) }
    ensures flushed { OnOk result ((W.state out.new).keeps_back ≡ false) }
    ensures refused { IfErr result
        (WhyTextUnwritten (W.state out.old) (W.state out.new) told.now) }
{
    if write_all(out, told.as_bytes()).is_err() {
        return Err(LintFault::Report(ReportFault::Write));
    }
    match out.flush() {
        Ok(()) => Ok(()),
        Err(_) => Err(LintFault::Report(ReportFault::Write)),
    }
}

/// Tells all refusals of a text over the dump that a source gives, in the order of their places:
/// each with its file's path, its line and its column there, and why; then that line, and a caret.
/// Then come notes on what is accepted, and at the end how many items are refused. The text was
/// made of the origin's files; the ports are those whose rules are in it. Of selects that were
/// converted from those of the declared ranges, nothing is told.
///
/// The answer is how many refusals there are.
///
/// # Errors
///
/// What is wrong with the dump (V1 to V8), G1 where the sink failed, and want of memory.
pub fn lint_one<'a, S: Source, W: Sink>(
    alloc: Global,
    source: &mut S,
    text: &'a str,
    origin: &Origin<'a>,
    ports: &[PortSaid],
    selects: Selects,
    out: &mut W,
) -> Result<u64, LintFault>
    ensures linted { IfOk result (IsLinted text.now origin.now.parts.now origin.now.added.now
        (S.state source.old) (S.state source.new) (W.state out.old) (W.state out.new)) }
    // Where it is not the sink that failed, nothing was written.
    ensures refused { IfErr result (WhyNotLinted text.now origin.now.parts.now origin.now.added.now
        (S.state source.old) (S.state source.new) (W.state out.old) (W.state out.new)) }
{
    let bytes = bytes_of(alloc, source)?;
    let rest = told_over(alloc, bytes.as_slice(), text, origin, ports, selects)?;
    write_told(out, rest.told.as_str())?;
    Ok(rest.refused as u64)
}
