//! Programs, read.

ghost use Rattle.std.specs.Prelude.{◌≡◌, ℕ, Bool, length, map, string_bytes, IsTrue, IfOk, IfErr};
ghost use Rattle.bytecode.specs.declared.fault.CodeFault.TheVariants.{Memory};
ghost use Rattle.bytecode_programs.specs.Values.{ProgramData, fits_program_in};
ghost use Rattle.bytecode_programs.specs.Views.{section_data};
ghost use Rattle.bytecode.specs.Views.{header_data, parts_data};
ghost use Rattle.bytecode_programs.specs.Programs.{data_of};
ghost use Rattle.bytecode.specs.Views.{IsProgramOr};
ghost use Rattle.bytecode.specs.Spelling.{IsSpelled, spelling_in};
ghost use Rattle.bytecode.specs.Reading.{Gives, head_at, limits_at, section_at, header_at};
ghost use Rattle.bytecode.specs.Reading.{program_at, disable_of, whole_of, fault_of};
ghost use Rattle.bytecode.specs.Reading.{IsFirstFault};

use crate::fault::CodeFault;
use crate::field::{Field, byte_at, four_at, sixteen_at, two_at};
use crate::list_reading::{blocks_at, counted_samples_at, counted_slots_at, counted_widths_at};
use crate::parts::{Header, Parts};
use crate::read::read;
use crate::stop::Stop;
use crate::text::text_at;
use bytecode_programs::{Limits, Program, Section};
use std::alloc::Global;

/// The magic number and the version: whether `AcceptFirst` may stand in the blocks.
#[tactic(auto, unfolding(crate::specs::Reading::head_at))]
fn head_at(bytes: &[u8]) -> Field<'_, bool>
    ensures { Gives (λ x. (x.0, x.1.now)) result (head_at bytes.now) }
{
    let (magic, rest) = read!(four_at(bytes));
    if magic != 0x5356414d {
        return Err(Stop::Magic);
    }
    let (version, rest) = read!(byte_at(rest));
    if version == 2 {
        return Ok((true, rest));
    }
    if version == 1 {
        return Ok((false, rest));
    }
    Err(Stop::Version)
}

/// The limits.
#[tactic(auto, unfolding(crate::specs::Reading::limits_at))]
fn limits_at(bytes: &[u8]) -> Field<'_, Limits>
    ensures { Gives (λ x. (x.0, x.1.now)) result (limits_at bytes.now) }
{
    let (history, rest) = read!(two_at(bytes));
    let (stack, rest) = read!(two_at(rest));
    let (attempts, rest) = read!(two_at(rest));
    let (obligations, rest) = read!(two_at(rest));
    let (budget, rest) = read!(four_at(rest));
    let limits = Limits {
        history,
        stack,
        attempts,
        obligations,
        budget,
    };
    Ok((limits, rest))
}

/// A section, in the blocks of which `AcceptFirst` may stand or not.
#[tactic(auto, unfolding(crate::specs::Reading::section_at))]
fn section_at(alloc: Global, first: bool, bytes: &[u8]) -> Field<'_, Section>
    ensures { Gives (λ x. (section_data x.0, x.1.now)) result (section_at first bytes.now) }
{
    let (start, rest) = read!(sixteen_at(bytes));
    let (count, rest) = read!(byte_at(rest));
    let (blocks, rest) = read!(blocks_at(alloc, first, count, rest));
    Ok((Section { start, blocks }, rest))
}

/// The atom that disables: 255 stands for none.
fn disable_of(byte: u8) -> Option<u8>
    ensures { result ≡ disable_of byte }
{
    if byte == 255 { None } else { Some(byte) }
}

/// What stands before the lists.
#[tactic(auto, unfolding(crate::specs::Reading::header_at))]
fn header_at(alloc: Global, bytes: &[u8]) -> Field<'_, Header>
    ensures { Gives (λ x. (header_data x.0, x.1.now)) result (header_at bytes.now) }
{
    let (limits, rest) = read!(limits_at(bytes));
    let (disable, rest) = read!(byte_at(rest));
    let (atoms, rest) = read!(byte_at(rest));
    let (name, rest) = read!(text_at(alloc, rest, false));
    let (clock, rest) = read!(text_at(alloc, rest, true));
    let header = Header {
        limits,
        disable: disable_of(disable),
        atoms,
        name,
        clock,
    };
    Ok((header, rest))
}

/// All parts of a program.
#[tactic(auto, unfolding(crate::specs::Reading::program_at))]
fn parts_at(alloc: Global, bytes: &[u8]) -> Field<'_, Parts>
    ensures { Gives (λ x. (parts_data x.0, x.1.now)) result (program_at bytes.now) }
{
    let (first, rest) = read!(head_at(bytes));
    let (header, rest) = read!(header_at(alloc, rest));
    let (signals, rest) = read!(counted_slots_at(alloc, rest));
    let (counters, rest) = read!(counted_widths_at(alloc, rest));
    let (sample, rest) = read!(counted_samples_at(alloc, rest));
    let (antecedent, rest) = read!(section_at(alloc, first, rest));
    let (consequent, rest) = read!(section_at(alloc, first, rest));
    let parts = Parts {
        header,
        signals,
        counters,
        sample,
        antecedent,
        consequent,
    };
    Ok((parts, rest))
}

/// All parts of a program, after which nothing stands.
#[tactic(auto, unfolding(crate::specs::Reading::whole_of))]
fn whole_of(alloc: Global, bytes: &[u8]) -> Result<Parts, Stop>
    ensures { Gives parts_data result (whole_of bytes.now) }
{
    let (parts, rest) = read!(parts_at(alloc, bytes));
    if !rest.is_empty() {
        return Err(Stop::Trailing(rest.len()));
    }
    Ok(parts)
}

/// A stop as a fault of an input of so many bytes.
fn fault_of(total: usize, stop: Stop) -> CodeFault
    ensures { result ≡ fault_of total stop }
{
    match stop {
        Stop::Memory => CodeFault::Memory,
        Stop::Magic => CodeFault::Magic,
        Stop::Version => CodeFault::Version,
        Stop::Cut => CodeFault::Truncated(total),
        Stop::Opcode(left) => CodeFault::BadOpcode(total.saturating_sub(left)),
        Stop::Field(left) => CodeFault::BadField(total.saturating_sub(left)),
        Stop::Trailing(left) => CodeFault::TrailingBytes(total.saturating_sub(left)),
    }
}

/// The program that the bytes spell, all of them, in version 2 or in version 1; or the first fault
/// from the left.
///
/// Room is taken as fields are read, and none for what a count declares.
pub fn decode(alloc: Global, bytes: &[u8]) -> Result<Program, CodeFault>
    // What is read is spelled so.
    ensures spelled { IfOk result (λ p. IsSpelled bytes.now (data_of p)) }
    // What is spelled so is read, unless memory runs out.
    ensures read { (first : Bool) (x : ProgramData) → IsTrue (fits_program_in first x) →
        bytes.now ≡ spelling_in first x → IsProgramOr result x Memory }
    // Which fault it is.
    ensures fault { IfErr result (IsFirstFault bytes.now) }
{
    let parts = match whole_of(alloc, bytes) {
        Ok(parts) => parts,
        Err(stop) => return Err(fault_of(bytes.len(), stop)),
    };
    let header = parts.header;
    Ok(Program {
        limits: header.limits,
        disable: header.disable,
        atoms: header.atoms,
        name: header.name,
        clock: header.clock,
        signals: parts.signals,
        counters: parts.counters,
        sample: parts.sample,
        antecedent: parts.antecedent,
        consequent: parts.consequent,
    })
}
