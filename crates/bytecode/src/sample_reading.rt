//! Instructions of sample code, read.

ghost use Rattle.std.specs.Prelude.{◌≡◌, length};
ghost use Rattle.bytecode.specs.Reading.{Gives, push_at, past_at, slice_at, operands_at};
ghost use Rattle.bytecode.specs.Reading.{sample_at};
ghost use Rattle.bytecode.specs.Reading.{plain_at, plain_of};

use crate::field::{Field, byte_at, sixteen_at, two_at, width_at};
use crate::opcode::plain_of;
use crate::read::read;
use crate::stop::Stop;
use bytecode_programs::SampleInstr;
use signals::all_ones;

/// The operands of `Push`.
#[tactic(auto, unfolding(crate::specs::Reading::push_at))]
fn push_at(bytes: &[u8]) -> Field<'_, SampleInstr>
    ensures { Gives (λ x. (x.0, x.1.now)) result (push_at bytes.now) }
{
    let (width, behind) = read!(width_at(bytes));
    let (value, rest) = read!(sixteen_at(behind));
    if value <= all_ones(width) {
        return Ok((SampleInstr::Push(width, value), rest));
    }
    Err(Stop::Field(behind.len()))
}

/// The operands of `Past`.
#[tactic(auto, unfolding(crate::specs::Reading::past_at))]
fn past_at(bytes: &[u8]) -> Field<'_, SampleInstr>
    ensures { Gives (λ x. (x.0, x.1.now)) result (past_at bytes.now) }
{
    let (slot, behind) = read!(two_at(bytes));
    let (ticks, rest) = read!(two_at(behind));
    if ticks == 0 {
        return Err(Stop::Field(behind.len()));
    }
    Ok((SampleInstr::Past(slot, ticks), rest))
}

/// The operands of `Slice`.
#[tactic(auto, unfolding(crate::specs::Reading::slice_at))]
fn slice_at(bytes: &[u8]) -> Field<'_, SampleInstr>
    ensures { Gives (λ x. (x.0, x.1.now)) result (slice_at bytes.now) }
{
    let (high, behind) = read!(byte_at(bytes));
    if 127 < high {
        return Err(Stop::Field(bytes.len()));
    }
    let (low, rest) = read!(byte_at(behind));
    if high < low {
        return Err(Stop::Field(behind.len()));
    }
    Ok((SampleInstr::Slice(high, low), rest))
}

/// What an instruction without operands is, after its first byte, where so many bytes were left.
fn plain_at(opcode: u8, left: usize, bytes: &[u8]) -> Field<'_, SampleInstr>
    ensures { Gives (λ x. (x.0, x.1.now)) result (plain_at left (plain_of opcode) bytes.now) }
{
    match plain_of(opcode) {
        Some(instr) => Ok((instr, bytes)),
        None => Err(Stop::Opcode(left)),
    }
}

/// The operands after an instruction's first byte, where so many bytes were left.
#[tactic(auto, unfolding(crate::specs::Reading::operands_at))]
fn operands_at(opcode: u8, left: usize, bytes: &[u8]) -> Field<'_, SampleInstr>
    ensures { Gives (λ x. (x.0, x.1.now)) result (operands_at opcode left bytes.now) }
{
    match opcode {
        0x01 => push_at(bytes),
        0x02 => {
            let (slot, rest) = read!(two_at(bytes));
            Ok((SampleInstr::Load(slot), rest))
        }
        0x03 => past_at(bytes),
        0x27 => {
            let (width, rest) = read!(width_at(bytes));
            Ok((SampleInstr::Zext(width), rest))
        }
        0x28 => slice_at(bytes),
        0x30 => {
            let (target, rest) = read!(two_at(bytes));
            Ok((SampleInstr::Jump(target), rest))
        }
        0x31 => {
            let (target, rest) = read!(two_at(bytes));
            Ok((SampleInstr::JumpIfZero(target), rest))
        }
        0x32 => {
            let (atom, rest) = read!(byte_at(bytes));
            Ok((SampleInstr::SetAtom(atom), rest))
        }
        0x33 => {
            let (counter, rest) = read!(byte_at(bytes));
            Ok((SampleInstr::Store(counter), rest))
        }
        _ => plain_at(opcode, left, bytes),
    }
}

/// An instruction of sample code.
#[tactic(auto, unfolding(crate::specs::Reading::sample_at))]
pub(crate) fn sample_at(bytes: &[u8]) -> Field<'_, SampleInstr>
    ensures { Gives (λ x. (x.0, x.1.now)) result (sample_at bytes.now) }
{
    let (opcode, rest) = read!(byte_at(bytes));
    operands_at(opcode, bytes.len(), rest)
}
