//! Instructions of sample code, written.

ghost use Rattle.std.specs.Prelude.{◌≡◌, ◌++◌, OnOk};
ghost use Rattle.bytecode.specs.Opcodes.{join_opcode, compare_opcode, shift_opcode};
ghost use Rattle.bytecode.specs.Opcodes.{reduce_opcode};
ghost use Rattle.bytecode.specs.Opcodes.{sample_opcode};
ghost use Rattle.bytecode.specs.Spelling.{sample_operands, sample_spelling};

use crate::field_writing::put_sixteen;
use bytecode_programs::{
    CompareOperator, JoinOperator, ReduceOperator, SampleInstr, ShiftOperator,
};
use std::alloc::AllocError;

fn join_opcode(operator: JoinOperator) -> u8
    ensures { result ≡ join_opcode operator }
{
    match operator {
        JoinOperator::And => 0x10,
        JoinOperator::Or => 0x11,
        JoinOperator::Xor => 0x12,
        JoinOperator::Add => 0x13,
        JoinOperator::Sub => 0x14,
        JoinOperator::AddSat => 0x15,
        JoinOperator::SubSat => 0x16,
    }
}

fn compare_opcode(operator: CompareOperator) -> u8
    ensures { result ≡ compare_opcode operator }
{
    match operator {
        CompareOperator::Eq => 0x17,
        CompareOperator::Lt => 0x18,
    }
}

fn shift_opcode(operator: ShiftOperator) -> u8
    ensures { result ≡ shift_opcode operator }
{
    match operator {
        ShiftOperator::Shl => 0x19,
        ShiftOperator::Shr => 0x1a,
    }
}

fn reduce_opcode(operator: ReduceOperator) -> u8
    ensures { result ≡ reduce_opcode operator }
{
    match operator {
        ReduceOperator::RedAnd => 0x21,
        ReduceOperator::RedOr => 0x22,
        ReduceOperator::RedXor => 0x23,
        ReduceOperator::Onehot => 0x24,
        ReduceOperator::Onehot0 => 0x25,
    }
}

/// The byte with which an instruction begins.
fn sample_opcode(instr: SampleInstr) -> u8
    ensures { result ≡ sample_opcode instr }
{
    match instr {
        SampleInstr::Push(_, _) => 0x01,
        SampleInstr::Load(_) => 0x02,
        SampleInstr::Past(_, _) => 0x03,
        SampleInstr::Join(operator) => join_opcode(operator),
        SampleInstr::Compare(operator) => compare_opcode(operator),
        SampleInstr::Shift(operator) => shift_opcode(operator),
        SampleInstr::Not => 0x20,
        SampleInstr::Reduce(operator) => reduce_opcode(operator),
        SampleInstr::Concat => 0x26,
        SampleInstr::Zext(_) => 0x27,
        SampleInstr::Slice(_, _) => 0x28,
        SampleInstr::Mux => 0x29,
        SampleInstr::Jump(_) => 0x30,
        SampleInstr::JumpIfZero(_) => 0x31,
        SampleInstr::SetAtom(_) => 0x32,
        SampleInstr::Store(_) => 0x33,
        SampleInstr::Halt => 0x34,
    }
}

/// Puts the operands of an instruction after what was written.
fn put_operands(out: &mut Vec<u8>, instr: SampleInstr) -> Result<(), AllocError>
    ensures { OnOk result (out.new.items ≡ out.old.items ++ sample_operands instr) }
{
    match instr {
        SampleInstr::Push(width, value) => {
            out.push(width)?;
            put_sixteen(out, value)
        }
        SampleInstr::Load(slot) => out.extend_from_slice(&slot.to_be_bytes()),
        SampleInstr::Past(slot, ticks) => {
            out.extend_from_slice(&slot.to_be_bytes())?;
            out.extend_from_slice(&ticks.to_be_bytes())
        }
        SampleInstr::Zext(width) => Ok(out.push(width)?),
        SampleInstr::Slice(high, low) => {
            out.push(high)?;
            Ok(out.push(low)?)
        }
        SampleInstr::Jump(target) => out.extend_from_slice(&target.to_be_bytes()),
        SampleInstr::JumpIfZero(target) => out.extend_from_slice(&target.to_be_bytes()),
        SampleInstr::SetAtom(atom) => Ok(out.push(atom)?),
        SampleInstr::Store(counter) => Ok(out.push(counter)?),
        SampleInstr::Join(_)
        | SampleInstr::Compare(_)
        | SampleInstr::Shift(_)
        | SampleInstr::Not
        | SampleInstr::Reduce(_)
        | SampleInstr::Concat
        | SampleInstr::Mux
        | SampleInstr::Halt => Ok(()),
    }
}

/// Puts an instruction after what was written.
pub(crate) fn put_sample(out: &mut Vec<u8>, instr: SampleInstr) -> Result<(), AllocError>
    ensures { OnOk result (out.new.items ≡ out.old.items ++ sample_spelling instr) }
{
    out.push(sample_opcode(instr))?;
    put_operands(out, instr)
}
