//! Instructions by the byte with which they begin.

ghost use Rattle.std.specs.Prelude.{◌≡◌};
ghost use Rattle.bytecode.specs.Reading.{join_of, reduce_of, lone_of, plain_of};

use bytecode_programs::{
    CompareOperator, JoinOperator, ReduceOperator, SampleInstr, ShiftOperator,
};

#[tactic(auto, unfolding(crate::specs::Reading::join_of))]
fn join_of(opcode: u8) -> Option<JoinOperator>
    ensures { result ≡ join_of opcode }
{
    match opcode {
        0x10 => Some(JoinOperator::And),
        0x11 => Some(JoinOperator::Or),
        0x12 => Some(JoinOperator::Xor),
        0x13 => Some(JoinOperator::Add),
        0x14 => Some(JoinOperator::Sub),
        0x15 => Some(JoinOperator::AddSat),
        0x16 => Some(JoinOperator::SubSat),
        _ => None,
    }
}

#[tactic(auto, unfolding(crate::specs::Reading::reduce_of))]
fn reduce_of(opcode: u8) -> Option<ReduceOperator>
    ensures { result ≡ reduce_of opcode }
{
    match opcode {
        0x21 => Some(ReduceOperator::RedAnd),
        0x22 => Some(ReduceOperator::RedOr),
        0x23 => Some(ReduceOperator::RedXor),
        0x24 => Some(ReduceOperator::Onehot),
        0x25 => Some(ReduceOperator::Onehot0),
        _ => None,
    }
}

#[tactic(auto, unfolding(crate::specs::Reading::lone_of))]
fn lone_of(opcode: u8) -> Option<SampleInstr>
    ensures { result ≡ lone_of opcode }
{
    match opcode {
        0x17 => Some(SampleInstr::Compare(CompareOperator::Eq)),
        0x18 => Some(SampleInstr::Compare(CompareOperator::Lt)),
        0x19 => Some(SampleInstr::Shift(ShiftOperator::Shl)),
        0x1a => Some(SampleInstr::Shift(ShiftOperator::Shr)),
        0x20 => Some(SampleInstr::Not),
        0x26 => Some(SampleInstr::Concat),
        0x29 => Some(SampleInstr::Mux),
        0x34 => Some(SampleInstr::Halt),
        _ => None,
    }
}

/// The instruction without operands that begins with this byte.
pub(crate) fn plain_of(opcode: u8) -> Option<SampleInstr>
    ensures { result ≡ plain_of opcode }
{
    match join_of(opcode) {
        Some(operator) => return Some(SampleInstr::Join(operator)),
        None => {}
    }
    match reduce_of(opcode) {
        Some(operator) => Some(SampleInstr::Reduce(operator)),
        None => lone_of(opcode),
    }
}
