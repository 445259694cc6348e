//! What stands after and between the operands of operators.

ghost use Rattle.std.specs.Prelude.{OnOk};
ghost use Rattle.compiler.specs.Codes.{extension, bit_test, slot_read, reduction_end};
ghost use Rattle.compiler.specs.Codes.{arithmetic_end, shift_end, comparison_middle};
ghost use Rattle.compiler.specs.Codes.{comparison_end, connective_end, change_middle};
ghost use Rattle.compiler.specs.Codes.{change_end};
ghost use Rattle.compiler.specs.Written.{Writes};

use crate::buffer::CodeBuffer;
use bytecode_programs::{
    CompareOperator, JoinOperator, ReduceOperator, SampleInstr, ShiftOperator,
};
use expressions::{Arithmetic, Change, Comparison, Connective, Reduction, Shift};
use std::alloc::AllocError;

/// From a width to one that is no smaller.
pub(crate) fn extend(code: &mut CodeBuffer, from: u8, to: u8) -> Result<(), AllocError>
    ensures { OnOk result (Writes code.old code.new (extension from to)) }
{
    if from == to {
        return Ok(());
    }
    code.put(SampleInstr::Zext(to))
}

/// From so many bits to one: whether the value is not 0.
pub(crate) fn test_bit(code: &mut CodeBuffer, width: u8) -> Result<(), AllocError>
    ensures { OnOk result (Writes code.old code.new (bit_test width)) }
{
    if width == 1 {
        return Ok(());
    }
    code.put(SampleInstr::Reduce(ReduceOperator::RedOr))
}

/// What a slot held so many ticks before.
pub(crate) fn read_slot(code: &mut CodeBuffer, slot: u16, back: u16) -> Result<(), AllocError>
    ensures { OnOk result (Writes code.old code.new (slot_read slot back)) }
{
    if back == 0 {
        return code.put(SampleInstr::Load(slot));
    }
    code.put(SampleInstr::Past(slot, back))
}

pub(crate) fn reduce(code: &mut CodeBuffer, op: Reduction) -> Result<(), AllocError>
    ensures { OnOk result (Writes code.old code.new (reduction_end op)) }
{
    match op {
        Reduction::Zero => {
            code.put(SampleInstr::Reduce(ReduceOperator::RedOr))?;
            code.put(SampleInstr::Not)
        }
        Reduction::NonZero => code.put(SampleInstr::Reduce(ReduceOperator::RedOr)),
        Reduction::AllOnes => code.put(SampleInstr::Reduce(ReduceOperator::RedAnd)),
        Reduction::NotAllOnes => {
            code.put(SampleInstr::Reduce(ReduceOperator::RedAnd))?;
            code.put(SampleInstr::Not)
        }
        Reduction::Odd => code.put(SampleInstr::Reduce(ReduceOperator::RedXor)),
        Reduction::Even => {
            code.put(SampleInstr::Reduce(ReduceOperator::RedXor))?;
            code.put(SampleInstr::Not)
        }
        Reduction::OneHot => code.put(SampleInstr::Reduce(ReduceOperator::Onehot)),
        Reduction::OneHotOrZero => code.put(SampleInstr::Reduce(ReduceOperator::Onehot0)),
    }
}

pub(crate) fn combine(code: &mut CodeBuffer, op: Arithmetic) -> Result<(), AllocError>
    ensures { OnOk result (Writes code.old code.new (arithmetic_end op)) }
{
    match op {
        Arithmetic::Add => code.put(SampleInstr::Join(JoinOperator::Add)),
        Arithmetic::Sub => code.put(SampleInstr::Join(JoinOperator::Sub)),
        Arithmetic::And => code.put(SampleInstr::Join(JoinOperator::And)),
        Arithmetic::Or => code.put(SampleInstr::Join(JoinOperator::Or)),
        Arithmetic::Xor => code.put(SampleInstr::Join(JoinOperator::Xor)),
        Arithmetic::Xnor => {
            code.put(SampleInstr::Join(JoinOperator::Xor))?;
            code.put(SampleInstr::Not)
        }
    }
}

pub(crate) fn shift(code: &mut CodeBuffer, op: Shift) -> Result<(), AllocError>
    ensures { OnOk result (Writes code.old code.new (shift_end op)) }
{
    match op {
        Shift::Left => code.put(SampleInstr::Shift(ShiftOperator::Shl)),
        Shift::Right => code.put(SampleInstr::Shift(ShiftOperator::Shr)),
    }
}

/// After the left operand.
pub(crate) fn turn(code: &mut CodeBuffer, op: Comparison) -> Result<(), AllocError>
    ensures { OnOk result (Writes code.old code.new (comparison_middle op)) }
{
    match op {
        Comparison::Greater | Comparison::AtMost => code.put(SampleInstr::Not),
        _ => Ok(()),
    }
}

pub(crate) fn compare(code: &mut CodeBuffer, op: Comparison) -> Result<(), AllocError>
    ensures { OnOk result (Writes code.old code.new (comparison_end op)) }
{
    match op {
        Comparison::Equal => code.put(SampleInstr::Compare(CompareOperator::Eq)),
        Comparison::Differs => {
            code.put(SampleInstr::Compare(CompareOperator::Eq))?;
            code.put(SampleInstr::Not)
        }
        Comparison::Less => code.put(SampleInstr::Compare(CompareOperator::Lt)),
        Comparison::AtLeast => {
            code.put(SampleInstr::Compare(CompareOperator::Lt))?;
            code.put(SampleInstr::Not)
        }
        Comparison::Greater => {
            code.put(SampleInstr::Not)?;
            code.put(SampleInstr::Compare(CompareOperator::Lt))
        }
        Comparison::AtMost => {
            code.put(SampleInstr::Not)?;
            code.put(SampleInstr::Compare(CompareOperator::Lt))?;
            code.put(SampleInstr::Not)
        }
    }
}

pub(crate) fn connect(code: &mut CodeBuffer, op: Connective) -> Result<(), AllocError>
    ensures { OnOk result (Writes code.old code.new (connective_end op)) }
{
    match op {
        Connective::Both => code.put(SampleInstr::Join(JoinOperator::And)),
        Connective::Either => code.put(SampleInstr::Join(JoinOperator::Or)),
    }
}

/// Between the value of this tick and that of the one before.
pub(crate) fn cut_now(code: &mut CodeBuffer, op: Change) -> Result<(), AllocError>
    ensures { OnOk result (Writes code.old code.new (change_middle op)) }
{
    match op {
        Change::Rose => code.put(SampleInstr::Slice(0, 0)),
        Change::Fell => {
            code.put(SampleInstr::Slice(0, 0))?;
            code.put(SampleInstr::Not)
        }
        Change::Stable | Change::Changed => Ok(()),
    }
}

/// After both.
pub(crate) fn compare_ticks(code: &mut CodeBuffer, op: Change) -> Result<(), AllocError>
    ensures { OnOk result (Writes code.old code.new (change_end op)) }
{
    match op {
        Change::Rose => {
            code.put(SampleInstr::Slice(0, 0))?;
            code.put(SampleInstr::Not)?;
            code.put(SampleInstr::Join(JoinOperator::And))
        }
        Change::Fell => {
            code.put(SampleInstr::Slice(0, 0))?;
            code.put(SampleInstr::Join(JoinOperator::And))
        }
        Change::Stable => code.put(SampleInstr::Compare(CompareOperator::Eq)),
        Change::Changed => {
            code.put(SampleInstr::Compare(CompareOperator::Eq))?;
            code.put(SampleInstr::Not)
        }
    }
}
