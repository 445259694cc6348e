//! What each instruction does to the memory.

ghost use Rattle.std.specs.Prelude.{◌≡◌, ◌+◌, ◌<◌, ◌≤◌, ◌==◌, not, length, slice_set};
ghost use Rattle.std.specs.Prelude.{slice_index};
ghost use Rattle.machine_checked.specs.Samples.{top};
ghost use Rattle.machine_checked.specs.Machine.{sample_of};
ghost use Rattle.machine_sample_code.specs.Operands.{operands, HasOne, HasTwo, HasThree};
ghost use Rattle.machine_sample_code.specs.Steps.{IsValue, IsSlotHeld, IsReady, Leaves, LeavesAny};
ghost use Rattle.machine_sample_code.specs.Steps.{next_after, atoms_after, counters_after};

use crate::operators::{compared_value, joined_value, reduced_value, shifted_value};
use crate::stack::Stack;
use bytecode_programs::{
    CompareOperator, JoinOperator, ReduceOperator, SampleInstr, ShiftOperator,
};
use history_ring::Ring;
use signals::Bits;

/// Puts a constant on top.
#[inline]
fn push(stack: &mut Stack, width: u8, value: u128)
    requires is_value { IsValue width value }
    requires room { length stack.old < 1024 }
    ensures { LeavesAny (SampleInstr.Push width value) stack.old stack.new }
{
    stack.push(Bits { width, value });
}

/// What a slot held so many ticks back.
#[inline]
fn sample(widths: &[u8], ring: &Ring, slot: usize, back: usize) -> Bits
    requires { IsSlotHeld widths.now ring.now slot back }
    ensures width { result.width ≡ slice_index widths.now slot }
    ensures value { result.value ≡ sample_of ring.now.rows back slot }
{
    Bits {
        width: widths[slot],
        value: ring.get(back, slot),
    }
}

/// Puts what a slot holds on top.
#[inline]
fn load(stack: &mut Stack, widths: &[u8], ring: &Ring, slot: u16)
    requires held { IsSlotHeld widths.now ring.now slot 0 }
    requires room { length stack.old < 1024 }
    ensures { Leaves widths.now (sample_of ring.now.rows) (SampleInstr.Load slot)
        stack.old stack.new }
{
    stack.push(sample(widths, ring, usize::from(slot), 0));
}

/// Puts what a slot held before on top.
#[inline]
fn past(stack: &mut Stack, widths: &[u8], ring: &Ring, slot: u16, back: u16)
    requires held { IsSlotHeld widths.now ring.now slot back }
    requires room { length stack.old < 1024 }
    ensures { Leaves widths.now (sample_of ring.now.rows) (SampleInstr.Past slot back)
        stack.old stack.new }
{
    stack.push(sample(widths, ring, usize::from(slot), usize::from(back)));
}

/// Takes two values of one width, and leaves one of it.
#[inline]
fn join(stack: &mut Stack, operator: JoinOperator)
    requires { HasTwo (λ v w. v ≡ w) stack.old }
    ensures { LeavesAny (SampleInstr.Join operator) stack.old stack.new }
{
    let (left, right) = stack.pop_two();
    let value = joined_value(operator, left, right);
    stack.push(Bits {
        width: left.width,
        value,
    });
}

/// Takes two values of one width, and leaves a bit.
#[inline]
fn compare(stack: &mut Stack, operator: CompareOperator)
    requires { HasTwo (λ v w. v ≡ w) stack.old }
    ensures { LeavesAny (SampleInstr.Compare operator) stack.old stack.new }
{
    let (left, right) = stack.pop_two();
    let value = compared_value(operator, left, right);
    stack.push(Bits { width: 1, value });
}

/// Takes a value and a count, and leaves a value of the first's width.
#[inline]
fn shift(stack: &mut Stack, operator: ShiftOperator)
    requires { 1 < length stack.old }
    ensures { LeavesAny (SampleInstr.Shift operator) stack.old stack.new }
{
    let (moved, count) = stack.pop_two();
    let value = shifted_value(operator, moved, count);
    stack.push(Bits {
        width: moved.width,
        value,
    });
}

/// Turns each bit of the top.
#[inline]
fn complement(stack: &mut Stack)
    requires { 0 < length stack.old }
    ensures { LeavesAny SampleInstr.Not stack.old stack.new }
{
    let operand = stack.pop();
    stack.push(operand.not());
}

/// Takes a value, and leaves a bit.
#[inline]
fn reduce(stack: &mut Stack, operator: ReduceOperator)
    requires { 0 < length stack.old }
    ensures { LeavesAny (SampleInstr.Reduce operator) stack.old stack.new }
{
    let operand = stack.pop();
    let value = reduced_value(operator, operand);
    stack.push(Bits { width: 1, value });
}

/// Puts the left value above the right one.
#[inline]
fn concat(stack: &mut Stack)
    requires { HasTwo (λ v w. v + w ≤ 128) stack.old }
    ensures { LeavesAny SampleInstr.Concat stack.old stack.new }
{
    let (left, right) = stack.pop_two();
    stack.push(left.concat(right));
}

/// Extends the top by zeros.
#[inline]
fn extend(stack: &mut Stack, width: u8)
    requires { HasOne (λ w. (w ≤ width) × (width ≤ 128)) stack.old }
    ensures { LeavesAny (SampleInstr.Zext width) stack.old stack.new }
{
    let operand = stack.pop();
    stack.push(operand.zext(width));
}

/// Cuts bits out of the top.
#[inline]
fn cut(stack: &mut Stack, high: u8, low: u8)
    requires { HasOne (λ w. (low ≤ high) × (high < w)) stack.old }
    ensures { LeavesAny (SampleInstr.Slice high low) stack.old stack.new }
{
    let operand = stack.pop();
    stack.push(operand.slice(high, low));
}

/// Takes a bit and two values of one width, and leaves the left one where the bit is 1.
#[inline]
fn choose(stack: &mut Stack)
    requires { HasThree (λ bit v w. v ≡ w) stack.old }
    ensures { LeavesAny SampleInstr.Mux stack.old stack.new }
{
    let (left, right) = stack.pop_two();
    let bit = stack.pop();
    let value = if bit.value == 1 {
        left.value
    } else {
        right.value
    };
    stack.push(Bits {
        width: left.width,
        value,
    });
}

/// Takes a bit, which becomes an atom.
#[inline]
fn set_atom(stack: &mut Stack, atoms: &mut [bool], atom: u8)
    requires some { 0 < length stack.old }
    requires there { atom < length atoms.old }
    ensures operands { LeavesAny (SampleInstr.SetAtom atom) stack.old stack.new }
    ensures atoms { atoms.new ≡ slice_set atoms.old atom (not (top (operands stack.old) == 0)) }
{
    let bit = stack.pop();
    atoms[usize::from(atom)] = bit.value != 0;
}

/// Takes a value, which becomes that of a counter.
#[inline]
fn store(stack: &mut Stack, counters: &mut [u128], counter: u8)
    requires some { 0 < length stack.old }
    requires there { counter < length counters.old }
    ensures operands { LeavesAny (SampleInstr.Store counter) stack.old stack.new }
    ensures counters { counters.new ≡ slice_set counters.old counter (top (operands stack.old)) }
{
    let operand = stack.pop();
    counters[usize::from(counter)] = operand.value;
}

/// Takes a bit, and goes to the target where it is 0.
#[inline]
fn jump_if_zero(stack: &mut Stack, next: &mut Option<usize>, target: u16)
    requires { 0 < length stack.old }
    ensures operands { LeavesAny (SampleInstr.JumpIfZero target) stack.old stack.new }
    ensures next { next.new ≡ next_after (SampleInstr.JumpIfZero target) stack.old next.old }
{
    let bit = stack.pop();
    if bit.value == 0 {
        *next = Some(usize::from(target));
    }
}

/// Obeys an instruction. `next` is the number of the one after it, and becomes that of the one to
/// which it leads, or none where the code ends.
#[inline]
pub(crate) fn obey(
    instr: &SampleInstr,
    next: &mut Option<usize>,
    widths: &[u8],
    ring: &Ring,
    stack: &mut Stack,
    atoms: &mut [bool],
    counters: &mut [u128],
)
    requires { IsReady instr.now widths.now ring.now stack.old
        (length atoms.old) (length counters.old) }
    ensures next { next.new ≡ next_after instr.now stack.old next.old }
    ensures operands { Leaves widths.now (sample_of ring.now.rows) instr.now stack.old stack.new }
    ensures atoms { atoms.new ≡ atoms_after instr.now stack.old atoms.old }
    ensures counters { counters.new ≡ counters_after instr.now stack.old counters.old }
{
    match instr {
        SampleInstr::Push(width, value) => push(stack, *width, *value),
        SampleInstr::Load(slot) => load(stack, widths, ring, *slot),
        SampleInstr::Past(slot, back) => past(stack, widths, ring, *slot, *back),
        SampleInstr::Join(operator) => join(stack, *operator),
        SampleInstr::Compare(operator) => compare(stack, *operator),
        SampleInstr::Shift(operator) => shift(stack, *operator),
        SampleInstr::Not => complement(stack),
        SampleInstr::Reduce(operator) => reduce(stack, *operator),
        SampleInstr::Concat => concat(stack),
        SampleInstr::Zext(width) => extend(stack, *width),
        SampleInstr::Slice(high, low) => cut(stack, *high, *low),
        SampleInstr::Mux => choose(stack),
        SampleInstr::Jump(target) => *next = Some(usize::from(*target)),
        SampleInstr::JumpIfZero(target) => jump_if_zero(stack, next, *target),
        SampleInstr::SetAtom(atom) => set_atom(stack, atoms, *atom),
        SampleInstr::Store(counter) => store(stack, counters, *counter),
        SampleInstr::Halt => *next = None,
    }
}
