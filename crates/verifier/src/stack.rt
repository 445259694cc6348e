//! What instructions do to lists of widths.

ghost use Rattle.std.specs.Prelude.{◌≡◌, ◌<◌, ◌+◌, ◌-◌, ◌==◌, ◌&&◌, nat_le, nat_lt, ℕ};
ghost use Rattle.std.specs.Prelude.{List, ◌∷◌, length, reverse, IfOk, slice_get, slice_index};
ghost use Rattle.bytecode_programs.specs.Instructions.{Effect, leaves, sample_effect, is_there};
ghost use Rattle.bytecode_programs.specs.Instructions.{if_fits};
ghost use Rattle.bytecode_programs.specs.Instructions.{is_counter_width, one, two, three};
ghost use Rattle.verifier.specs.Views.{frame_data, effect_when, on_one, on_two, on_three};

use crate::frame::Frame;
use bytecode_programs::SampleInstr;
use std::alloc::AllocError;

/// Whether what an instruction names is there.
pub(crate) fn is_there(frame: &Frame, instr: SampleInstr) -> bool
    ensures { result ≡ is_there (frame_data frame.now) instr }
{
    match instr {
        SampleInstr::Load(slot) => (slot as usize) < frame.slots.len(),
        SampleInstr::Past(slot, _) => (slot as usize) < frame.slots.len(),
        SampleInstr::SetAtom(atom) => atom < frame.atoms,
        SampleInstr::Store(counter) => (counter as usize) < frame.counters.len(),
        _ => true,
    }
}

/// What a stack rule makes of a list.
#[derive(Clone, Copy)]
pub enum RuleOutcome {
    Leaves,
    TooFew,
    Misfit,
}

/// The outcome of a test of widths.
fn if_fits(fits: bool) -> RuleOutcome
    ensures { (ws : List ℕ) → effect_when result ws ≡ if_fits fits ws }
{
    if fits {
        RuleOutcome::Leaves
    } else {
        RuleOutcome::Misfit
    }
}

/// The width of a slot, 0 where it isn't there.
fn slot_width(frame: &Frame, slot: u16) -> u8
    ensures { result ≡ slice_index frame.now.slots.items slot }
{
    frame.slots.get(slot as usize).copied().unwrap_or(0)
}

/// Whether a value of this width may be stored; a counter that isn't there asks for none.
fn is_counter_width(frame: &Frame, counter: u8, width: u8) -> bool
    ensures { result ≡ is_counter_width (slice_get frame.now.counters.items counter) width }
{
    match frame.counters.get(counter as usize) {
        None => true,
        Some(own) => *own == width,
    }
}

/// Takes the top.
fn take_one(stack: &mut Vec<u8>) -> Option<u8>
    ensures { (rule : ℕ → List ℕ → Effect) →
        one rule (reverse stack.old.items) ≡ on_one rule result (reverse stack.new.items) }
{
    stack.pop()
}

/// Takes two, of which the second is on top.
fn take_two(stack: &mut Vec<u8>) -> Option<(u8, u8)>
    ensures { (rule : ℕ → ℕ → List ℕ → Effect) →
        two rule (reverse stack.old.items) ≡ on_two rule result (reverse stack.new.items) }
{
    let Some(top) = stack.pop() else {
        return None;
    };
    let Some(below) = stack.pop() else {
        return None;
    };
    Some((below, top))
}

/// Takes three, of which the third is on top.
fn take_three(stack: &mut Vec<u8>) -> Option<(u8, u8, u8)>
    ensures { (rule : ℕ → ℕ → ℕ → List ℕ → Effect) →
        three rule (reverse stack.old.items) ≡ on_three rule result (reverse stack.new.items) }
{
    let Some(top) = stack.pop() else {
        return None;
    };
    let Some(below) = stack.pop() else {
        return None;
    };
    let Some(deepest) = stack.pop() else {
        return None;
    };
    Some((deepest, below, top))
}

/// One width more on the list.
fn leave(stack: &mut Vec<u8>, width: u8) -> Result<RuleOutcome, AllocError>
    ensures { IfOk result (λ o.
        effect_when o (reverse stack.new.items) ≡ leaves (width ∷ reverse stack.old.items)) }
{
    stack.push(width)?;
    Ok(RuleOutcome::Leaves)
}

/// One width more on the list, where the operands fit.
fn leave_if(fits: bool, stack: &mut Vec<u8>, width: u8) -> Result<RuleOutcome, AllocError>
    ensures { IfOk result (λ o.
        effect_when o (reverse stack.new.items) ≡ if_fits fits (width ∷ reverse stack.old.items)) }
{
    if !fits {
        return Ok(RuleOutcome::Misfit);
    }
    leave(stack, width)
}

/// Two of one width, and one of it.
fn join(stack: &mut Vec<u8>) -> Result<RuleOutcome, AllocError>
    ensures { IfOk result (λ o.
        two (λ v w rest. if_fits (v == w) (v ∷ rest)) (reverse stack.old.items)
        ≡ effect_when o (reverse stack.new.items)) }
{
    let Some((left, right)) = take_two(stack) else {
        return Ok(RuleOutcome::TooFew);
    };
    leave_if(left == right, stack, left)
}

/// Two of one width, and a bit.
fn compare(stack: &mut Vec<u8>) -> Result<RuleOutcome, AllocError>
    ensures { IfOk result (λ o.
        two (λ v w rest. if_fits (v == w) (1 ∷ rest)) (reverse stack.old.items)
        ≡ effect_when o (reverse stack.new.items)) }
{
    let Some((left, right)) = take_two(stack) else {
        return Ok(RuleOutcome::TooFew);
    };
    leave_if(left == right, stack, 1)
}

/// A value and a count, and one of the value's width.
fn shift(stack: &mut Vec<u8>) -> Result<RuleOutcome, AllocError>
    ensures { IfOk result (λ o.
        two (λ w count rest. leaves (w ∷ rest)) (reverse stack.old.items)
        ≡ effect_when o (reverse stack.new.items)) }
{
    let Some((value, _)) = take_two(stack) else {
        return Ok(RuleOutcome::TooFew);
    };
    leave(stack, value)
}

/// One, and one of its width.
fn same(stack: &mut Vec<u8>) -> Result<RuleOutcome, AllocError>
    ensures { IfOk result (λ o.
        one (λ w rest. leaves (w ∷ rest)) (reverse stack.old.items)
        ≡ effect_when o (reverse stack.new.items)) }
{
    let Some(width) = take_one(stack) else {
        return Ok(RuleOutcome::TooFew);
    };
    leave(stack, width)
}

/// One, and a bit.
fn reduce(stack: &mut Vec<u8>) -> Result<RuleOutcome, AllocError>
    ensures { IfOk result (λ o.
        one (λ w rest. leaves (1 ∷ rest)) (reverse stack.old.items)
        ≡ effect_when o (reverse stack.new.items)) }
{
    if take_one(stack).is_none() {
        return Ok(RuleOutcome::TooFew);
    }
    leave(stack, 1)
}

/// Two, and one of both widths.
fn concat(stack: &mut Vec<u8>) -> Result<RuleOutcome, AllocError>
    ensures { IfOk result (λ o.
        two (λ v w rest. if_fits (nat_le (v + w) 128) ((v + w) ∷ rest)) (reverse stack.old.items)
        ≡ effect_when o (reverse stack.new.items)) }
{
    let Some((left, right)) = take_two(stack) else {
        return Ok(RuleOutcome::TooFew);
    };
    if usize::from(left) + usize::from(right) > 128 {
        return Ok(RuleOutcome::Misfit);
    }
    leave(stack, left + right)
}

/// One, and one that is at least as wide.
fn extend(stack: &mut Vec<u8>, wider: u8) -> Result<RuleOutcome, AllocError>
    ensures { IfOk result (λ o.
        one (λ w rest. if_fits (nat_le w wider) (wider ∷ rest)) (reverse stack.old.items)
        ≡ effect_when o (reverse stack.new.items)) }
{
    let Some(width) = take_one(stack) else {
        return Ok(RuleOutcome::TooFew);
    };
    leave_if(width <= wider, stack, wider)
}

/// One, and its bits from `low` to `high`.
fn slice(stack: &mut Vec<u8>, high: u8, low: u8) -> Result<RuleOutcome, AllocError>
    ensures { IfOk result (λ o.
        one (λ w rest. if_fits (nat_lt high w) ((high - low + 1) ∷ rest)) (reverse stack.old.items)
        ≡ effect_when o (reverse stack.new.items)) }
{
    let Some(width) = take_one(stack) else {
        return Ok(RuleOutcome::TooFew);
    };
    if high >= width {
        return Ok(RuleOutcome::Misfit);
    }
    leave(stack, high.saturating_sub(low) + 1)
}

/// A bit and two of one width, and one of it.
fn choose(stack: &mut Vec<u8>) -> Result<RuleOutcome, AllocError>
    ensures { IfOk result (λ o.
        three (λ bit v w rest. if_fits (bit == 1 && v == w) (v ∷ rest)) (reverse stack.old.items)
        ≡ effect_when o (reverse stack.new.items)) }
{
    let Some((bit, left, right)) = take_three(stack) else {
        return Ok(RuleOutcome::TooFew);
    };
    leave_if(bit == 1 && left == right, stack, left)
}

/// A bit, and nothing.
fn take_bit(stack: &mut Vec<u8>) -> RuleOutcome
    ensures { one (λ bit rest. if_fits (bit == 1) rest) (reverse stack.old.items)
        ≡ effect_when result (reverse stack.new.items) }
{
    let Some(bit) = take_one(stack) else {
        return RuleOutcome::TooFew;
    };
    if_fits(bit == 1)
}

/// One of a counter's width, and nothing.
fn store(frame: &Frame, stack: &mut Vec<u8>, counter: u8) -> RuleOutcome
    ensures { one
        (λ w rest.
        if_fits (is_counter_width (slice_get frame.now.counters.items counter) w) rest)
        (reverse stack.old.items)
        ≡ effect_when result (reverse stack.new.items) }
{
    let Some(width) = take_one(stack) else {
        return RuleOutcome::TooFew;
    };
    if_fits(is_counter_width(frame, counter, width))
}

/// Does what the stack rule of an instruction says. Where it isn't met, what is left of the list
/// means nothing.
pub(crate) fn apply(
    frame: &Frame,
    instr: SampleInstr,
    stack: &mut Vec<u8>,
) -> Result<RuleOutcome, AllocError>
    ensures { IfOk result (λ o.
        sample_effect (frame_data frame.now) instr (reverse stack.old.items)
        ≡ effect_when o (reverse stack.new.items)) }
{
    match instr {
        SampleInstr::Push(width, _) => leave(stack, width),
        SampleInstr::Load(slot) => leave(stack, slot_width(frame, slot)),
        SampleInstr::Past(slot, _) => leave(stack, slot_width(frame, slot)),
        SampleInstr::Join(_) => join(stack),
        SampleInstr::Compare(_) => compare(stack),
        SampleInstr::Shift(_) => shift(stack),
        SampleInstr::Not => same(stack),
        SampleInstr::Reduce(_) => reduce(stack),
        SampleInstr::Concat => concat(stack),
        SampleInstr::Zext(wider) => extend(stack, wider),
        SampleInstr::Slice(high, low) => slice(stack, high, low),
        SampleInstr::Mux => choose(stack),
        SampleInstr::Jump(_) => Ok(RuleOutcome::Leaves),
        SampleInstr::JumpIfZero(_) => Ok(take_bit(stack)),
        SampleInstr::SetAtom(_) => Ok(take_bit(stack)),
        SampleInstr::Store(counter) => Ok(store(frame, stack, counter)),
        SampleInstr::Halt => Ok(RuleOutcome::Leaves),
    }
}
