//! One forward pass over sample code.

ghost use Rattle.std.specs.Prelude.{◌≡◌, ◌⊎◌, ◌<◌, ◌≤◌, ◌+◌, ◌++◌, ℕ, List, [], length};
ghost use Rattle.std.specs.Prelude.{reverse, OnOk, IfOk, IfErr};
ghost use Rattle.verifier.specs.declared.refusal.Refusal.{Refusal};
ghost use Rattle.bytecode_programs.specs.Instructions.{sample_flow};
ghost use Rattle.verifier.specs.Inference.{Message, ArrivalData, sends, operand_faults};
ghost use Rattle.verifier.specs.Inference.{jump_faults, arrival_faults, end_faults};
ghost use Rattle.verifier.specs.Inference.{faults_at};
ghost use Rattle.verifier.specs.Inference.{left_by, code_faults, entry};
ghost use Rattle.verifier.specs.Arrivals.{arrived, HoldsFrom};
ghost use Rattle.verifier.specs.Scans.{list_at, IsHeadOr, longest_agreed, entry_longest};
ghost use Rattle.verifier.specs.Order.{IsFirstRefusal, first_refusal};
ghost use Rattle.verifier.specs.Views.{rules_of};

use crate::arrival::{Arrival, first_arrivals, send, take_arrival};
use crate::frame::Frame;
use crate::refusal::Refusal;
use crate::stack::{RuleOutcome, apply, is_there};
use bytecode_programs::{Flow, SampleInstr};
use std::alloc::{AllocError, Global};

/// The fault of a target.
pub(crate) fn jump_fault(end: usize, pc: usize, flow: Flow) -> Option<Refusal>
    ensures { result ≡ first_refusal (jump_faults end pc flow) }
{
    let target = match flow {
        Flow::Jumps(target) => target as usize,
        Flow::Branches(target) => target as usize,
        Flow::GoesOn => return None,
        Flow::Stops => return None,
    };
    if target >= end {
        return Some(Refusal::JumpRange(pc));
    }
    if target <= pc {
        return Some(Refusal::BackwardJump(pc));
    }
    None
}

/// The fault of a last instruction that doesn't end the code.
pub(crate) fn end_fault(end: usize, pc: usize, flow: Flow) -> Option<Refusal>
    requires { pc < end }
    ensures { result ≡ first_refusal (end_faults end pc flow) }
{
    match flow {
        Flow::Stops => None,
        _ => {
            if pc + 1 == end {
                Some(Refusal::NoHalt)
            } else {
                None
            }
        }
    }
}

/// The fault of what arrives.
fn arrival_fault(pc: usize, arrival: &Arrival) -> Option<Refusal>
    ensures { result ≡ first_refusal (arrival_faults pc (arrived arrival.now)) }
{
    match arrival {
        Arrival::Nothing => Some(Refusal::Unreached(pc)),
        Arrival::Agreed(_) => None,
        Arrival::Mismatch => Some(Refusal::JoinMismatch(pc)),
    }
}

/// The first fault at an instruction but those of its operands, where `reached` is that of what
/// arrives.
fn other_fault(
    frame: &Frame,
    end: usize,
    pc: usize,
    instr: SampleInstr,
    reached: Option<Refusal>,
) -> Option<Refusal>
    requires { pc < end }
    ensures { (a : ArrivalData) → reached ≡ first_refusal (arrival_faults pc a) →
        result ≡ first_refusal (jump_faults end pc (sample_flow instr) ++ (arrival_faults pc a
        ++ (end_faults end pc (sample_flow instr) ++ (rules_of frame.now).names pc instr))) }
{
    if let Some(refusal) = jump_fault(end, pc, instr.flow()) {
        return Some(refusal);
    }
    if let Some(refusal) = reached {
        return Some(refusal);
    }
    if let Some(refusal) = end_fault(end, pc, instr.flow()) {
        return Some(refusal);
    }
    if is_there(frame, instr) {
        None
    } else {
        Some(Refusal::SlotRange(pc))
    }
}

/// The list that the operands leave, or their fault. Where no list is agreed on, the empty list.
fn leave(
    alloc: Global,
    frame: &Frame,
    pc: usize,
    instr: SampleInstr,
    arrival: Arrival,
) -> Result<Vec<u8>, Refusal>
    ensures ok { IfOk result (λ list.
        operand_faults (rules_of frame.now) pc instr (arrived arrival) ≡ []) }
    ensures left { IfOk result (λ list.
        left_by (rules_of frame.now) instr (arrived arrival) ≡ reverse list.items) }
    ensures refused { IfErr result (λ r.
        IsHeadOr r (operand_faults (rules_of frame.now) pc instr (arrived arrival))) }
{
    let Arrival::Agreed(mut stack) = arrival else {
        return Ok(Vec::new(alloc));
    };
    match apply(frame, instr, &mut stack)? {
        RuleOutcome::TooFew => Err(Refusal::Underflow(pc)),
        RuleOutcome::Misfit => Err(Refusal::Operand(pc)),
        RuleOutcome::Leaves => {
            if stack.len() > 1024 {
                return Err(Refusal::Overflow(pc));
            }
            Ok(stack)
        }
    }
}

/// The first fault at an instruction, or the list that it leaves.
fn check(
    alloc: Global,
    frame: &Frame,
    end: usize,
    pc: usize,
    instr: SampleInstr,
    arrival: Arrival,
) -> Result<Vec<u8>, Refusal>
    requires { pc < end }
    ensures ok { IfOk result (λ list.
        faults_at (rules_of frame.now) end pc instr (arrived arrival) ≡ []) }
    ensures left { IfOk result (λ list.
        left_by (rules_of frame.now) instr (arrived arrival) ≡ reverse list.items) }
    ensures refused { IfErr result (λ r.
        IsHeadOr r (faults_at (rules_of frame.now) end pc instr (arrived arrival))) }
{
    let reached = arrival_fault(pc, &arrival);
    let list = leave(alloc, frame, pc, instr, arrival)?;
    match other_fault(frame, end, pc, instr, reached) {
        Some(refusal) => Err(refusal),
        None => Ok(list),
    }
}

/// Sends a list to all successors of an instruction.
fn send_on(
    alloc: Global,
    pending: &mut [Arrival],
    pc: usize,
    flow: Flow,
    list: Vec<u8>,
) -> Result<(), AllocError>
    requires inside { pc < length pending.old }
    requires forward { jump_faults (length pending.old) pc flow ≡ [] }
    requires ends { end_faults (length pending.old) pc flow ≡ [] }
    ensures { OnOk result ((ms : List Message) → HoldsFrom (pc + 1) pending.old ms →
        HoldsFrom (pc + 1) pending.new (sends pc flow (reverse list.items) ms)) }
{
    match flow {
        Flow::Stops => {}
        Flow::GoesOn => send(pending, pc + 1, list),
        Flow::Jumps(target) => send(pending, target as usize, list),
        Flow::Branches(target) => {
            let copied = Vec::from_slice(alloc, list.as_slice())?;
            send(pending, target as usize, copied);
            send(pending, pc + 1, list);
        }
    }
    Ok(())
}

/// How long the list is that is agreed on.
fn agreed_len(arrival: &Arrival) -> usize
    ensures { result ≡ length (list_at (arrived arrival.now)) }
{
    match arrival {
        Arrival::Agreed(list) => list.len(),
        _ => 0,
    }
}

/// The longest list of code at whose first instruction the empty list arrives, or its first fault.
fn scan(
    alloc: Global,
    frame: &Frame,
    code: &[SampleInstr],
    pending: &mut [Arrival],
) -> Result<usize, Refusal>
    requires some { 0 < length code.now }
    requires long { length pending.old ≡ length code.now }
    requires entry { HoldsFrom 0 pending.old (entry 0) }
    ensures ok { OnOk result (code_faults (rules_of frame.now) 0 code.now ≡ []) }
    ensures longest { IfOk result (λ longest.
        longest ≡ entry_longest (rules_of frame.now) code.now) }
    ensures refused { IfErr result (λ r. (r ≡ Refusal.Memory)
        ⊎ IsFirstRefusal r (code_faults (rules_of frame.now) 0 code.now)) }
{
    let mut longest = 0_usize;
    'code: for pc in 0..code.len() {
        let instr = code[pc];
        let arrival = take_arrival(pending, pc);
        longest = longest.max(agreed_len(&arrival));
        let list = check(alloc, frame, code.len(), pc, instr, arrival)?;
        send_on(alloc, pending, pc, instr.flow(), list)?;
    }
    Ok(longest)
}

/// The length of the longest list of sample code, or its first fault.
///
/// A list is handed on from instruction to instruction; only a branch copies it.
pub fn infer(alloc: Global, frame: &Frame, code: &[SampleInstr]) -> Result<usize, Refusal>
    ensures ok { OnOk result (code_faults (rules_of frame.now) 0 code.now ≡ []) }
    ensures longest { IfOk result (λ longest.
        longest ≡ entry_longest (rules_of frame.now) code.now) }
    ensures refused { IfErr result (λ r. (r ≡ Refusal.Memory)
        ⊎ IsFirstRefusal r (code_faults (rules_of frame.now) 0 code.now)) }
{
    if code.is_empty() {
        return Err(Refusal::NoHalt);
    }
    let mut pending = first_arrivals(alloc, code.len())?;
    scan(alloc, frame, code, &mut pending)
}
