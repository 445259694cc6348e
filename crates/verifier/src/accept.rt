//! Which programs are accepted.

ghost use Rattle.std.specs.Prelude.{◌≡◌, ◌⊎◌, ◌++◌, List, [], IfOk, OnOk, IfErr};
ghost use Rattle.verifier.specs.declared.refusal.Refusal.{Refusal};
ghost use Rattle.verifier.specs.Order.{first_refusal, IsFirstRefusal};
ghost use Rattle.bytecode_programs.specs.Programs.{data_of};
ghost use Rattle.verifier.specs.Programs.{sample_faults, part_faults, all_faults, least_stack};
ghost use Rattle.verifier.specs.Programs.{least_limits};
ghost use Rattle.verifier.specs.Programs.{below, limit_refusals, HasRoom, IsAccepted};

use crate::frame::Frame;
use crate::header::header_fault;
use crate::least::LeastLimits;
use crate::limits::limits_of;
use crate::pool::Pool;
use crate::refusal::Refusal;
use crate::sample_scan::infer;
use crate::section_scan::section_fault;
use crate::side::Side;
use crate::verified::Verified;
use bytecode_programs::{Limits, Program};
use std::alloc::Global;

/// The longest list of the sample code, or its first fault.
fn sample_stack(alloc: Global, program: &Program) -> Result<usize, Refusal>
    ensures ok { OnOk result (sample_faults (data_of program.now) ≡ []) }
    ensures longest { IfOk result (λ longest. longest ≡ least_stack (data_of program.now)) }
    ensures refused { IfErr result (λ r.
        (r ≡ Refusal.Memory) ⊎ IsFirstRefusal r (sample_faults (data_of program.now))) }
{
    let frame = Frame::of(alloc, program)?;
    infer(alloc, &frame, &program.sample)
}

/// The longest list of the sample code, or the first fault but those of the limits.
fn longest_list(alloc: Global, program: &Program) -> Result<usize, Refusal>
    ensures ok { OnOk result (part_faults (data_of program.now) ≡ []) }
    ensures longest { IfOk result (λ longest. longest ≡ least_stack (data_of program.now)) }
    ensures room { OnOk result (HasRoom (data_of program.now)) }
    ensures refused { IfErr result (λ r.
        (r ≡ Refusal.Memory) ⊎ IsFirstRefusal r (part_faults (data_of program.now))) }
{
    match header_fault(program) {
        Some(refusal) => return Err(refusal),
        None => {}
    }
    let longest = sample_stack(alloc, program)?;
    match section_fault(alloc, Side::Antecedent, program.atoms, &program.antecedent)? {
        Some(fault) => return Err(fault.refusal),
        None => {}
    }
    match section_fault(alloc, Side::Consequent, program.atoms, &program.consequent)? {
        Some(fault) => Err(fault.refusal),
        None => Ok(longest),
    }
}

/// The least limits that serve a program, whatever it declares; or its first fault but those of the
/// declared limits.
pub fn least_limits(alloc: Global, program: &Program) -> Result<LeastLimits, Refusal>
    ensures least { IfOk result (λ least. least ≡ least_limits (data_of program.now)) }
    ensures faultless { OnOk result (part_faults (data_of program.now) ≡ []) }
    ensures first { IfErr result (λ r.
        (r ≡ Refusal.Memory) ⊎ IsFirstRefusal r (part_faults (data_of program.now))) }
{
    let longest = longest_list(alloc, program)?;
    Ok(limits_of(alloc, program, longest)?)
}

/// The fault that was found, or else that of a limit that is declared below the least.
fn or_below(
    first: Option<Refusal>,
    declared: usize,
    least: usize,
    refusal: Refusal,
) -> Option<Refusal>
    ensures { (rs : List Refusal) → first ≡ first_refusal rs →
        result ≡ first_refusal (rs ++ below declared least refusal) }
{
    match first {
        Some(found) => Some(found),
        None => {
            if declared < least {
                Some(refusal)
            } else {
                None
            }
        }
    }
}

/// The first limit that is declared below the least.
fn limit_fault(declared: Limits, least: LeastLimits) -> Option<Refusal>
    ensures { result ≡ first_refusal (limit_refusals declared least) }
{
    let (history, stack) = (least.history, least.stack);
    let first = or_below(
        None,
        declared.history as usize,
        history,
        Refusal::HistoryTooShort(history),
    );
    let first = or_below(
        first,
        declared.stack as usize,
        stack,
        Refusal::StackTooShort(stack),
    );
    let first = or_below(
        first,
        declared.attempts as usize,
        least.attempts,
        Refusal::PoolTooSmall(Pool::Attempts, least.attempts),
    );
    let first = or_below(
        first,
        declared.obligations as usize,
        least.obligations,
        Refusal::PoolTooSmall(Pool::Obligations, least.obligations),
    );
    or_below(
        first,
        declared.budget as usize,
        least.budget,
        Refusal::BudgetTooSmall(least.budget as u64),
    )
}

/// The first fault of a program with these least limits, or none.
fn check(alloc: Global, program: &Program) -> Result<LeastLimits, Refusal>
    ensures accepted { OnOk result (IsAccepted (data_of program.now)) }
    ensures least { IfOk result (λ least. least ≡ least_limits (data_of program.now)) }
    ensures refused { IfErr result (λ r.
        (r ≡ Refusal.Memory) ⊎ (IsAccepted (data_of program.now) → ⊥)) }
    ensures first { IfErr result (λ r.
        (r ≡ Refusal.Memory) ⊎ IsFirstRefusal r (all_faults (data_of program.now))) }
{
    let least = least_limits(alloc, program)?;
    match limit_fault(program.limits, least) {
        Some(refusal) => Err(refusal),
        None => Ok(least),
    }
}

/// Accepts a program that is well formed and within the most that there may be, and whose declared
/// limits are at least the least. Any other one is refused with its first fault.
pub fn verify(alloc: Global, program: Program) -> Result<Verified, Refusal>
    ensures same { IfOk result (λ verified. verified ≡ data_of program) }
    ensures accepted { OnOk result (IsAccepted (data_of program)) }
    ensures refused { IfErr result (λ r.
        (r ≡ Refusal.Memory) ⊎ (IsAccepted (data_of program) → ⊥)) }
    ensures first { IfErr result (λ r.
        (r ≡ Refusal.Memory) ⊎ IsFirstRefusal r (all_faults (data_of program))) }
{
    let least = check(alloc, &program)?;
    Ok(Verified { program, least })
}
