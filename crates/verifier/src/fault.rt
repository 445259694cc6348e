//! Faults of a section in their order.

ghost use Rattle.std.specs.Prelude.{◌≡◌, ℕ, List, ◌++◌};
ghost use Rattle.verifier.specs.Order.{number_of};
ghost use Rattle.verifier.specs.Inference.{Found};
ghost use Rattle.verifier.specs.Scans.{IsFirstOf};
ghost use Rattle.verifier.specs.Marks.{found_in, is_up_to};

use crate::refusal::Refusal;

/// A fault, and the number of the instruction where it stands.
#[derive(Clone, Copy, Debug)]
pub struct Fault {
    pub pc: usize,
    pub refusal: Refusal,
}

/// The number of a refusal.
fn number_of(refusal: Refusal) -> u8
    ensures { result ≡ number_of refusal }
{
    match refusal {
        Refusal::Operand(_) => 1,
        Refusal::Underflow(_) => 2,
        Refusal::Overflow(_) => 3,
        Refusal::JumpRange(_) => 4,
        Refusal::BackwardJump(_) => 5,
        Refusal::JoinMismatch(_) => 6,
        Refusal::Unreached(_) => 7,
        Refusal::NoHalt => 8,
        Refusal::SlotRange(_) => 9,
        Refusal::HistoryTooShort(_) => 10,
        Refusal::StackTooShort(_) => 11,
        Refusal::Cycle(_) => 12,
        Refusal::PoolTooSmall(_, _) => 13,
        Refusal::BudgetTooSmall(_) => 14,
        Refusal::LimitTooLarge(_) => 15,
        Refusal::AcceptKind(_) => 16,
        Refusal::Memory => 0,
    }
}

/// Whether the first fault stands no later than the second.
fn is_up_to(first: Fault, second: Fault) -> bool
    ensures { result ≡ is_up_to first second }
{
    first.pc < second.pc
        || (first.pc == second.pc && number_of(first.refusal) <= number_of(second.refusal))
}

/// The earlier of the first faults of two lists.
pub(crate) fn earlier(first: Option<Fault>, second: Option<Fault>) -> Option<Fault>
    ensures { (section : ℕ) (xs ys : List Found) →
        IsFirstOf xs (found_in section first) → IsFirstOf ys (found_in section second) →
        IsFirstOf (xs ++ ys) (found_in section result) }
{
    let Some(one) = first else {
        return second;
    };
    let Some(other) = second else {
        return first;
    };
    if is_up_to(one, other) { first } else { second }
}
