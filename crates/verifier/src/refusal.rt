//! Why a program is refused.

use crate::field::Field;
use crate::pool::Pool;
use std::alloc::AllocError;
use thiserror::Error;

/// The first fault of a program. A number of an instruction counts from the beginning of the sample
/// code or of its section.
#[derive(Clone, Copy, PartialEq, Eq, Debug, Error)]
pub enum Refusal {
    /// There are enough operands, but their widths don't meet the rule.
    #[error("F1 Operand {0}")]
    Operand(usize),
    #[error("F2 Underflow {0}")]
    Underflow(usize),
    /// The list of operands would pass 1,024.
    #[error("F3 Overflow {0}")]
    Overflow(usize),
    /// The target is at or past the end.
    #[error("F4 JumpRange {0}")]
    JumpRange(usize),
    /// The target isn't above the jump.
    #[error("F5 BackwardJump {0}")]
    BackwardJump(usize),
    /// Two paths arrive with different lists.
    #[error("F6 JoinMismatch {0}")]
    JoinMismatch(usize),
    /// No path arrives.
    #[error("F7 Unreached {0}")]
    Unreached(usize),
    /// The code doesn't end in what ends it.
    #[error("F8 NoHalt")]
    NoHalt,
    /// A slot, a counter, an atom or a position isn't there.
    #[error("F9 SlotRange {0}")]
    SlotRange(usize),
    /// With the least that serves, as the next.
    #[error("F10 HistoryTooShort {0}")]
    HistoryTooShort(usize),
    #[error("F11 StackTooShort {0}")]
    StackTooShort(usize),
    /// The block of this position enters one that isn't larger.
    #[error("F12 Cycle {0}")]
    Cycle(usize),
    /// With the least that serves, as the next.
    #[error("F13 PoolTooSmall {0} {1}")]
    PoolTooSmall(Pool, usize),
    #[error("F14 BudgetTooSmall {0}")]
    BudgetTooSmall(u64),
    /// Over the most that there may be.
    #[error("F15 LimitTooLarge {0}")]
    LimitTooLarge(Field),
    /// It isn't for this section: `AcceptFirst` outside the antecedent.
    #[error("F16 AcceptKind {0}")]
    AcceptKind(usize),
    #[error("OutOfMemory")]
    Memory,
}

impl From<AllocError> for Refusal {
    ghost use Rattle.std.specs.Prelude.{◌≡◌};
    ghost use Rattle.verifier.specs.declared.refusal.Refusal.TheVariants.{Memory};

    ghost from_gives = { λ _ r. r ≡ Memory };

    fn from(_error: AllocError) -> Refusal {
        Refusal::Memory
    }
}
