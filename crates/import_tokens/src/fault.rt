//! Why a text, or a macro's use, is not read.

ghost use Rattle.import_tokens.specs.declared.fault.TokenFault.TheVariants.{Memory};
ghost use Rattle.std.specs.Prelude.{◌≡◌};

use std::alloc::{AllocError, AllocFailed};
use thiserror::Error;

/// Why a text has no tokens. What is wrong within an item is a token of its own.
#[derive(Clone, Copy, Debug, PartialEq, Eq, Error)]
pub enum TokenFault {
    /// The comment that begins with this byte, counted from 0, has no end.
    #[error("UnclosedComment")]
    UnclosedComment(usize),
    /// The directive that begins with this byte (`elsif`, `else` or `endif`) has no conditional to
    /// stand in, or stands after its `else`.
    #[error("StrayConditional")]
    StrayConditional(usize),
    /// The conditional that begins with this byte has no `endif`.
    #[error("UnclosedConditional")]
    UnclosedConditional(usize),
    /// Memory ran out.
    #[error("OutOfMemory")]
    Memory,
}

impl From<AllocError> for TokenFault {
    ghost from_gives = { λ _ e. e ≡ Memory };

    fn from(_error: AllocError) -> TokenFault {
        TokenFault::Memory
    }
}

impl<T: Drop> From<AllocFailed<T>> for TokenFault {
    ghost from_gives = { λ _ e. e ≡ Memory };

    fn from(_error: AllocFailed<T>) -> TokenFault {
        TokenFault::Memory
    }
}
