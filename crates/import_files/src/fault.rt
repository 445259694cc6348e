//! Why files have no assertions at all.

ghost use Rattle.std.specs.Prelude.{◌≡◌};
ghost use Rattle.import_files.specs.declared.fault.ImportFault.TheVariants.{Memory};

use import_tokens::TokenFault;
use std::alloc::{AllocError, AllocFailed};

/// Why files have no assertions at all.
#[derive(Clone, Copy, Debug, PartialEq, Eq)]
pub enum ImportFault {
    /// The comment that begins with this byte of the text, counted from 0, has no end.
    UnclosedComment(usize),
    /// The directive that begins with this byte (`elsif`, `else` or `endif`) stands in no
    /// conditional, or after its `else`.
    StrayConditional(usize),
    /// The conditional that begins with this byte has no `endif`.
    UnclosedConditional(usize),
    /// Memory ran out.
    Memory,
}

impl From<TokenFault> for ImportFault {
    fn from(fault: TokenFault) -> ImportFault {
        match fault {
            TokenFault::UnclosedComment(at) => ImportFault::UnclosedComment(at),
            TokenFault::StrayConditional(at) => ImportFault::StrayConditional(at),
            TokenFault::UnclosedConditional(at) => ImportFault::UnclosedConditional(at),
            TokenFault::Memory => ImportFault::Memory,
        }
    }
}

impl From<AllocError> for ImportFault {
    ghost from_gives = { λ _ e. e ≡ Memory };

    fn from(_error: AllocError) -> ImportFault {
        ImportFault::Memory
    }
}

impl<T: Drop> From<AllocFailed<T>> for ImportFault {
    ghost from_gives = { λ _ e. e ≡ Memory };

    fn from(_error: AllocFailed<T>) -> ImportFault {
        ImportFault::Memory
    }
}
