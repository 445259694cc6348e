//! Refusals.

use std::alloc::{AllocError, AllocFailed};

/// Why a property isn't rewritten.
#[derive(Clone, Copy, PartialEq, Eq)]
pub enum Refusal {
    /// A part of what it would be rewritten to weighs over 127.
    TooHeavy,
    /// A sequence may match no tick, where one must be matched.
    AdmitsEmpty,
    /// The first of a range is over the second.
    Unordered,
    /// The ends of a sequence of this form are not told one by one.
    Negation,
    /// A form that isn't rewritten.
    Outside,
    /// Memory was refused.
    Memory,
}

impl From<AllocError> for Refusal {
    ghost use Rattle.std.specs.Prelude.{◌≡◌};
    ghost use Rattle.import_rewriting.specs.declared.refusal.Refusal.TheVariants.{Memory};

    ghost from_gives = { λ e r. r ≡ Memory };

    fn from(_error: AllocError) -> Refusal
        ensures { result ≡ Memory }
    {
        Refusal::Memory
    }
}

impl<T: Drop> From<AllocFailed<T>> for Refusal {
    ghost use Rattle.std.specs.Prelude.{◌≡◌};
    ghost use Rattle.import_rewriting.specs.declared.refusal.Refusal.TheVariants.{Memory};

    ghost from_gives = { λ e r. r ≡ Memory };

    fn from(_error: AllocFailed<T>) -> Refusal
        ensures { result ≡ Memory }
    {
        Refusal::Memory
    }
}
