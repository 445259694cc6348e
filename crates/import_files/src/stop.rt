//! Why an assertion is not written.

ghost use Rattle.std.specs.Prelude.{◌≡◌};
ghost use Rattle.import_files.specs.declared.stop.Stop.TheVariants.{Memory};

use crate::hints::{lowering_hint, rewriting_hint};
use crate::outcome::Cause;
use import_elaboration::Refused;
use import_lowering::NotLowered;
use import_text::Refused as NotSpelled;
use std::alloc::{AllocError, AllocFailed};

/// Why an assertion is not written: it is refused, or memory ran out.
#[derive(Clone, Copy)]
pub(crate) enum Stop {
    Refused(Cause),
    Memory,
}

impl Stop {
    /// Whether a part of the assertion is too heavy.
    pub(crate) fn is_heavy(&self) -> bool {
        match self {
            Stop::Refused(cause) => cause.code == "TooHeavy",
            Stop::Memory => false,
        }
    }
}

impl From<AllocError> for Stop {
    ghost from_gives = { λ _ e. e ≡ Memory };

    fn from(_error: AllocError) -> Stop {
        Stop::Memory
    }
}

impl<T: Drop> From<AllocFailed<T>> for Stop {
    ghost from_gives = { λ _ e. e ≡ Memory };

    fn from(_error: AllocFailed<T>) -> Stop {
        Stop::Memory
    }
}

impl From<Refused> for Stop {
    fn from(refused: Refused) -> Stop {
        match refused.refusal {
            import_trees::Refusal::Memory => Stop::Memory,
            refusal => Stop::Refused(Cause {
                code: refusal.code(),
                hint: refusal.hint(),
                at: refused.at,
            }),
        }
    }
}

impl From<NotLowered> for Stop {
    fn from(refused: NotLowered) -> Stop {
        match refused.reason {
            import_lowering::Reason::Memory => Stop::Memory,
            reason => Stop::Refused(Cause {
                code: reason.code(),
                hint: match refused.hint {
                    Some(hint) => hint.text(),
                    None => lowering_hint(reason),
                },
                at: refused.at,
            }),
        }
    }
}

impl From<NotSpelled> for Stop {
    fn from(refused: NotSpelled) -> Stop {
        match refused.reason {
            import_text::Reason::Known(import_trees::Refusal::Memory) => Stop::Memory,
            reason => Stop::Refused(Cause {
                code: reason.code(),
                hint: reason.hint(),
                at: refused.at,
            }),
        }
    }
}

/// Why a property has no rewriting, told at a byte.
pub(crate) fn not_rewritten(refusal: import_rewriting::Refusal, at: usize) -> Stop {
    match refusal {
        import_rewriting::Refusal::Memory => Stop::Memory,
        refusal => {
            let (code, hint) = rewriting_hint(refusal);
            Stop::Refused(Cause { code, hint, at })
        }
    }
}

/// An assertion whose property isn't shown to be what it means, told at a byte.
pub(crate) fn not_checked(at: usize) -> Stop {
    Stop::Refused(Cause {
        code: "NotChecked",
        hint: "what it was made into isn't shown to be its meaning: split the assertion",
        at,
    })
}

/// An assertion in whose place, which begins at that byte, another one was read.
pub(crate) fn elsewhere(at: usize) -> Stop {
    Stop::Refused(Cause {
        code: "NotReadBack",
        hint: "another assertion would be written in its place: give it a label, and tell us of it",
        at,
    })
}

/// An assertion for which no work is left; the one that took the most begins at that byte.
pub(crate) fn too_much(at: usize) -> Stop {
    Stop::Refused(Cause {
        code: "TooMuch",
        hint: "no work is left for it: make the assertion at this place smaller, or give less",
        at,
    })
}
