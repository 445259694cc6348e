//! Why an opened assertion has no property.

ghost use Rattle.std.specs.Prelude.{◌≡◌};
ghost use Rattle.import_lowering.specs.declared.reason.Reason.TheVariants.{Memory};

use std::alloc::{AllocError, AllocFailed};

/// Why an assertion has no property. Each has a code, which users see.
#[derive(Clone, Copy, PartialEq, Eq)]
pub enum Reason {
    /// An end is left open, and no bound is given for it.
    NeedsBound,
    /// A bound is over 127, or the one that is given is below what is written.
    BadBound,
    /// What it stands for is too large.
    TooHeavy,
    /// It matches nothing.
    Degenerate,
    /// It may match no tick, where it must match one.
    AdmitsEmpty,
    /// A local variable whose age isn't one number where it is read.
    LocalVar,
    /// `always` without an end.
    Always,
    /// Values that are compared at one width, which depends on that.
    Width,
    /// A form that isn't taken.
    Outside,
    /// Memory ran out.
    Memory,
}

impl Reason {
    /// The code that users see.
    pub fn code(self) -> &'static str {
        match self {
            Reason::NeedsBound => "NeedsBound",
            Reason::BadBound => "BadBound",
            Reason::TooHeavy => "TooHeavy",
            Reason::Degenerate => "Degenerate",
            Reason::AdmitsEmpty => "AdmitsEmpty",
            Reason::LocalVar => "LocalVar",
            Reason::Always => "Always",
            Reason::Width => "Width",
            Reason::Outside => "Outside",
            Reason::Memory => "OutOfMemory",
        }
    }
}

/// What could be done, or what exactly is wrong.
#[derive(Clone, Copy, PartialEq, Eq)]
pub enum Hint {
    GiveBound,
    BoundBelow,
    BoundOver127,
    AgeDiffers,
    NoValue,
    NoPast,
    DropAlways,
    BoundedAlways,
    NegateAlone,
    EndsUntold,
    NoAntecedent,
    CaseWidths,
}

impl Hint {
    /// What users are told.
    pub fn text(self) -> &'static str {
        match self {
            Hint::GiveBound => "no upper bound here: give --bound N",
            Hint::BoundBelow => "the upper bound is below the lower one",
            Hint::BoundOver127 =>
                "a bound over 127: put a part of it before the arrow, as A ##100 1 |-> ##100 b",
            Hint::AgeDiffers => "its age differs between matches",
            Hint::NoValue => "it has no value there",
            Hint::NoPast => "a local variable has no past: use $past of what it was given",
            Hint::DropAlways => "drop always: an assertion begins an attempt at each clock",
            Hint::BoundedAlways => "write always [m:n]",
            Hint::NegateAlone => "not s_eventually: write the negated expression alone",
            Hint::EndsUntold => "first_match of a sequence whose ends are not told one by one",
            Hint::NoAntecedent => "the antecedent matches nothing",
            Hint::CaseWidths => "all widths of a case count: give what is worked out there a wire",
        }
    }
}

/// Why an assertion has no property, the byte at which that shows, and what could be done.
#[derive(Clone, Copy, PartialEq, Eq)]
pub struct NotLowered {
    pub reason: Reason,
    pub at: usize,
    pub hint: Option<Hint>,
}

impl From<AllocError> for NotLowered {
    ghost from_gives = { λ _ e. e.reason ≡ Memory };

    fn from(_error: AllocError) -> NotLowered {
        refused(Reason::Memory, 0)
    }
}

impl<T: Drop> From<AllocFailed<T>> for NotLowered {
    ghost from_gives = { λ _ e. e.reason ≡ Memory };

    fn from(_error: AllocFailed<T>) -> NotLowered {
        refused(Reason::Memory, 0)
    }
}

/// A refusal at a byte.
pub(crate) fn refused(reason: Reason, at: usize) -> NotLowered
    ensures { result.reason ≡ reason }
{
    NotLowered {
        reason,
        at,
        hint: None,
    }
}

/// A refusal at a byte, and what could be done.
pub(crate) fn hinted(reason: Reason, at: usize, hint: Hint) -> NotLowered {
    NotLowered {
        reason,
        at,
        hint: Some(hint),
    }
}
