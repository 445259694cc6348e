//! Why an expression has no text.

use import_trees::Refusal;
use std::alloc::{AllocError, AllocFailed};

/// Why an expression or an assertion has no text in the profile. Each has a code, which users see,
/// and a hint that says what to write in its place.
#[derive(Clone, Copy, PartialEq, Eq)]
pub enum Reason {
    /// A reason that trees have, too.
    Known(Refusal),
    /// A test for x and z, which are 0 here.
    Unknown,
    /// A value with a sign, where its sign would count.
    Signed,
    /// The bits of a select are the wrong way round, or none.
    SliceRange,
    /// Bits of an expression, where what they are worth depends on how wide they are.
    Width,
    /// The width of a signal, which is not known.
    NeedsWidths,
    /// `/` by what is no constant power of two.
    Divide,
    /// `%` by what is no constant power of two.
    Remainder,
    /// `*` by what is no constant, or by one of more than eight bits that are 1.
    Multiply,
    /// `**` of another number than 2.
    Power,
    /// `[start -: width]` from a start that changes.
    PartDown,
    /// A local variable that is read where its age is no one number.
    LocalVariable,
}

impl Reason {
    /// Memory ran out.
    pub const MEMORY: Reason = Reason::Known(Refusal::Memory);

    /// It is too long, or too deep.
    pub const HEAVY: Reason = Reason::Known(Refusal::TooHeavy);

    /// Rules have no such form.
    pub const OUTSIDE: Reason = Reason::Known(Refusal::Outside);

    /// The code that users see.
    pub fn code(self) -> &'static str {
        match self {
            Reason::Known(refusal) => refusal.code(),
            Reason::Unknown => "XValue",
            Reason::Signed => "Signed",
            Reason::SliceRange => "SliceRange",
            Reason::Width => "Width",
            Reason::NeedsWidths => "NeedsWidths",
            Reason::Divide | Reason::Remainder => "Divide",
            Reason::Multiply => "Multiply",
            Reason::Power | Reason::PartDown => "Outside",
            Reason::LocalVariable => "LocalVar",
        }
    }

    /// What users may write in its place.
    pub fn hint(self) -> &'static str {
        match self {
            Reason::Known(Refusal::BadBound) => {
                "a count from 1 on has to stand there: of ticks 4,096 at most, of copies 128"
            }
            Reason::Known(Refusal::SecondClock) => {
                "leave the clocking event out: it is that of the assertion"
            }
            Reason::Known(refusal) => refusal.hint(),
            Reason::Unknown => "x and z are read as 0 here: leave the test out",
            Reason::Signed =>
                "signs count there, and aren't read: test the top bit, or give it a wire",
            Reason::SliceRange => {
                "a select has one bit at least, of those that are declared, in their order"
            }
            Reason::Width => {
                "bits of an expression can only be compared with a name, a number or bits: \
                 give them a wire"
            }
            Reason::NeedsWidths => "the width of a name is not known here: give --vcd",
            Reason::Divide => "only by a constant power of two: write e >> k",
            Reason::Remainder => {
                "only by a constant power of two: write e & (2^k - 1), or e & ((1 << s) - 1)"
            }
            Reason::Multiply => {
                "only by a constant of at most eight bits that are 1: write sums of shifts"
            }
            Reason::Power => "only of 2, or of constants: write 1 << e",
            Reason::PartDown => "-: needs a constant index: write [start - width + 1 +: width]",
            Reason::LocalVariable => "read where its age is no one number: use $past or a counter",
        }
    }
}

ghost use Rattle.std.specs.Prelude.{◌≡◌};
ghost use Rattle.import_trees.specs.declared.refusal.Refusal.TheVariants as known;
ghost use Rattle.import_expressions.specs.declared.reason.Reason.TheVariants as reasons;

impl From<Refusal> for Reason {
    ghost from_gives = { λ refusal reason. reason ≡ reasons.Known refusal };

    fn from(refusal: Refusal) -> Reason {
        Reason::Known(refusal)
    }
}

impl From<AllocError> for Reason {
    ghost from_gives = { λ _ reason. reason ≡ reasons.Known known.Memory };

    fn from(_error: AllocError) -> Reason {
        Reason::MEMORY
    }
}

impl<T: Drop> From<AllocFailed<T>> for Reason {
    ghost from_gives = { λ _ reason. reason ≡ reasons.Known known.Memory };

    fn from(_error: AllocFailed<T>) -> Reason {
        Reason::MEMORY
    }
}
