//! What may be done about properties that have no rewriting.

use import_lowering::Reason;
use import_rewriting::Refusal as NotRewritten;

/// What may be done where an assertion has no property of the profile.
pub(crate) fn lowering_hint(reason: Reason) -> &'static str {
    match reason {
        Reason::NeedsBound => "it waits without an end: give --bound N",
        Reason::BadBound => "bounds go from the lower to the upper, 127 at most",
        Reason::TooHeavy =>
            "a part would weigh over 127: split it, or, where an end is open, lower --bound",
        Reason::Degenerate => "it can match no clock",
        Reason::LocalVar => "its age is no one number where it is read: use $past or a counter",
        Reason::Always => "drop always: an assertion begins an attempt at each clock",
        _ => "no rule can say this: write it as A |-> S, with sequences on both sides",
    }
}

/// The code of a property that has no rewriting, and what may be done.
pub(crate) fn rewriting_hint(refusal: NotRewritten) -> (&'static str, &'static str) {
    match refusal {
        NotRewritten::TooHeavy => (
            "TooHeavy",
            "a part would weigh over 127: split it, or, where an end is open, lower --bound",
        ),
        NotRewritten::AdmitsEmpty => (
            "AdmitsEmpty",
            "a sequence may match no clock where one is wanted: begin its range at 1",
        ),
        NotRewritten::Unordered => (
            "BadBound",
            "bounds go from the lower to the upper, 127 at most",
        ),
        NotRewritten::Negation => (
            "Negation",
            "the ends of this sequence can't be told one by one: name the failing case instead",
        ),
        _ => (
            "Outside",
            "no rule can say this: write it as A |-> S, with sequences on both sides",
        ),
    }
}
