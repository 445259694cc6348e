//! Laws of what a text asks for, each a call that does nothing.

ghost use Rattle.types_signals.specs.ReadsAsked.{ReadsAreAsked};

/// Each path that a text reads as a signal, over any dump, is one that it asks for.
pub fn asked_law()
    ensures { ReadsAreAsked }
{}
