//! A law of programs, a call that does nothing.

ghost use Rattle.compiler.specs.Small.{SmallHaveCode};

/// A small assertion has no part that is too long: K2 never comes for it.
pub fn small_law()
    ensures { SmallHaveCode }
{}
