//! Laws of monitors, each a call that does nothing.

ghost use Rattle.machine_sections.specs.Firsts.{AcceptsFirst};
ghost use Rattle.machine_sections.specs.Laws.{DecidesByMeaning, RunsByMeaning, ReadsHeld};

/// After their sample code, the clocks of a program whose sections follow an antecedent and a
/// consequent decide each attempt with the assertion's verdict, at the verdict's clock.
pub fn decides_by_meaning()
    ensures { DecidesByMeaning }
{}

/// So do its whole clocks over rows of signals, where its sample code sets those atoms.
pub fn runs_by_meaning()
    ensures { RunsByMeaning }
{}

/// What sample code reads of the history is what the slots held.
pub fn reads_held()
    ensures { ReadsHeld }
{}

/// A section that follows a sequence, with AcceptFirst in place of each Accept, follows its first
/// matches.
pub fn accepts_first()
    ensures { AcceptsFirst }
{}
