//! Laws of the definitions, proved.

ghost use Rattle.import_checks.specs.Laws.{MatchesAreSoLong};
ghost use Rattle.import_checks.specs.Laws.{EndsAskOfBoth, TicksAskOfBoth, RangesAskOfBoth};

/// A match takes as many ticks as the form of its sequence says.
pub fn lengths_law()
    ensures { MatchesAreSoLong }
{}

/// Where two properties are asked at the same ticks, both of them are asked there.
pub fn halves_law()
    ensures ends { EndsAskOfBoth }
    ensures ticks { TicksAskOfBoth }
    ensures ranges { RangesAskOfBoth }
{}
