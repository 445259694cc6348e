//! Laws of the definitions, proved.

ghost use Rattle.assertions.specs.Laws.{MatchesForward, MatchesWithin, TestsMatches};
ghost use Rattle.assertions.specs.Laws.{MatchesWithinWeight, HasVerdict, HasOneVerdict};
ghost use Rattle.assertions.specs.Laws.{EmptyMatchesAlike, TestsEmpty, TestsDegenerate};

/// A match goes forward, is no longer than the longest, and is found by the test of it.
pub fn match_law()
    ensures forward { MatchesForward }
    ensures within { MatchesWithin }
    ensures tests { TestsMatches }
{}

/// Each attempt has exactly one verdict.
pub fn verdict_law()
    ensures some { HasVerdict }
    ensures one { HasOneVerdict }
{}

/// No match of a sequence as it is written takes more ticks than it weighs.
pub fn weight_law()
    ensures { MatchesWithinWeight }
{}

/// Whether a sequence as it is written matches an empty segment is told by its form alone.
pub fn empty_law()
    ensures anywhere { EmptyMatchesAlike }
    ensures tests { TestsEmpty }
{}

/// Whether a sequence as it is written is degenerate is told by its form alone.
pub fn degenerate_law()
    ensures { TestsDegenerate }
{}
