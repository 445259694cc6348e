//! Laws of values and counters, each a call that does nothing.

ghost use Rattle.expressions.specs.Laws.{ValuesFit, ValuesAreCausal, CountersCount};
ghost use Rattle.expressions.specs.Laws.{ChainsCompareBits, ConcatsKeepParts, LongShiftsGiveZero};

/// Values fit the width of their context.
pub fn width_law()
    ensures { ValuesFit }
{}

/// No value rests on what comes later.
pub fn causality_law()
    ensures { ValuesAreCausal }
{}

/// Counters are 0 at the first tick, go on by their clauses, and stay within their widths.
pub fn counter_law()
    ensures { CountersCount }
{}

/// A chain of comparisons compares the one bit of those before.
pub fn chain_law()
    ensures { ChainsCompareBits }
{}

/// Each part of a concatenation stands in it as it does alone.
pub fn concat_law()
    ensures { ConcatsKeepParts }
{}

/// A shift by the width of the context or more gives 0.
pub fn shift_law()
    ensures { LongShiftsGiveZero }
{}
