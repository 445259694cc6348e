//! Laws of what expressions mean, each a call that does nothing.

ghost use Rattle.types_names.specs.Laws.{MeaningsHaveWidths, MeaningsAreOne};

/// What an expression means has the expression's own width, and has one value at each tick, in each
/// context.
pub fn meaning_law()
    ensures widths { MeaningsHaveWidths }
    ensures one { MeaningsAreOne }
{}
