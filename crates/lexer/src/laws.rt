//! Laws of the definitions, proved.

ghost use Rattle.lexer.specs.Laws.{TokensCoverText, RefusesByFirstFault, NeverWantsMemory};

/// The tokens that are computed from a text are those that cover it, each the longest at its byte;
/// where none do, the first fault stands, and want of memory is none. So `tokens_of` says no more
/// and no less than `IsCut` and `IsFaulty`.
pub fn cut_law()
    ensures tokens { TokensCoverText }
    ensures fault { RefusesByFirstFault }
    ensures memory { NeverWantsMemory }
{}
