//! Laws of the definitions, each a call that does nothing.

ghost use Rattle.positions.specs.Laws.{SectionFollows, SectionIsWellFormed};
ghost use Rattle.positions.specs.Laws.{SectionIsSmall, SectionIsShort};
ghost use Rattle.positions.specs.Laws.{SectionFollowsFirst, AcceptingFirstIsWellFormed};
ghost use Rattle.positions.specs.Laws.{AcceptingFirstIsAsLong};

/// The section of a sequence as it is written, over any rows that tell its booleans, accepts
/// exactly where a match ends, and has no position left exactly where no longer match is possible.
pub fn section_law()
    ensures follows { SectionFollows }
    ensures well_formed { SectionIsWellFormed }
{}

/// It has no more positions than the sequence weighs, and few instructions where the sequence has
/// no `and` and no delay between two parts that may be 0.
pub fn size_law()
    ensures positions { SectionIsSmall }
    ensures instructions { SectionIsShort }
{}

/// The section of a sequence that accepts first: it follows the first matches, and is well formed
/// as an antecedent, with as many positions and instructions.
pub fn first_law()
    ensures follows { SectionFollowsFirst }
    ensures well_formed { AcceptingFirstIsWellFormed }
    ensures long { AcceptingFirstIsAsLong }
{}
