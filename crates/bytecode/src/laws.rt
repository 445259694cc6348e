//! Laws of spellings, each a call that does nothing.

ghost use Rattle.bytecode.specs.Laws.{SpellingsArePrefixFree, SpellingsAreOfOneProgram};
ghost use Rattle.bytecode.specs.Laws.{SpellsMore};

/// No spelling begins another, of either version; two programs with one spelling are equal; and
/// what version 1 can spell, version 2 can. (That a program has one spelling in a version needs no
/// law: it is a function of the program.)
pub fn spelling_law()
    ensures prefix_free { SpellingsArePrefixFree }
    ensures one_program { SpellingsAreOfOneProgram }
    ensures more { SpellsMore }
{}
