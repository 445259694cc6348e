//! Laws of the definitions.

ghost use Rattle.vcd_declarations.specs.Declarations.{AreVariables};

use vcd_reader::grammar_law;

/// The declarations of a dump are its variables, one for one and in order.
pub fn declarations_law()
    ensures { AreVariables }
{
    grammar_law();
}
