//! Laws of the suites that texts say, each a call that does nothing.

ghost use Rattle.compiler_laws.specs.Depths.{TextsAreShallow};
ghost use Rattle.compiler_laws.specs.SuiteLaws.{SuitesFit};
ghost use Rattle.compiler_laws.specs.Small.{SuitesKeepTo};

/// What an expression of a text means is no deeper than a text can be, and looks back no further.
pub fn depth_law()
    ensures { TextsAreShallow }
{}

/// Each assertion of a suite that a text says keeps to what the compiler takes for granted.
pub fn suite_law()
    ensures { SuitesFit }
{
    depth_law();
}

/// An assertion of a suite that a text says has no more booleans than are written, with names
/// written out, and is small where the text's is.
pub fn small_law()
    ensures { SuitesKeepTo }
{}
