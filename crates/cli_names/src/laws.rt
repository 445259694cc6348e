//! Laws of the definitions.

ghost use Rattle.cli_names.specs.Rows.{AreNoted};

/// A variable has no note exactly where a rule can name it.
pub fn note_law()
    ensures { AreNoted }
{}
