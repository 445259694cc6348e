//! Laws of programs of assertions and of their lines, each a call that does nothing.

ghost use Rattle.compiler_laws.specs.ProgramLaws.{ProgramsDecide};
ghost use Rattle.compiler_laws.specs.LineLaws.{LinesAreOne, LineByMeaning};

/// The line of attempts in the order in which they are decided is that of their verdicts by start.
pub fn lines_are_one()
    ensures { LinesAreOne }
{}

/// The line of a program over rows is that of the verdicts on its assertion.
pub fn line_by_meaning()
    ensures { LineByMeaning }
{}

/// Over any rows the line of an accepted program of an assertion is that of its verdicts.
pub fn programs_decide()
    ensures { ProgramsDecide }
{}
