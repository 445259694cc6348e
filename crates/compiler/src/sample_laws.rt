//! Laws of sample code, each a call that does nothing.

ghost use Rattle.compiler.specs.Laws.{ExpressionsLeaveValues, CountersLeaveNext};
ghost use Rattle.compiler.specs.Depths.{DepthBoundsCode};
ghost use Rattle.compiler.specs.Laws.{ProgramsAreNarrow, SamplesAreShort};
ghost use Rattle.compiler.specs.Laws.{SamplesAreTyped};
ghost use Rattle.compiler.specs.Laws.{SamplesFit, SamplesTell};

/// The code of an expression leaves its value on any stack.
pub fn expression_law()
    ensures { ExpressionsLeaveValues }
{}

/// The code of a counter leaves its value at the next tick.
pub fn counter_law()
    ensures { CountersLeaveNext }
{}

/// The sample code of a program is typed, with lists and reach within bounds.
pub fn typing_law()
    ensures { SamplesAreTyped }
{}

/// At each clock of an accepted program its sample code sets each atom to the truth of its boolean,
/// and stores each counter's next value.
pub fn sample_law()
    ensures { SamplesTell }
{}

/// Without counters and calls that compare with the tick before, the sample code is short.
pub fn length_law()
    ensures { SamplesAreShort }
{}

/// What the code of expressions asks of the stack and of the history is bounded by how many
/// brackets and unfinished operators are open at once in them.
pub fn depth_law()
    ensures { DepthBoundsCode }
{}

/// No part of the expressions and counters of a program has over 128 bits.
pub fn narrow_law()
    ensures { ProgramsAreNarrow }
{}

/// Each instruction of the sample code of a program can be written to a file.
pub fn fit_law()
    ensures { SamplesFit }
{}
