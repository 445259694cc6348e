//! Laws of dumps in segments, each a call that does nothing.

ghost use Rattle.vcd_segments.specs.Laws.{RowsComeStepByStep, RowsJoin, RowsAreKept};
ghost use Rattle.vcd_segments.specs.Laws.{TellingGoesOn, KeptTells, TellingStepTells, KeptGoesOn};
ghost use Rattle.vcd_segments.specs.Laws.{TokensAreCut, TokensTellOn, BodyIsTold, BodyIsCut};
ghost use Rattle.vcd_segments.specs.Beginnings.{DumpBegins, DumpGoesOn, DumpFails, DumpEnds};
ghost use Rattle.vcd_segments.specs.Beginnings.{HeaderFails};
ghost use Rattle.vcd_segments.specs.Steps.{StepsCome, StepsGoOn, TokensLead, DumpHasSteps};
ghost use Rattle.vcd_segments.specs.Shifts.{TokensMove, TokensTellMoved};
ghost use Rattle.vcd_segments.specs.Chunks.{ReadingsAreChunks};
ghost use Rattle.vcd_segments.specs.Reads.{ChunkGoesOn, ChunkFails, LastChunkEnds, LastChunkFails};

/// The rows at the ticks of a dump come step by step.
pub fn rows_law()
    ensures { RowsComeStepByStep }
{}

/// The rows of a dump are those of its segments, each as a dump of its own.
pub fn join_law()
    ensures { RowsJoin }
{}

/// The rows of a dump are those of the changes that are read.
pub fn kept_law()
    ensures rows { RowsAreKept }
    ensures on { KeptGoesOn }
{}

/// The last changes behind a segment are those of its own steps, and of what is kept of them.
pub fn telling_law()
    ensures step { TellingStepTells }
    ensures on { TellingGoesOn }
    ensures kept { KeptTells }
{}

/// A body that is cut at a separator is what its front says, and the body behind it.
pub fn cut_law()
    ensures tokens { TokensAreCut }
    ensures on { TokensTellOn }
    ensures told { BodyIsTold }
    ensures cut { BodyIsCut }
{}

/// What the first bytes of a dump say holds whatever follows them, piece after piece.
pub fn begin_law()
    ensures begins { DumpBegins }
    ensures on { DumpGoesOn }
    ensures fails { DumpFails }
    ensures ends { DumpEnds }
    ensures header { HeaderFails }
{}

/// The steps of a body come piece after piece; the open one is carried on.
pub fn steps_law()
    ensures come { StepsCome }
    ensures on { StepsGoOn }
    ensures lead { TokensLead }
    ensures dump { DumpHasSteps }
{}

/// What tokens say doesn't depend on where they are.
pub fn move_law()
    ensures tokens { TokensMove }
    ensures told { TokensTellMoved }
{}

/// What the reader of bodies has of bytes that it read as one, to their end, is what their tokens
/// say.
pub fn chunk_law()
    ensures { ReadingsAreChunks }
{}

/// A dump that is read chunk by chunk, each as a body of its own, is the dump of all its bytes, or
/// has the fault of the first chunk that has one.
pub fn read_law()
    ensures on { ChunkGoesOn }
    ensures fails { ChunkFails }
    ensures ends { LastChunkEnds }
    ensures last { LastChunkFails }
{}
