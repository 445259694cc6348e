//! Laws of typing and of acceptance, each a call that does nothing.

ghost use Rattle.verifier.specs.Laws.{SampleIsTypableWhereFaultless};
ghost use Rattle.verifier.specs.Laws.{SectionIsWellFormedWhereFaultless};
ghost use Rattle.verifier.specs.Laws.{IsAcceptedWhereFaultless, LeastStackIsOfAnyTable};
ghost use Rattle.verifier.specs.Laws.{IsFormedWhereFaultless};

/// No fault stands in code exactly where tables of lists type it.
pub fn typing_law()
    ensures sample { SampleIsTypableWhereFaultless }
    ensures section { SectionIsWellFormedWhereFaultless }
{}

/// No fault stands exactly where a program is accepted; none but those of the limits exactly where
/// it is well formed and nothing is over the most; and the least stack is the longest list of any
/// table that types the sample code.
pub fn verifying_law()
    ensures accepted { IsAcceptedWhereFaultless }
    ensures formed { IsFormedWhereFaultless }
    ensures stack { LeastStackIsOfAnyTable }
{}
