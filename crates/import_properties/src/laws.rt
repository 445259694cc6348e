//! Laws of the definitions, proved.

ghost use Rattle.import_properties.specs.Laws.{NegatesTwice, StaysDecided, FailsForGood};
ghost use Rattle.import_properties.specs.Laws.{AgreesWithProfile};

/// Two negations are none; what is decided stays so, and is one outcome.
pub fn outcome_law()
    ensures twice { NegatesTwice }
    ensures stays { StaysDecided }
    ensures one { FailsForGood }
{}

/// An assertion of the profile comes to what its own definition decides.
pub fn profile_law()
    ensures { AgreesWithProfile }
{}
