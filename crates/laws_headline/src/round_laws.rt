//! Laws of rounds, each a call that does nothing.

ghost use Rattle.laws_headline.specs.RoundTheorems.{RoundsAreSteps, CoresRestAtFirst};
ghost use Rattle.laws_headline.specs.RoundTheorems.{OwnersAreDealt, DealtHaveOwners};
ghost use Rattle.laws_headline.specs.ThreadRounds.{ThreadRoundsAreSteps, TakenIsInOrder};

/// A round is a list of the core's steps, whichever workers run the monitors.
pub fn round_law()
    ensures { RoundsAreSteps }
{}

/// Rounds may begin where a core does.
pub fn opening_law()
    ensures { CoresRestAtFirst }
{}

/// What each worker of a round owns rises, and together it is all monitors, each once.
pub fn owned_law()
    ensures { OwnersAreDealt }
{}

/// Rising lists that together are all monitors, each once, are what some round's workers own.
pub fn owners_law()
    ensures { DealtHaveOwners }
{}

/// A round by threads, by what its calls ensure, is a round of the core: its done lists are what
/// each worker ran, its monitors and batches those that the threads leave.
pub fn thread_round_law()
    ensures steps { ThreadRoundsAreSteps }
    ensures order { TakenIsInOrder }
{}
