//! Laws of the checked machine, each a call that does nothing.

ghost use Rattle.machine_checked.specs.Laws.{NeverTraps, FewAreLive};
ghost use Rattle.machine_checked.specs.OpenTicks.{ClocksAgree};
ghost use Rattle.machine_checked.specs.Worked.{TwoPositionsRun, FirstPositionsRun};

/// A verified program meets no trap over any rows, and what stands between its clocks is bounded.
pub fn never_traps()
    ensures reached { NeverTraps }
    ensures few { FewAreLive }
{}

/// A run of three clocks, worked out by hand.
pub fn worked_run()
    ensures { TwoPositionsRun }
{}

/// Another, of a program that accepts first.
pub fn worked_first_run()
    ensures { FirstPositionsRun }
{}

/// A clock of the checked machine, whose attempts keep the set of all ticks at which they accepted,
/// is a clock over attempts that list their open awaited ticks and tell whether they ever accepted.
pub fn open_ticks_law()
    ensures { ClocksAgree }
{}
