//! Laws of what a program decides, each a call that does nothing.

ghost use Rattle.machine_batches.specs.Batches.{BatchesJoin, EndsInState};
ghost use Rattle.machine_batches.specs.Laws.{CutsAnywhere, EndsAsClocks};

/// Rows that are cut anywhere decide the same, part by part; and the state after them is that of
/// the checked machine's clocks.
pub fn batches_law()
    ensures cut { CutsAnywhere }
    ensures state { EndsAsClocks }
{}

/// Batches of clocks that meet, joined, are the batch of all their clocks; and the state after
/// them is that of the checked machine over the first rows.
pub fn batches_join()
    ensures join { BatchesJoin }
    ensures state { EndsInState }
{}
