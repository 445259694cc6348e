//! Sample code over a stack of operands.

ghost use Rattle.std.specs.Prelude.{◌≡◌, ◌≤◌, ◌∷◌, ◌++◌, length};
ghost use Rattle.bytecode_programs.specs.Programs.{data_of};
ghost use Rattle.verifier.specs.Programs.{IsAccepted};
ghost use Rattle.machine_checked.specs.Values.{AreValues};
ghost use Rattle.history_ring.specs.History.{pushed};
ghost use Rattle.machine_sample_code.specs.Memory.{AreRows};
ghost use Rattle.machine_sample_code.specs.Runs.{HasRun, longest_run};

use bytecode_programs::Program;
use history_ring::Ring;
use machine_sample_code::{Stack, fill_row, run};

/// The stack, and where the row of a clock is made.
#[derive(Drop)]
pub(crate) struct Stacked {
    pub(crate) stack: Stack,
    pub(crate) row: Vec<u128>,
}

impl Stacked {
    /// Makes the row of a clock, pushes it on the history, and runs the code.
    pub(crate) fn run(
        &mut self,
        program: &Program,
        widths: &[u8],
        history: &mut Ring,
        signals: &[u128],
        atoms: &mut [bool],
        counters: &mut [u128],
    ) -> u64
        requires accepted { IsAccepted (data_of program.now) }
        requires row { length self.old.row.items ≡ length widths.now }
        requires rows { AreRows (data_of program.now) widths.now history.old }
        requires values { AreValues widths.now (1 ∷ (signals.now ++ counters.old)) }
        requires atoms { length atoms.old ≡ (data_of program.now).header.atoms }
        requires counters { AreValues (data_of program.now).counters counters.old }
        ensures row { length self.new.row.items ≡ length self.old.row.items }
        ensures pushed { history.new ≡ pushed history.old (1 ∷ (signals.now ++ counters.old)) }
        ensures ran { HasRun (data_of program.now) history.new.rows counters.old
            result atoms.new counters.new }
        ensures cost { result ≤ longest_run (data_of program.now) }
        ensures kept { AreValues (data_of program.now).counters counters.new }
        ensures newest { self.new.row.items ≡ 1 ∷ (signals.now ++ counters.old) }
    {
        fill_row(&mut self.row, signals, counters);
        history.push(&self.row);
        run(program, widths, history, &mut self.stack, atoms, counters)
    }
}
