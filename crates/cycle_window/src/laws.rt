//! Laws of the definitions.

ghost use Rattle.std.specs.Prelude.{ℕ};
ghost use Rattle.vcd_reader.specs.Dump.{Contents};
ghost use Rattle.cycle_window.specs.Ticks.{AreTicks};

/// The ticks of a clock are its rising edges, in order.
pub fn ticks_law()
    ensures { (c : Contents) (code : ℕ) → AreTicks c code }
{}
