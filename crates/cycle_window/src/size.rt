//! How many clocks a window holds.

use crate::fault::WindowFault;
use std::marker::Model;

/// The most clocks of a window.
const MOST: u64 = 65_536;

/// How many clocks a window holds at most: 1 to 65,536.
#[derive(Clone, Copy, Debug)]
pub struct WindowSize {
    clocks: usize,
}

impl Model for WindowSize {
    ghost use Rattle.std.specs.Prelude.{ℕ, ◌≤◌};

    ghost Value = { ℕ };

    ghost view = { λ size. size.clocks };

    ghost inverse = { λ clocks. record { clocks = clocks } };

    ghost invariant = { λ size. (1 ≤ size.clocks) × (size.clocks ≤ 65536) };
}

impl WindowSize {
    ghost use Rattle.std.specs.Prelude.{◌≡◌, ◌≤◌, ◌↔◌, Err, IfOk, IfErr};
    ghost use Rattle.cycle_window.specs.Bound.{IsBadSize};

    /// The size of so many clocks.
    ///
    /// # Errors
    ///
    /// C3: no clock, or more than 65,536.
    pub fn new(clocks: u64) -> Result<WindowSize, WindowFault>
        ensures size { IfOk result (λ size. size ≡ clocks) }
        ensures good { IfOk result (λ _. (1 ≤ clocks) × (clocks ≤ 65536)) }
        ensures fault { IfErr result (λ _. IsBadSize clocks) }
        ensures bad_size { IsBadSize clocks ↔ (result ≡ Err WindowFault.BadSize) }
    {
        if clocks == 0 || clocks > MOST {
            return Err(WindowFault::BadSize);
        }
        Ok(WindowSize {
            clocks: clocks as usize,
        })
    }

    /// The size that a run takes where none is asked for: 1,024 clocks.
    pub fn usual() -> WindowSize
        ensures { result ≡ 1024 }
    {
        WindowSize { clocks: 1024 }
    }

    /// The number of clocks.
    pub fn clocks(self) -> usize
        ensures same { result ≡ self }
        ensures some { 1 ≤ self }
        ensures most { self ≤ 65536 }
    {
        self.clocks
    }
}
