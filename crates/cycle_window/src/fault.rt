//! Why there are no clocks, columns or windows.

ghost use Rattle.std.specs.Prelude.{◌≡◌};
ghost use Rattle.cycle_window.specs.declared.fault.WindowFault.TheVariants.{Memory};

use std::alloc::{AllocError, AllocFailed};
use thiserror::Error;

/// Why there are no clocks, columns or windows.
#[derive(Debug, Drop, Error)]
pub enum WindowFault {
    /// C1: the clock's path names no variable that can be bound.
    #[error("C1 NoClock")]
    NoClock,
    /// C2: the clock is wider than one bit.
    #[error("C2 ClockWidth")]
    ClockWidth,
    /// C3: a window is to hold no clock, or more than 65,536.
    #[error("C3 BadSize")]
    BadSize,
    /// C4: the path of a signal that names no variable that can be bound.
    #[error("C4 NoSignal {0}")]
    NoSignal(String),
    /// C5: the path of a signal whose variable has another width.
    #[error("C5 SignalWidth {0}")]
    SignalWidth(String),
    /// There was no memory.
    #[error("OutOfMemory")]
    Memory,
}

impl From<AllocError> for WindowFault {
    ghost from_gives = { λ _ e. e ≡ Memory };

    fn from(_e: AllocError) -> WindowFault {
        WindowFault::Memory
    }
}

impl<T: Drop> From<AllocFailed<T>> for WindowFault {
    ghost from_gives = { λ _ e. e ≡ Memory };

    fn from(_e: AllocFailed<T>) -> WindowFault {
        WindowFault::Memory
    }
}
