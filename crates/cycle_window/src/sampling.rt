//! Clocks by their path.

ghost use Rattle.std.specs.Prelude.{◌≡◌, IfOk, IfErr, length};
ghost use Rattle.vcd_reader.specs.Variables.{code_number, size_of};
ghost use Rattle.vcd_reader.specs.Held.{variables_of, IsOf};
ghost use Rattle.cycle_window.specs.Held.{ticks_in, code_in, AreClocksOf};
ghost use Rattle.cycle_window.specs.Bound.{IsClock, IsClockFault};

use crate::clocks::{Clocks, parts_of, ticks_between, ticks_by_parts};
use crate::fault::WindowFault;
use std::alloc::Global;
use std::thread::Threads;
use vcd_reader::{Dump, VarId};

/// The variable of a clock, which a path names: it has one bit.
fn clock_variable(dump: &Dump, clock: &str) -> Result<VarId, WindowFault>
    ensures clock { IfOk result (λ v.
        IsClock (variables_of dump.now) clock.now (code_number (variables_of dump.now) v.place)) }
    ensures bit { IfOk result (λ v. size_of (variables_of dump.now) v.place ≡ 1) }
    ensures of { IfOk result (IsOf dump.now) }
    ensures fault { IfErr result (IsClockFault (variables_of dump.now) clock.now) }
{
    let Some(variable) = dump.var(clock) else {
        return Err(WindowFault::NoClock);
    };
    if dump.width(variable) != 1 {
        return Err(WindowFault::ClockWidth);
    }
    Ok(variable)
}

impl Clocks {
    /// The ticks of the clock that a path names, which must be a variable of one bit.
    pub fn of(alloc: Global, dump: &Dump, clock: &str) -> Result<Clocks, WindowFault>
        ensures clock { IfOk result (λ k. IsClock (variables_of dump.now) clock.now (code_in k)) }
        ensures ticks { IfOk result (AreClocksOf dump.now) }
        ensures fault { IfErr result (IsClockFault (variables_of dump.now) clock.now) }
    {
        let variable = clock_variable(dump, clock)?;
        let code = dump.code(variable);
        let end = dump.steps().len();
        let ticks = ticks_between(alloc, dump, variable, code, 0, end)?;
        Ok(Clocks { ticks, code })
    }

    /// What [`of`](Clocks::of) gives, by so many threads at most, the calling one among them. All
    /// have ended when it returns.
    pub fn of_by<R: Threads>(
        rt: &R,
        alloc: Global,
        dump: &Dump,
        clock: &str,
        threads: usize,
    ) -> Result<Clocks, WindowFault>
        ensures clock { IfOk result (λ k. IsClock (variables_of dump.now) clock.now (code_in k)) }
        ensures ticks { IfOk result (AreClocksOf dump.now) }
        ensures fault { IfErr result (IsClockFault (variables_of dump.now) clock.now) }
    {
        let variable = clock_variable(dump, clock)?;
        let code = dump.code(variable);
        let end = dump.steps().len();
        let parts = parts_of(end, threads);
        let ticks = ticks_by_parts(rt, alloc, dump, variable, code, 0, end, parts)?;
        Ok(Clocks { ticks, code })
    }

    /// How many ticks there are.
    pub fn len(&self) -> u64
        ensures { result ≡ length (ticks_in self.now) }
    {
        self.ticks.len() as u64
    }
}
