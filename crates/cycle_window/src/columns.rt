//! The variables that are sampled at the ticks of a clock.

ghost use Rattle.std.specs.Prelude.{◌≡◌, None, Some, IfOk, IfErr, map};
ghost use Rattle.vcd_reader.specs.Dump.{Contents};
ghost use Rattle.vcd_reader.specs.Held.{HoldsContents, variables_of};
ghost use Rattle.cycle_window.specs.Variables.{AreOf};

use crate::clocks::Clocks;
use crate::fault::WindowFault;
use crate::rows::signal_variables;
use crate::shared::{Shared, shared_among};
use std::alloc::Global;
use vcd_reader::Dump;

/// A path and the width that its variable must have, in bits.
#[derive(Clone, Copy, Debug)]
pub struct WatchedSignal<'a> {
    pub path: &'a str,
    pub width: u32,
}

/// The variables of signals in a dump, and the clock at whose ticks they are sampled. It holds no
/// rows: a `Window` reads them.
#[derive(Drop)]
pub struct Columns<'d> {
    pub(crate) dump: &'d Dump,
    pub(crate) code: usize,
    /// How many ticks there are.
    pub(crate) count: usize,
    /// The signals' variables, and which of them each signal names.
    pub(crate) shared: Shared,
    ghost bindable: { AreOf dump.now shared.variables.items },
}

impl<'d> Columns<'d> {
    ghost use Rattle.cycle_window.specs.Held.{code_in, dump_in, places_in, clock_in};
    ghost use Rattle.cycle_window.specs.Held.{AreClocksOf, AreColumnsOf};
    ghost use Rattle.cycle_window.specs.Bound.{first_refused, places_of, IsSignalFault};
    ghost use Rattle.cycle_window.specs.Signals.{wanted_of};

    /// The signals' variables, at the ticks of the clocks, which must be of this dump. The first
    /// signal in order that names no variable, or one of another width, is refused.
    pub fn bind(
        alloc: Global,
        dump: &'d Dump,
        clocks: &Clocks,
        signals: &[WatchedSignal<'_>],
    ) -> Result<Columns<'d>, WindowFault>
        requires { AreClocksOf dump.now clocks.now }
        ensures places { IfOk result (λ cs. map Some (places_in cs)
            ≡ places_of (variables_of dump.now) (map wanted_of signals.now)) }
        ensures fits { IfOk result (λ _.
            first_refused (variables_of dump.now) (map wanted_of signals.now) ≡ None) }
        ensures dump { IfOk result (λ cs. dump_in cs ≡ dump.now) }
        ensures clock { IfOk result (λ cs. clock_in cs ≡ code_in clocks.now) }
        ensures rows { (c : Contents) → HoldsContents dump.now c
            → IfOk result (λ cs. AreColumnsOf cs c) }
        ensures fault { IfErr result
            (IsSignalFault (variables_of dump.now) (map wanted_of signals.now)) }
    {
        let variables = signal_variables(alloc, dump, signals)?;
        let shared = shared_among(alloc, dump, variables.as_slice())?;
        Ok(Columns {
            dump,
            code: clocks.code,
            count: clocks.ticks.len(),
            shared,
        })
    }
}
