//! Rows of variables at ticks, one after the other.

ghost use Rattle.std.specs.Prelude.{◌≡◌, ℕ, ◌+◌, ◌<◌, ◌≤◌, ◌++◌, Some, None, IfOk, IfErr, length};
ghost use Rattle.std.specs.Prelude.{map, get_or, [], vec_len, vec_capacity};
ghost use Rattle.vcd_reader.specs.Variables.{variable_named, code_number};
ghost use Rattle.vcd_reader.specs.declared.step.Change.{Change};
ghost use Rattle.vcd_reader.specs.declared.variable.VarId.{VarId};
ghost use Rattle.vcd_reader.specs.Dump.{Contents};
ghost use Rattle.vcd_reader.specs.Held.{HoldsContents, variables_of, steps_in, IsOf};
ghost use Rattle.cycle_window.specs.Ticks.{ticks_of, row_of};
ghost use Rattle.cycle_window.specs.Changes.{changes_to, IsTable};
ghost use Rattle.cycle_window.specs.Variables.{places, AreOf, AreCodesBelow};
ghost use Rattle.cycle_window.specs.Bound.{misfit, IsMisfit, first_refused, places_of};
ghost use Rattle.cycle_window.specs.Bound.{IsSignalFault};
ghost use Rattle.cycle_window.specs.Signals.{wanted_of};

use crate::columns::WatchedSignal;
use crate::fault::WindowFault;
use crate::last::{advance, value_behind};
use std::alloc::{AllocError, Global};
use vcd_reader::{Change, Dump, VarId};

/// The variable of a signal.
fn signal_variable(
    alloc: Global,
    dump: &Dump,
    signal: &WatchedSignal<'_>,
) -> Result<VarId, WindowFault>
    ensures place { IfOk result (λ v.
        variable_named (variables_of dump.now) signal.now.path.now ≡ Some v.place) }
    ensures of { IfOk result (IsOf dump.now) }
    ensures fits { IfOk result (λ _. misfit (variables_of dump.now)
        (variable_named (variables_of dump.now) signal.now.path.now) signal.now.width ≡ None) }
    ensures fault { IfErr result (IsMisfit (misfit (variables_of dump.now)
        (variable_named (variables_of dump.now) signal.now.path.now) signal.now.width)
        signal.now.path.now) }
{
    match dump.var(signal.path) {
        None => Err(WindowFault::NoSignal(String::from_str(alloc, signal.path)?)),
        Some(variable) => {
            if dump.width(variable) == signal.width {
                Ok(variable)
            } else {
                Err(WindowFault::SignalWidth(String::from_str(alloc, signal.path)?))
            }
        }
    }
}

/// The variables of signals.
pub(crate) fn signal_variables(
    alloc: Global,
    dump: &Dump,
    signals: &[WatchedSignal<'_>],
) -> Result<Vec<VarId>, WindowFault>
    ensures places { IfOk result (λ vs. map (λ v. Some v.place) vs.items
        ≡ places_of (variables_of dump.now) (map wanted_of signals.now)) }
    ensures bindable { IfOk result (λ vs. AreOf dump.now vs.items) }
    ensures fits { IfOk result (λ _.
        first_refused (variables_of dump.now) (map wanted_of signals.now) ≡ None) }
    ensures fault { IfErr result
        (IsSignalFault (variables_of dump.now) (map wanted_of signals.now)) }
{
    let mut variables = Vec::new(alloc);
    for signal in signals {
        let variable = signal_variable(alloc, dump, signal)?;
        variables.push(variable)?;
    }
    Ok(variables)
}

/// The least length of a table that has a place for each variable's code.
pub(crate) fn table_len(dump: &Dump, variables: &[VarId]) -> usize
    requires { AreOf dump.now variables.now }
    ensures { AreCodesBelow dump.now variables.now result }
{
    let mut len = 0;
    for variable in variables {
        let code = dump.code(*variable);
        if code >= len {
            len = code + 1;
        }
    }
    len
}

/// A table without changes.
pub(crate) fn blank_table(alloc: Global, len: usize) -> Result<Vec<Option<Change>>, AllocError>
    ensures len { IfOk result (λ t. length t.items ≡ len) }
    ensures table { IfOk result (λ t. IsTable t.items []) }
{
    let mut table = Vec::with_capacity(alloc, len)?;
    for _i in 0..len {
        table.push(None)?;
    }
    Ok(table)
}

/// Takes all changes out of a table.
pub(crate) fn clear_table(table: &mut [Option<Change>])
    ensures len { length table.new ≡ length table.old }
    ensures table { IsTable table.new [] }
{
    for place in 0..table.len() {
        table[place] = None;
    }
}

/// Adds the row of the variables after the last changes of their codes. There is room for it.
pub(crate) fn push_row(
    values: &mut Vec<u128>,
    dump: &Dump,
    variables: &[VarId],
    last: &[Option<Change>],
)
    requires bindable { AreOf dump.now variables.now }
    requires inside { AreCodesBelow dump.now variables.now (length last.now) }
    requires codes { (code : ℕ) (change : Change) → code < length last.now
        → get_or last.now code None ≡ Some change → change.code ≡ code }
    requires room { vec_len values.old + length variables.now ≤ vec_capacity values.old }
    ensures len { length values.new.items ≡ length values.old.items + length variables.now }
    ensures capacity { vec_capacity values.new ≡ vec_capacity values.old }
    ensures row { (c : Contents) (k : ℕ) → HoldsContents dump.now c
        → IsTable last.now (changes_to (steps_in dump.now) k)
        → values.new.items ≡ values.old.items ++ row_of c (places variables.now) k }
{
    for variable in variables {
        let code = dump.code(*variable);
        values.push_reserved(value_behind(dump, last[code], *variable));
    }
}
