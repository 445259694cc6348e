//! Variables without most repeats.

ghost use Rattle.std.specs.Prelude.{◌≡◌, ℕ, ◌<◌, ◌≤◌, IfOk, OnOk, length, get_or};
ghost use Rattle.vcd_reader.specs.declared.variable.VarId.{VarId};
ghost use Rattle.vcd_reader.specs.Held.{IsOf};
ghost use Rattle.cycle_window.specs.Picks.{AreBelow, picked};
ghost use Rattle.cycle_window.specs.Variables.{AreOf, places};

use crate::rows::table_len;
use std::alloc::{AllocError, Global};
use vcd_reader::{Dump, VarId};

/// Variables, most of them once, and where each of a list of variables stands among them.
#[derive(Drop)]
pub(crate) struct Shared {
    pub(crate) variables: Vec<VarId>,
    pub(crate) picks: Vec<usize>,
    ghost below: { AreBelow (length variables.items) picks.items },
}

/// Where the variable stands: at the likely place, or else after all others, where it is put.
fn place_of(variables: &mut Vec<VarId>, variable: VarId, likely: usize) -> Result<usize, AllocError>
    ensures inside { IfOk result (λ p. p < length variables.new.items) }
    ensures here { IfOk result (λ p. get_or variables.new.items p variable ≡ variable) }
    ensures more { OnOk result (length variables.old.items ≤ length variables.new.items) }
    ensures same { OnOk result ((i : ℕ) (v : VarId) → i < length variables.old.items
        → get_or variables.new.items i v ≡ get_or variables.old.items i v) }
    ensures new { OnOk result ((i : ℕ) → length variables.old.items ≤ i
        → get_or variables.new.items i variable ≡ variable) }
{
    if likely < variables.len() && variables[likely] == variable {
        return Ok(likely);
    }
    variables.push(variable)?;
    Ok(variables.len() - 1)
}

/// A table of so many zeros.
fn zeros(alloc: Global, len: usize) -> Result<Vec<usize>, AllocError>
    ensures { IfOk result (λ t. length t.items ≡ len) }
{
    let mut table = Vec::with_capacity(alloc, len)?;
    for _i in 0..len {
        table.push(0)?;
    }
    Ok(table)
}

/// The variables, most of them once: a variable is put again only where another one of its code
/// came between.
pub(crate) fn shared_among(
    alloc: Global,
    dump: &Dump,
    wanted: &[VarId],
) -> Result<Shared, AllocError>
    requires { AreOf dump.now wanted.now }
    ensures bindable { IfOk result (λ s. AreOf dump.now s.variables.items) }
    ensures same { IfOk result (λ s.
        picked (places s.variables.items) s.picks.items ≡ places wanted.now) }
{
    let mut likely = zeros(alloc, table_len(dump, wanted))?;
    let mut variables = Vec::new(alloc);
    let mut picks = Vec::with_capacity(alloc, wanted.len())?;
    for variable in wanted {
        let code = dump.code(*variable);
        let place = place_of(&mut variables, *variable, likely[code])?;
        likely[code] = place;
        picks.push(place)?;
    }
    Ok(Shared { variables, picks })
}
