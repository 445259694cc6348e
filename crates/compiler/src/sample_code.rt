//! The sample code of a program.

ghost use Rattle.std.specs.Prelude.{◌≡◌, ◌<◌, ◌≤◌, [], ◌∷◌, ◌++◌, length, OnOk, IfOk};
ghost use Rattle.bytecode_programs.specs.declared.sample_instr.SampleInstr.TheVariants.{SetAtom};
ghost use Rattle.bytecode_programs.specs.declared.sample_instr.SampleInstr.TheVariants.{Store};
ghost use Rattle.expressions.specs.Expressions.{term_of};
ghost use Rattle.compiler.specs.Codes.{reach};
ghost use Rattle.compiler.specs.Samples.{truth_code, next_code, atoms_code};
ghost use Rattle.compiler.specs.Samples.{stores_code};
ghost use Rattle.compiler.specs.Samples.{sample_code, sample_reach, counter_terms};
ghost use Rattle.compiler.specs.Samples.{largest};
ghost use Rattle.compiler.specs.Chosen.{terms_at, held_counters};
ghost use Rattle.compiler.specs.Slots.{slots_in};
ghost use Rattle.compiler.specs.Written.{Writes};

use crate::buffer::CodeBuffer;
use crate::counter::{counter_code, truth_code};
use crate::length_fault::LengthFault;
use crate::slot_table::SlotTable;
use bytecode_programs::SampleInstr;
use expressions::{Counter, Expr};
use std::alloc::{AllocError, Global};

/// Adds the code that sets an atom to the truth of an expression.
pub fn atom_code(
    code: &mut CodeBuffer,
    expr: &Expr,
    atom: u8,
    slots: &SlotTable,
) -> Result<(), AllocError>
    requires near { reach (term_of expr.now) < 65536 }
    ensures { OnOk result (Writes code.old code.new
        (truth_code (slots_in slots.now) (term_of expr.now) ++ SetAtom atom ∷ [])) }
{
    truth_code(code, expr, slots)?;
    code.put(SampleInstr::SetAtom(atom))
}

/// Adds the code that stores the next value of the counter of this place.
pub fn store_code(
    code: &mut CodeBuffer,
    counter: &Counter,
    place: usize,
    store: u8,
    slots: &SlotTable,
) -> Result<(), AllocError>
    requires near { largest reach (counter_terms counter.now) < 65536 }
    ensures { OnOk result (Writes code.old code.new
        (next_code (slots_in slots.now) (record { place = place; counter = counter.now })
        ++ Store store ∷ [])) }
{
    counter_code(code, counter, place, slots)?;
    code.put(SampleInstr::Store(store))
}

/// Adds an atom for each of these expressions.
fn atoms_code(
    code: &mut CodeBuffer,
    booleans: &[Expr],
    places: &[usize],
    slots: &SlotTable,
) -> Result<(), AllocError>
    requires few { length places.now ≤ 255 }
    requires near { largest reach (terms_at booleans.now places.now) < 65536 }
    ensures { OnOk result (Writes code.old code.new
        (atoms_code (slots_in slots.now) 0 (terms_at booleans.now places.now))) }
{
    let mut atom = 0;
    for &place in places {
        let Some(expr) = booleans.get(place) else {
            continue;
        };
        atom_code(code, expr, atom, slots)?;
        atom += 1;
    }
    Ok(())
}

/// Adds a store for each of these counters.
fn stores_code(
    code: &mut CodeBuffer,
    counters: &[Counter],
    places: &[usize],
    slots: &SlotTable,
) -> Result<(), AllocError>
    requires few { length places.now ≤ 255 }
    requires near { largest (λ h. largest reach (counter_terms h.counter))
        (held_counters counters.now places.now) < 65536 }
    ensures { OnOk result (Writes code.old code.new
        (stores_code (slots_in slots.now) 0 (held_counters counters.now places.now))) }
{
    let mut store = 0;
    for &place in places {
        let Some(counter) = counters.get(place) else {
            continue;
        };
        store_code(code, counter, place, store, slots)?;
        store += 1;
    }
    Ok(())
}

/// The sample code of a program: an atom for each expression of `booleans` that `atoms` names by
/// its place, in that order, and a store for each counter of `counters` that `stores` names. A
/// place that isn't there gets no code.
pub fn sample_code(
    alloc: Global,
    booleans: &[Expr],
    atoms: &[usize],
    counters: &[Counter],
    stores: &[usize],
    slots: &SlotTable,
) -> Result<Vec<SampleInstr>, LengthFault>
    requires few_atoms { length atoms.now ≤ 255 }
    requires few_stores { length stores.now ≤ 255 }
    requires near { sample_reach (terms_at booleans.now atoms.now)
        (held_counters counters.now stores.now)
        < 65536 }
    ensures made { IfOk result (λ code. code.items ≡ sample_code (slots_in slots.now)
        (terms_at booleans.now atoms.now) (held_counters counters.now stores.now)) }
    ensures short { IfOk result (λ code. length code.items ≤ 4096) }
    ensures too_long { result ≡ Err LengthFault.TooLong → 4096 < length (sample_code
        (slots_in slots.now) (terms_at booleans.now atoms.now)
        (held_counters counters.now stores.now)) }
{
    let mut code = CodeBuffer::new(alloc);
    atoms_code(&mut code, booleans, atoms, slots)?;
    stores_code(&mut code, counters, stores, slots)?;
    code.put(SampleInstr::Halt)?;
    code.finish()
}
