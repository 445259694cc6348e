//! The program of an assertion, before it declares its limits.

ghost use Rattle.std.specs.Prelude.{◌≡◌, ◌+◌, ◌≤◌, length, IfOk, IfErr};
ghost use Rattle.assertions.specs.declared.sequence.Boolean.TheVariants.{One};
ghost use Rattle.assertions.specs.Written.{weight, IsOrdered};
ghost use Rattle.assertions.specs.Shapes.{written_form};
ghost use Rattle.assertions.specs.Listed.{EachBoolean, IsListed, IsListedOption};
ghost use Rattle.assertions.specs.Marks.{places_from, slots_from};
ghost use Rattle.positions.specs.Sequences.{atom_of, largest_place};
ghost use Rattle.positions.specs.Laws.{section_for, led_section};
ghost use Rattle.compiler.specs.Programs.{disabling_atom};
ghost use Rattle.bytecode_programs.specs.Programs.{data_of};
ghost use Rattle.bytecode_programs.specs.Views.{section_data};
ghost use Rattle.verifier.specs.Sections.{instructions_in};
ghost use Rattle.compiler.specs.Conditions.{FitsSuite};
ghost use Rattle.compiler.specs.Readings.{first_counter, code_over};
ghost use Rattle.compiler.specs.Reads.{IsReadingOf};
ghost use Rattle.compiler.specs.Faults.{AreCounted};
ghost use Rattle.compiler.specs.Parts.{AreProgramParts, IsCodeFault, IsSideFault, no_limits};

use crate::fault::CompileFault;
use crate::length_fault::LengthFault;
use crate::reading::Reading;
use crate::sample_code::sample_code;
use crate::slot_table::SlotTable;
use crate::slots::{counter_widths, signal_slots};
use assertions::{Assertion, Boolean, Sequence, Suite, slots_of};
use bytecode_programs::{Limits, Program, SampleInstr, Section};
use positions::{SectionFault, accepting_first, positions_of};
use std::alloc::{AllocError, Global};

/// The slots of the names that are read.
fn table_of(alloc: Global, reading: &Reading) -> Result<SlotTable, AllocError>
    requires signals { reading.now.signal_places.items ≡ places_from 0 reading.now.signals.items }
    requires counters { reading.now.counter_places.items
        ≡ places_from 0 reading.now.counters.items }
    requires few { length reading.now.signal_places.items
        + length reading.now.counter_places.items ≤ 255 }
    ensures signals { IfOk result (λ t.
        t.signals.items ≡ slots_from 1 reading.now.signals.items) }
    ensures counters { IfOk result (λ t. t.counters.items
        ≡ slots_from (first_counter reading.now.signals.items) reading.now.counters.items) }
{
    let first = 1 + reading.signal_places.len() as u16;
    Ok(SlotTable {
        signals: slots_of(alloc, reading.signals.as_slice(), 1)?,
        counters: slots_of(alloc, reading.counters.as_slice(), first)?,
    })
}

/// The sample code of the assertion's booleans and of the counters that it reads.
fn code_of(
    alloc: Global,
    assertion: &Assertion,
    suite: &Suite,
    reading: &Reading,
) -> Result<Vec<SampleInstr>, CompileFault>
    requires fit { FitsSuite suite.now assertion.now }
    requires reading { IsReadingOf suite.now assertion.now reading.now }
    requires atoms { length assertion.now.booleans.items ≤ 127 }
    requires slots { length reading.now.signal_places.items
        + length reading.now.counter_places.items ≤ 255 }
    ensures made { IfOk result (λ code. code.items ≡ code_over suite.now assertion.now
        reading.now.signals.items reading.now.counters.items) }
    ensures short { IfOk result (λ code. length code.items ≤ 4096) }
    ensures fault { IfErr result (IsCodeFault suite.now assertion.now
        reading.now.signals.items reading.now.counters.items) }
{
    let slots = table_of(alloc, reading)?;
    match sample_code(
        alloc,
        suite.booleans.as_slice(),
        assertion.booleans.as_slice(),
        suite.counters.as_slice(),
        reading.counter_places.as_slice(),
        &slots,
    ) {
        Ok(code) => Ok(code),
        Err(LengthFault::TooLong) => Err(CompileFault::CodeTooLong),
        Err(LengthFault::Memory) => Err(CompileFault::Memory),
    }
}

/// The section that follows a side.
fn side_of(alloc: Global, side: &Sequence) -> Result<Section, CompileFault>
    requires ordered { IsOrdered (written_form side.now) }
    requires bound { weight (written_form side.now) ≤ 127 }
    requires listed { EachBoolean (IsListed 127) (written_form side.now) }
    ensures made { IfOk result (λ s.
        section_data s ≡ section_for atom_of One (written_form side.now)) }
    ensures short { IfOk result (λ s. instructions_in (section_data s).blocks ≤ 4096) }
    ensures light { IfOk result (λ s. largest_place (written_form side.now) ≤ 65535) }
    ensures fault { IfErr result (IsSideFault side.now) }
{
    match positions_of(alloc, side) {
        Ok(section) => Ok(section),
        Err(SectionFault::TooLong) => Err(CompileFault::CodeTooLong),
        Err(SectionFault::Memory) => Err(CompileFault::Memory),
    }
}

/// The section that follows the antecedent, each match of it or the first one alone.
fn antecedent_of(alloc: Global, assertion: &Assertion) -> Result<Section, CompileFault>
    requires listed { EachBoolean (IsListed 127) (written_form assertion.now.antecedent) }
    ensures made { IfOk result (λ s. section_data s
        ≡ led_section assertion.now.first atom_of One (written_form assertion.now.antecedent)) }
    ensures short { IfOk result (λ s. instructions_in (section_data s).blocks ≤ 4096) }
    ensures light { IfOk result (λ s.
        largest_place (written_form assertion.now.antecedent) ≤ 65535) }
    ensures fault { IfErr result (IsSideFault assertion.now.antecedent) }
{
    let section = side_of(alloc, &assertion.antecedent)?;
    if assertion.first {
        Ok(accepting_first(alloc, &section)?)
    } else {
        Ok(section)
    }
}

/// The atom of the disabling boolean, if there is one.
fn disabling_atom(boolean: Option<Boolean>) -> Option<u8>
    requires { IsListedOption 127 boolean }
    ensures { result ≡ disabling_atom boolean }
{
    match boolean {
        None => None,
        Some(Boolean::One) => None,
        Some(Boolean::Listed(place)) => Some(place as u8),
    }
}

/// No limits yet.
fn undeclared_limits() -> Limits
    ensures { result ≡ no_limits }
{
    Limits {
        history: 0,
        stack: 0,
        attempts: 0,
        obligations: 0,
        budget: 0,
    }
}

/// The program of an assertion that reads these signals and counters, without limits.
pub(crate) fn program_of(
    alloc: Global,
    assertion: &Assertion,
    suite: &Suite,
    reading: &Reading,
) -> Result<Program, CompileFault>
    requires fit { FitsSuite suite.now assertion.now }
    requires reading { IsReadingOf suite.now assertion.now reading.now }
    requires counted { AreCounted suite.now assertion.now reading.now.signals.items
        reading.now.counters.items }
    ensures made { IfOk result (λ p. AreProgramParts suite.now assertion.now
        reading.now.signals.items reading.now.counters.items (data_of p)) }
    ensures fault { IfErr result (IsCodeFault suite.now assertion.now
        reading.now.signals.items reading.now.counters.items) }
{
    let sample = code_of(alloc, assertion, suite, reading)?;
    let antecedent = antecedent_of(alloc, assertion)?;
    let consequent = side_of(alloc, &assertion.consequent)?;
    Ok(Program {
        limits: undeclared_limits(),
        disable: disabling_atom(assertion.disabling),
        atoms: assertion.booleans.len() as u8,
        name: String::from_str(alloc, assertion.name.as_str())?,
        clock: String::from_str(alloc, suite.clock.as_str())?,
        signals: signal_slots(
            alloc,
            suite.names.as_slice(),
            reading.signal_places.as_slice(),
        )?,
        counters: counter_widths(
            alloc,
            suite.counters.as_slice(),
            reading.counter_places.as_slice(),
        )?,
        sample,
        antecedent,
        consequent,
    })
}
