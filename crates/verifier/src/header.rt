//! The header's faults.

ghost use Rattle.std.specs.Prelude.{◌≡◌, ◌++◌, List, length};
ghost use Rattle.verifier.specs.declared.refusal.Refusal.{Refusal};
ghost use Rattle.verifier.specs.Order.{first_refusal};
ghost use Rattle.verifier.specs.Sections.{instructions_in};
ghost use Rattle.bytecode_programs.specs.Instructions.{frame_of};
ghost use Rattle.bytecode_programs.specs.Programs.{data_of};
ghost use Rattle.bytecode_programs.specs.Views.{section_data};
ghost use Rattle.verifier.specs.Programs.{disable_faults, over, header_refusals};

use crate::field::Field;
use crate::refusal::Refusal;
use crate::section_scan::capped_size;
use bytecode_programs::{Program, Section};

/// The fault of a disabling atom that isn't there.
fn disable_fault(disable: Option<u8>, atoms: u8) -> Option<Refusal>
    ensures { result ≡ first_refusal (disable_faults disable atoms) }
{
    match disable {
        None => None,
        Some(atom) => {
            if atom < atoms {
                None
            } else {
                Some(Refusal::SlotRange(0))
            }
        }
    }
}

/// The fault that was found, or else that of a number over the most that there may be.
fn or_over(first: Option<Refusal>, most: usize, number: usize, field: Field) -> Option<Refusal>
    ensures { (rs : List Refusal) → first ≡ first_refusal rs →
        result ≡ first_refusal (rs ++ over most number field) }
{
    match first {
        Some(refusal) => Some(refusal),
        None => {
            if number > most {
                Some(Refusal::LimitTooLarge(field))
            } else {
                None
            }
        }
    }
}

/// The fault that was found, or else that of a part's code that is over the most.
fn or_over_size(first: Option<Refusal>, section: &Section, field: Field) -> Option<Refusal>
    ensures { (rs : List Refusal) → first ≡ first_refusal rs →
        result ≡ first_refusal
        (rs ++ over 4096 (instructions_in (section_data section.now).blocks) field) }
{
    or_over(first, 4096, capped_size(&section.blocks), field)
}

/// How many slots a program has: the constant 1, the signals and the counters.
fn slot_count(program: &Program) -> usize
    ensures { result ≡ length (frame_of (data_of program.now)).slots }
{
    1 + program.signals.len() + program.counters.len()
}

/// The first fault of the header.
pub(crate) fn header_fault(program: &Program) -> Option<Refusal>
    ensures { result ≡ first_refusal (header_refusals (data_of program.now)) }
{
    let first = disable_fault(program.disable, program.atoms);
    let first = or_over(first, 4096, program.limits.history as usize, Field::History);
    let first = or_over(first, 1024, program.limits.stack as usize, Field::Stack);
    let first = or_over(
        first,
        1024,
        program.limits.attempts as usize,
        Field::Attempts,
    );
    let first = or_over(
        first,
        1024,
        program.limits.obligations as usize,
        Field::Obligations,
    );
    let first = or_over(
        first,
        16_777_216,
        program.limits.budget as usize,
        Field::Budget,
    );
    let first = or_over(first, 127, program.atoms as usize, Field::Atoms);
    let first = or_over(first, 256, slot_count(program), Field::Slots);
    let first = or_over(first, 4096, program.sample.len(), Field::Sample);
    let first = or_over(
        first,
        127,
        program.antecedent.blocks.len(),
        Field::AntecedentPositions,
    );
    let first = or_over_size(first, &program.antecedent, Field::AntecedentCode);
    let first = or_over(
        first,
        127,
        program.consequent.blocks.len(),
        Field::ConsequentPositions,
    );
    or_over_size(first, &program.consequent, Field::ConsequentCode)
}
