//! What sample code may name.

use bytecode_programs::Program;
use std::alloc::{AllocError, Global};

/// The widths of the slots (the constant's bit, the signals, the counters) and of the counters, and
/// the number of atoms.
#[derive(Drop, Debug)]
pub struct Frame {
    pub slots: Vec<u8>,
    pub counters: Vec<u8>,
    pub atoms: u8,
}

impl Frame {
    ghost use Rattle.std.specs.Prelude.{◌≡◌, IfOk};
    ghost use Rattle.bytecode_programs.specs.Instructions.{frame_of};
    ghost use Rattle.bytecode_programs.specs.Programs.{data_of};
    ghost use Rattle.verifier.specs.Views.{frame_data};

    /// That of a program.
    pub fn of(alloc: Global, program: &Program) -> Result<Frame, AllocError>
        ensures { IfOk result (λ frame. frame_data frame ≡ frame_of (data_of program.now)) }
    {
        let mut slots = Vec::new(alloc);
        slots.push(1)?;
        for slot in &program.signals {
            slots.push(slot.width)?;
        }
        slots.extend_from_slice(program.counters.as_slice())?;
        let counters = Vec::from_slice(alloc, program.counters.as_slice())?;
        Ok(Frame {
            slots,
            counters,
            atoms: program.atoms,
        })
    }
}
