//! Programs.

ghost use Rattle.std.specs.Prelude.{IsTrue};
ghost use Rattle.bytecode_programs.specs.Values.{fits_program};
ghost use Rattle.bytecode_programs.specs.Views.{data_from};

use crate::copy::{copy_section, copy_slots};
use crate::limits::Limits;
use crate::sample_instr::SampleInstr;
use crate::section::Section;
use crate::slot::Slot;
use std::alloc::{AllocError, Global};

/// A program for a monitor, which a file can spell.
#[derive(Drop, Debug)]
pub struct Program {
    pub limits: Limits,
    /// The atom that disables, but 255.
    pub disable: Option<u8>,
    /// How many atoms the sample code sets.
    pub atoms: u8,
    /// A word.
    pub name: String,
    /// Words that are joined by dots.
    pub clock: String,
    pub signals: Vec<Slot>,
    /// The counters' widths, 1 to 128.
    pub counters: Vec<u8>,
    pub sample: Vec<SampleInstr>,
    pub antecedent: Section,
    pub consequent: Section,
    pub ghost fits: { IsTrue (fits_program (data_from limits disable atoms name clock signals
        counters sample antecedent consequent)) },
}

impl Program {
    ghost use Rattle.std.specs.Prelude.{◌≡◌, IfOk};
    ghost use Rattle.bytecode_programs.specs.Programs.{data_of};

    /// A copy of the program.
    pub fn copy(&self, alloc: Global) -> Result<Program, AllocError>
        ensures { IfOk result (λ p. data_of p ≡ data_of self.now) }
    {
        let name = String::from_str(alloc, self.name.as_str())?;
        let clock = String::from_str(alloc, self.clock.as_str())?;
        let signals = copy_slots(alloc, self.signals.as_slice())?;
        let counters = Vec::from_slice(alloc, self.counters.as_slice())?;
        let sample = Vec::from_slice(alloc, self.sample.as_slice())?;
        let antecedent = copy_section(alloc, &self.antecedent)?;
        let consequent = copy_section(alloc, &self.consequent)?;
        Ok(Program {
            limits: self.limits,
            disable: self.disable,
            atoms: self.atoms,
            name,
            clock,
            signals,
            counters,
            sample,
            antecedent,
            consequent,
        })
    }
}
