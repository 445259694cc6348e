//! Sample code that is being made.

ghost use Rattle.std.specs.Prelude.{◌≡◌, [], ◌∷◌, Some, OnOk};
ghost use Rattle.std.specs.Prelude.{is_none, MatchOption, IsOkAnd};
ghost use Rattle.compiler.specs.Written.{Writes};

use crate::length_fault::LengthFault;
use bytecode_programs::SampleInstr;
use std::alloc::{AllocError, Global};
use std::marker::Model;

/// The most instructions that sample code may have.
const MOST: usize = 4096;

/// Sample code that is being made: to its users its instructions, or none where they would be over
/// 4,096. Nothing after those is kept, so it may be asked to hold any number of them.
#[derive(Drop)]
pub struct CodeBuffer {
    instructions: Vec<SampleInstr>,
    is_long: bool,
}

impl Model for CodeBuffer {
    ghost use Rattle.std.specs.Prelude.{if◌then◌else◌, List, Option, Some, None};
    ghost use Rattle.bytecode_programs.specs.declared.sample_instr.SampleInstr.{SampleInstr};

    ghost Value = { Option (List SampleInstr) };

    ghost view = { λ b. if b.is_long then None else Some b.instructions.items };
}

impl CodeBuffer {
    /// No instruction.
    pub fn new(alloc: Global) -> CodeBuffer
        ensures { result ≡ Some [] }
    {
        CodeBuffer {
            instructions: Vec::new(alloc),
            is_long: false,
        }
    }

    /// Whether there would be over 4,096 instructions.
    pub fn is_long(&self) -> bool
        ensures { result ≡ is_none self.now }
    {
        self.is_long
    }

    /// One instruction more.
    pub fn put(&mut self, instr: SampleInstr) -> Result<(), AllocError>
        ensures { OnOk result (Writes self.old self.new (instr ∷ [])) }
    {
        if self.is_long {
            return Ok(());
        }
        if self.instructions.len() >= MOST {
            self.is_long = true;
            return Ok(());
        }
        self.instructions.push(instr)?;
        Ok(())
    }

    /// The instructions.
    pub fn finish(self) -> Result<Vec<SampleInstr>, LengthFault>
        ensures { MatchOption self (result ≡ Err LengthFault.TooLong)
            (λ code. IsOkAnd result (λ made. made.items ≡ code)) }
    {
        if self.is_long {
            return Err(LengthFault::TooLong);
        }
        Ok(self.instructions)
    }
}
