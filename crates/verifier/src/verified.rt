//! Programs that were accepted.

use crate::least::LeastLimits;
use bytecode_programs::{Limits, Program};
use std::alloc::{AllocError, Global};
use std::marker::Model;

/// A program that `verify` accepted; a contract sees what it says.
#[derive(Drop, Debug)]
pub struct Verified {
    pub(crate) program: Program,
    pub(crate) least: LeastLimits,
}

impl Model for Verified {
    ghost use Rattle.bytecode_programs.specs.Values.{ProgramData};
    ghost use Rattle.bytecode_programs.specs.Programs.{data_of};
    ghost use Rattle.verifier.specs.Programs.{IsVerified};

    ghost Value = { ProgramData };

    ghost view = { λ v. data_of v.program };

    ghost invariant = { λ v. IsVerified (data_of v.program) v.least };
}

impl Verified {
    ghost use Rattle.std.specs.Prelude.{◌≡◌, IfOk};
    ghost use Rattle.bytecode_programs.specs.Programs.{data_of};
    ghost use Rattle.verifier.specs.Limits.{start_life};
    ghost use Rattle.verifier.specs.Programs.{least_limits, IsAccepted};

    /// The program.
    pub fn program(&self) -> &Program
        ensures same { data_of result.now ≡ self.now }
        ensures accepted { IsAccepted self.now }
    {
        &self.program
    }

    /// The limits that it declares.
    pub fn limits(&self) -> Limits
        ensures { result ≡ self.now.header.limits }
    {
        self.program.limits
    }

    /// The least limits that serve it.
    pub fn least_limits(&self) -> LeastLimits
        ensures { result ≡ least_limits self.now }
    {
        self.least
    }

    /// The largest lives of the start sets of its antecedent and of its consequent, in ticks.
    pub fn lives(&self) -> (u16, u16)
        ensures antecedent { result.0 ≡ start_life self.now.antecedent }
        ensures consequent { result.1 ≡ start_life self.now.consequent }
    {
        let LeastLimits {
            attempts,
            obligations,
            ..
        } = self.least;
        ((attempts + 1 - obligations) as u16, obligations as u16)
    }

    /// A copy of the verified program.
    pub fn copy(&self, alloc: Global) -> Result<Verified, AllocError>
        ensures { IfOk result (λ copied. copied ≡ self.now) }
    {
        Ok(Verified {
            program: self.program.copy(alloc)?,
            least: self.least,
        })
    }
}
