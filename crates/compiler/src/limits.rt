//! The limits of a program.

ghost use Rattle.std.specs.Prelude.{◌≡◌, IfOk};
ghost use Rattle.verifier.specs.declared.refusal.Refusal.{Refusal};
ghost use Rattle.bytecode_programs.specs.Programs.{data_of};
ghost use Rattle.verifier.specs.Programs.{IsWellFormed, HasRoom, least_limits};
ghost use Rattle.compiler.specs.Parts.{AreModest, no_limits, declared_from, with_limits};

use bytecode_programs::{Limits, Program};
use std::alloc::{AllocError, Global};
use verifier::{LeastLimits, Refusal, Verified, least_limits, verify};

/// The refusal of a program that has no fault.
fn want_of_memory(refusal: Refusal) -> AllocError
    requires { refusal ≡ Refusal.Memory }
{
    match refusal {
        Refusal::Memory => AllocError,
        _ => unreachable!(),
    }
}

/// The least limits, declared.
fn declared_limits(least: LeastLimits) -> Limits
    requires { AreModest least }
    ensures { result ≡ declared_from least }
{
    Limits {
        history: least.history as u16,
        stack: least.stack as u16,
        attempts: least.attempts as u16,
        obligations: least.obligations as u16,
        budget: least.budget as u32,
    }
}

/// The program with these limits declared.
fn declaring_program(program: Program, least: LeastLimits) -> Program
    requires { AreModest least }
    ensures { data_of result ≡ with_limits (data_of program) (declared_from least) }
{
    let Program {
        disable,
        atoms,
        name,
        clock,
        signals,
        counters,
        sample,
        antecedent,
        consequent,
        ..
    } = program;
    Program {
        limits: declared_limits(least),
        disable,
        atoms,
        name,
        clock,
        signals,
        counters,
        sample,
        antecedent,
        consequent,
    }
}

/// The least limits of a program that has no fault.
fn least_of(alloc: Global, program: &Program) -> Result<LeastLimits, AllocError>
    requires formed { IsWellFormed (data_of program.now) }
    requires room { HasRoom (data_of program.now) }
    ensures { IfOk result (λ least. least ≡ least_limits (data_of program.now)) }
{
    // An arm knows that it is want of memory, as `want_of_memory` asks; a `From` can't ask it.
    match least_limits(alloc, program) {
        Ok(least) => Ok(least),
        Err(refusal) => Err(want_of_memory(refusal)),
    }
}

/// A program that has no fault, accepted with the least limits that serve it.
pub(crate) fn accepted_program(alloc: Global, program: Program) -> Result<Verified, AllocError>
    requires formed { IsWellFormed (data_of program) }
    requires room { HasRoom (data_of program) }
    requires modest { AreModest (least_limits (data_of program)) }
    ensures { IfOk result (λ verified. verified
        ≡ with_limits (data_of program) (declared_from (least_limits (data_of program)))) }
{
    let least = least_of(alloc, &program)?;
    // An arm knows that it is want of memory, as `want_of_memory` asks; a `From` can't ask it.
    match verify(alloc, declaring_program(program, least)) {
        Ok(verified) => Ok(verified),
        Err(refusal) => Err(want_of_memory(refusal)),
    }
}
