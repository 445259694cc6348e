//! Assertions without a program.

ghost use Rattle.std.specs.Prelude.{◌≡◌, ◌≢◌, IfOk, IfSome, MatchOption};
ghost use Rattle.std.specs.List.{AllByRecursion};
ghost use Rattle.compiler.specs.declared.fault.CompileFault.TheVariants.{Memory};
ghost use Rattle.compiler.specs.Conditions.{FitsSuite};
ghost use Rattle.compiler.specs.Faults.{WhyNotCompiled};
ghost use Rattle.report_programs.specs.Faults.{HasAcceptedProgram};
ghost use Rattle.lint_refusals.specs.Refused.{IsWithout, IsProgramless};

use assertions::{Assertion, Suite};
use compiler::{CompileFault, compile};
use std::alloc::{AllocError, Global};

/// The first assertion of a suite that has no program, by its place, and why.
#[derive(Clone, Copy)]
pub(crate) struct Programless {
    pub(crate) place: usize,
    pub(crate) fault: CompileFault,
}

/// The fault that stands of an assertion; none where memory ran out.
fn standing(fault: CompileFault) -> Option<CompileFault>
    ensures { IfSome result (λ f. (f ≡ fault) × (f ≢ Memory)) }
{
    match fault {
        CompileFault::TooManyAtoms => Some(CompileFault::TooManyAtoms),
        CompileFault::CodeTooLong => Some(CompileFault::CodeTooLong),
        CompileFault::TooManySlots => Some(CompileFault::TooManySlots),
        CompileFault::TextTooLong => Some(CompileFault::TextTooLong),
        CompileFault::Memory => None,
    }
}

/// Why an assertion has no program, if it has none.
fn fault_of(
    alloc: Global,
    assertion: &Assertion,
    suite: &Suite,
) -> Result<Option<CompileFault>, AllocError>
    requires { FitsSuite suite.now assertion.now }
    ensures { IfOk result (λ r. MatchOption r (HasAcceptedProgram suite.now assertion.now)
        (IsWithout suite.now assertion.now)) }
{
    match compile(alloc, assertion, suite) {
        Ok(_program) => Ok(None),
        Err(fault) => match standing(fault) {
            None => Err(AllocError),
            Some(found) => Ok(Some(found)),
        },
    }
}

/// The first assertion of a suite that has no program, if there is one.
pub(crate) fn first_programless(
    alloc: Global,
    suite: &Suite,
) -> Result<Option<Programless>, AllocError>
    requires { AllByRecursion (FitsSuite suite.now) suite.now.assertions.items }
    ensures { IfOk result (λ r. MatchOption r
        (AllByRecursion (HasAcceptedProgram suite.now) suite.now.assertions.items)
        (λ p. IsProgramless suite.now p.place p.fault)) }
{
    let mut place = 0usize;
    for assertion in &suite.assertions {
        let Some(fault) = fault_of(alloc, assertion, suite)? else {
            place += 1;
            continue;
        };
        return Ok(Some(Programless { place, fault }));
    }
    Ok(None)
}
