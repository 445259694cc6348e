//! Programs of assertions.

ghost use Rattle.std.specs.Prelude.{◌≡◌, IfOk, IfErr, MatchOption};
ghost use Rattle.compiler.specs.Conditions.{FitsSuite};
ghost use Rattle.compiler.specs.Reads.{IsReadingOf};
ghost use Rattle.compiler.specs.Faults.{WhyNotCompiled, AreCounted, IsCountFault, HasNoFault};
ghost use Rattle.compiler.specs.Parts.{declared_from};
ghost use Rattle.compiler.specs.Programs.{IsProgramOf};
ghost use Rattle.verifier.specs.Programs.{IsAccepted, least_limits};

use crate::fault::CompileFault;
use crate::limits::accepted_program;
use crate::program::program_of;
use crate::reading::Reading;
use crate::texts::has_long_text;
use assertions::{Assertion, Suite};
use std::alloc::Global;
use verifier::Verified;

/// The first fault of what an assertion has and reads, in the order K1, K3, K4.
fn count_fault(assertion: &Assertion, suite: &Suite, reading: &Reading) -> Option<CompileFault>
    requires { IsReadingOf suite.now assertion.now reading.now }
    ensures { MatchOption result
        (AreCounted suite.now assertion.now reading.now.signals.items reading.now.counters.items)
        (IsCountFault suite.now assertion.now reading.now.signals.items
        reading.now.counters.items) }
{
    if assertion.booleans.len() > 127 {
        return Some(CompileFault::TooManyAtoms);
    }
    if reading.slot_count() > 256 {
        return Some(CompileFault::TooManySlots);
    }
    if has_long_text(assertion, suite, reading.signal_places.as_slice()) {
        return Some(CompileFault::TextTooLong);
    }
    None
}

/// The program of an assertion of a suite, verified, with the least limits that serve it.
///
/// Over any rows of the suite's signals a machine of the program decides each attempt with the
/// assertion's verdict, at the verdict's clock, and the attempts that stay live are the open ones.
///
/// # Errors
///
/// The first of K1 TooManyAtoms, K3 TooManySlots, K4 TextTooLong and K2 CodeTooLong; and want of
/// memory.
///
/// IEEE 1800-2017, 16.12.
pub fn compile(
    alloc: Global,
    assertion: &Assertion,
    suite: &Suite,
) -> Result<Verified, CompileFault>
    requires { FitsSuite suite.now assertion.now }
    ensures made { IfOk result (IsProgramOf suite.now assertion.now) }
    ensures accepted { IfOk result IsAccepted }
    ensures least { IfOk result (λ p. p.header.limits ≡ declared_from (least_limits p)) }
    ensures faultless { IfOk result (λ _. HasNoFault suite.now assertion.now) }
    ensures refused { IfErr result (WhyNotCompiled suite.now assertion.now) }
{
    let reading = Reading::of(alloc, assertion, suite)?;
    if let Some(fault) = count_fault(assertion, suite, &reading) {
        return Err(fault);
    }
    let program = program_of(alloc, assertion, suite, &reading)?;
    Ok(accepted_program(alloc, program)?)
}
