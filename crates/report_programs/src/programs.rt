//! The programs of all assertions of a suite.

ghost use Rattle.std.specs.Prelude.{IfOk, IfErr};
ghost use Rattle.std.specs.List.{AllByRecursion, AllZip};
ghost use Rattle.compiler.specs.Conditions.{FitsSuite};
ghost use Rattle.report_programs.specs.Faults.{IsMadeOf, WhyNoPrograms};

use crate::fault::LinesFault;
use assertions::Suite;
use compiler::compile;
use std::alloc::Global;
use verifier::Verified;

/// The programs of all assertions of a suite, in their order.
pub(crate) fn programs_of(alloc: Global, suite: &Suite) -> Result<Vec<Verified>, LinesFault>
    requires { AllByRecursion (FitsSuite suite.now) suite.now.assertions.items }
    ensures made { IfOk result (λ ps.
        AllZip (IsMadeOf suite.now) suite.now.assertions.items ps.items) }
    ensures refused { IfErr result (WhyNoPrograms suite.now) }
{
    let mut programs = Vec::new(alloc);
    for assertion in &suite.assertions {
        let verified = compile(alloc, assertion, suite)?;
        programs.push(verified)?;
    }
    Ok(programs)
}
