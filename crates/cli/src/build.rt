//! The call of the command `build`.

ghost use Rattle.std.specs.Prelude.{IfOk, IfErr, MatchOption};
ghost use Rattle.std.specs.List.{AllByRecursion};
ghost use Rattle.vcd_reader.specs.Dump.{Contents};
ghost use Rattle.vcd_reader.specs.Held.{HoldsContents};
ghost use Rattle.compiler.specs.Conditions.{FitsSuite};
ghost use Rattle.cli.specs.Builds.{IsAssertionNamed, LacksName, IsSpelledProgram, WhyNoProgram};
ghost use Rattle.cli.specs.Builds.{IsBuilt, WhyNotBuilt, IsBuiltFrom, WhyBuildRefused, build_of};

use crate::text::{file_of, suite_of};
use assertions::{Assertion, Suite};
use bytecode::encode;
use cli_faults::Fault;
use compiler::compile;
use compiler_laws::suite_law;
use signals::Source;
use std::alloc::Global;
use vcd_reader::{Dump, read_dump};

/// The assertion of this name.
fn assertion_named<'s>(suite: &'s Suite, name: &str) -> Option<&'s Assertion>
    ensures { MatchOption result (LacksName suite.now name.now)
        (λ a. IsAssertionNamed suite.now name.now a.now) }
{
    for assertion in &suite.assertions {
        if assertion.name.as_str() == name {
            return Some(assertion);
        }
    }
    None
}

/// The spelling of the program of the assertion of this name.
fn program_named<'a>(alloc: Global, suite: &Suite, name: &str) -> Result<Vec<u8>, Fault<'a>>
    requires { AllByRecursion (FitsSuite suite.now) suite.now.assertions.items }
    ensures ok { IfOk result (λ bytes. IsSpelledProgram suite.now name.now bytes.items) }
    ensures err { IfErr result (WhyNoProgram suite.now name.now) }
{
    let assertion = match assertion_named(suite, name) {
        Some(assertion) => assertion,
        None => return Err(Fault::NoAssertion(String::from_str(alloc, name)?)),
    };
    let verified = compile(alloc, assertion, suite)?;
    Ok(encode(alloc, verified.program())?)
}

/// The spelling of the program of a text's assertion over a dump.
fn built_over<'a>(
    alloc: Global,
    dump: &Dump,
    text: &'a str,
    name: &str,
) -> Result<Vec<u8>, Fault<'a>>
    requires held { (c : Contents) × HoldsContents dump.now c }
    ensures ok { (c : Contents) → HoldsContents dump.now c
        → IfOk result (λ bytes. IsBuilt c text.entry.now name.now bytes.items) }
    ensures err { (c : Contents) → HoldsContents dump.now c
        → IfErr result (WhyNotBuilt c text.entry.now name.now) }
{
    suite_law();
    let file = file_of(alloc, text)?;
    let suite = suite_of(alloc, dump, &file)?;
    program_named(alloc, &suite, name)
}

/// Compiles the assertion of this name in a text over the dump that a source gives: the bytes of
/// its program, which `run_code` runs over any dump that has its signals.
///
/// # Errors
///
/// What is wrong with the dump (V1 to V8), then with the text (L1 to L3, P1 to P4, Y1 to Y9); N1
/// where no assertion has the name; K1 to K4 where it has no program; and want of memory. The clock
/// is not looked up, so there is no C1 or C2.
///
/// IEEE 1800-2017, clauses 11, 16.5 to 16.9, 16.12 to 16.15; IEEE 1364-2005, clause 18.2.
pub fn build_one<'a, S: Source>(
    alloc: Global,
    source: &mut S,
    text: &'a str,
    name: &str,
) -> Result<Vec<u8>, Fault<'a>>
    ensures built { IfOk result (λ bytes. IsBuiltFrom (build_of text.entry.now name.now
        (S.state source.old) (S.state source.new)) bytes.items) }
    ensures refused { IfErr result (WhyBuildRefused (build_of text.entry.now name.now
        (S.state source.old) (S.state source.new))) }
{
    let dump = read_dump(alloc, source)?;
    built_over(alloc, &dump, text, name)
}
