//! Explanations, as values.

ghost use Rattle.std.specs.Prelude.{◌≡◌, ◌<◌, ◌≤◌, ◌+◌, IfOk, length, map, Some, slice_get};
ghost use Rattle.std.specs.List.{AllByRecursion};
ghost use Rattle.expressions.specs.Rows.{HasCounts};
ghost use Rattle.assertions.specs.Shapes.{shape};
ghost use Rattle.assertions.specs.Verdicts.{antecedent_of};
ghost use Rattle.judging.specs.Causes.{IsCause};
ghost use Rattle.judging.specs.Courses.{value_over};
ghost use Rattle.report_lines.specs.Lines.{line};
ghost use Rattle.report_suites.specs.Judged.{AreLinesOver};
ghost use Rattle.report_explained.specs.Explained.{IsReason, IsExplained, AreExplained};
ghost use Rattle.report_explained.specs.Explained.{choice_of, counters_of};
ghost use Rattle.report_explained.specs.Failed.{HasFailed, IsOfFailed};

use crate::arrow::{Arrow, arrow_of};
use crate::asked::Attempt;
use crate::cells::Read;
use crate::choices::{Choice, choices_of};
use crate::selection::Wanted;
use crate::sheet::{Sheet, sheet_of};
use assertions::{Assertion, Suite};
use expressions::Rows;
use judging::{Cause, cause_of};
use report_lines::{Failure, Line};
use std::alloc::{AllocError, Global};

/// Why an attempt failed, and the values that it saw.
#[derive(Drop)]
pub struct Reason {
    pub cause: Cause,
    pub sheet: Sheet,
}

/// A failed attempt, the place of its assertion in the suite and in the report, and why it failed.
#[derive(Drop)]
pub struct Explanation {
    pub place: usize,
    pub failure: Failure,
    /// What stands between the assertion's sides.
    pub arrow: Arrow,
    pub reason: Reason,
}

/// A suite, the rows that it was judged over, and what counters are called, in the suite's order.
#[derive(Clone, Copy)]
pub struct Judged<'a> {
    pub suite: &'a Suite,
    pub rows: &'a Rows,
    pub counters: &'a [&'a str],
}

/// The clock after the one at which an attempt was decided.
fn end_of(judged: &Judged<'_>, failure: &Failure) -> usize
    requires { failure.now.clock < length judged.now.rows.now.signals }
    ensures { result ≡ failure.now.clock + 1 }
{
    let ticks = judged.rows.signals.len();
    let clock = failure.clock as usize;
    prove!(clock < ticks);
    clock + 1
}

/// Why an attempt failed, with this cause.
fn reason_with(
    alloc: Global,
    judged: &Judged<'_>,
    assertion: &Assertion,
    failure: &Failure,
    cause: Cause,
) -> Result<Reason, AllocError>
    requires seen { failure.now.clock < length judged.now.rows.now.signals }
    requires cause { IsCause (value_over judged.now.suite.now judged.now.rows.now assertion.now)
        (antecedent_of assertion.now) (shape assertion.now.consequent) (failure.now.clock + 1)
        failure.now.start cause }
    ensures { IfOk result (IsReason judged.now.suite.now (counters_of judged.now)
        judged.now.rows.now assertion.now failure.now) }
{
    let attempt = Attempt {
        start: failure.start as usize,
        broken: cause.broken,
        end: end_of(judged, failure),
    };
    let read = Read {
        assertion,
        attempt,
        suite: judged.suite,
        rows: judged.rows,
    };
    let sheet = sheet_of(alloc, &read, judged.counters)?;
    Ok(Reason { cause, sheet })
}

/// Why an attempt of an assertion failed.
fn reason_of(
    alloc: Global,
    judged: &Judged<'_>,
    assertion: &Assertion,
    failure: &Failure,
) -> Result<Reason, AllocError>
    requires { HasFailed judged.now.suite.now judged.now.rows.now assertion.now failure.now }
    ensures { IfOk result (IsReason judged.now.suite.now (counters_of judged.now)
        judged.now.rows.now assertion.now failure.now) }
{
    let start = failure.start as usize;
    let end = end_of(judged, failure);
    match cause_of(alloc, assertion, judged.suite, judged.rows, start, end)? {
        None => unreachable!(),
        Some(cause) => reason_with(alloc, judged, assertion, failure, cause),
    }
}

/// The explanation of a failed attempt.
fn explanation_of(
    alloc: Global,
    judged: &Judged<'_>,
    choice: &Choice,
) -> Result<Explanation, AllocError>
    requires { IsOfFailed judged.now.suite.now judged.now.rows.now choice.now }
    ensures is { IfOk result (λ e. choice_of e ≡ choice.now) }
    ensures says { IfOk result (IsExplained judged.now.suite.now (counters_of judged.now)
        judged.now.rows.now) }
{
    let assertion = &judged.suite.assertions[choice.place];
    let reason = reason_of(alloc, judged, assertion, &choice.failure)?;
    Ok(Explanation {
        place: choice.place,
        failure: choice.failure,
        arrow: arrow_of(assertion),
        reason,
    })
}

/// The explanations of failed attempts, in their order.
fn explanations_of(
    alloc: Global,
    judged: &Judged<'_>,
    choices: &[Choice],
) -> Result<Vec<Explanation>, AllocError>
    requires { AllByRecursion (IsOfFailed judged.now.suite.now judged.now.rows.now) choices.now }
    ensures are { IfOk result (λ es. map choice_of es.items ≡ choices.now) }
    ensures say { IfOk result (λ es. AllByRecursion (IsExplained judged.now.suite.now
        (counters_of judged.now) judged.now.rows.now) es.items) }
{
    let mut explanations = Vec::with_capacity(alloc, choices.len())?;
    for choice in choices {
        explanations.push(explanation_of(alloc, judged, choice)?)?;
    }
    Ok(explanations)
}

/// The explanations of those failed attempts of a report's lines that are asked for.
///
/// # Errors
///
/// Want of memory alone.
pub fn explain(
    alloc: Global,
    judged: &Judged<'_>,
    lines: &[Line],
    wanted: &Wanted<'_>,
) -> Result<Vec<Explanation>, AllocError>
    requires counted { HasCounts judged.now.suite.now.counters.items judged.now.rows.now }
    requires judged { AreLinesOver judged.now.suite.now judged.now.rows.now.signals
        judged.now.suite.now.assertions.items (map line lines.now) }
    ensures { IfOk result (λ es. AreExplained judged.now.suite.now (counters_of judged.now)
        judged.now.rows.now wanted.now lines.now es.items) }
{
    let choices = choices_of(alloc, wanted, lines)?;
    let explanations = explanations_of(alloc, judged, choices.as_slice())?;
    Ok(explanations)
}
