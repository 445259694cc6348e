//! What is told of a failed attempt.

ghost use Rattle.std.specs.Prelude.{◌≡◌, ◌<◌, IfOk, length};
ghost use Rattle.std.specs.List.{AllByRecursion, AllZip};
ghost use Rattle.report_lines.specs.Lines.{line};
ghost use Rattle.report_explained.specs.Told.{IsToldBy, IsToldOf, StandsAt, HasLine};

use crate::arrow::Arrow;
use crate::explanation::Explanation;
use crate::sheet::Sheet;
use report_lines::{Failure, Line};
use std::alloc::{AllocError, Global};

/// Where an assertion stands: the path of its text, and the line and the column there, from 1.
#[derive(Clone, Copy)]
pub struct Standing<'a> {
    pub path: &'a str,
    pub line: u64,
    pub column: u64,
}

/// A failed attempt, and what is told of it.
#[derive(Clone, Copy)]
pub struct FailedAttempt<'a> {
    /// The assertion's name.
    pub name: &'a str,
    /// Where the assertion stands.
    pub standing: Standing<'a>,
    /// How many attempts of the assertion failed.
    pub failed: u64,
    pub failure: Failure,
    /// What stands between the assertion's sides.
    pub arrow: Arrow,
    /// The clocks from which the consequent was asked, and the one from which it is broken.
    pub ends: &'a [usize],
    pub broken: usize,
    /// The values that the attempt saw.
    pub sheet: &'a Sheet,
}

/// What is told of an explained attempt, whose assertion has this line and stands there.
fn told_by<'a>(
    line: &'a Line,
    explanation: &'a Explanation,
    standing: Standing<'a>,
) -> FailedAttempt<'a>
    ensures told { IsToldBy line.entry.now explanation.entry.now result }
    ensures stands { StandsAt standing.entry result }
{
    FailedAttempt {
        name: line.name.as_str(),
        standing,
        failed: line.counts.fails,
        failure: explanation.failure,
        arrow: explanation.arrow,
        ends: explanation.reason.cause.ends.as_slice(),
        broken: explanation.reason.cause.broken,
        sheet: &explanation.reason.sheet,
    }
}

/// What is told of the attempts that are explained: the names and counts are those of a report's
/// lines, and the assertion of each explanation stands at the place that is given for it.
///
/// # Errors
///
/// Want of memory alone.
pub fn told_of<'a>(
    alloc: Global,
    lines: &'a [Line],
    explanations: &'a [Explanation],
    standings: &[Standing<'a>],
) -> Result<Vec<FailedAttempt<'a>>, AllocError>
    requires lines { AllByRecursion (HasLine lines.now) explanations.now }
    requires standings { length standings.now ≡ length explanations.now }
    ensures told { IfOk result (λ told.
        AllZip (IsToldOf lines.entry.now) explanations.entry.now told.items) }
    ensures stand { IfOk result (λ told. AllZip StandsAt standings.now told.items) }
{
    let mut told = Vec::with_capacity(alloc, explanations.len())?;
    for place in 0..explanations.len() {
        let explanation = &explanations[place];
        let line = &lines[explanation.place];
        told.push(told_by(line, explanation, standings[place]))?;
    }
    Ok(told)
}
