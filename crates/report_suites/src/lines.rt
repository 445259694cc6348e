//! The lines of a report: the verdicts on all attempts of all assertions.

ghost use Rattle.std.specs.Prelude.{IfOk, map};
ghost use Rattle.expressions.specs.Rows.{HasCounts};
ghost use Rattle.report_lines.specs.Lines.{line};
ghost use Rattle.report_suites.specs.Judged.{AreVerdictsOver, IsJudgedLine, AreLinesOver};

use assertions::{Assertion, Suite};
use judging::{Rows, judge};
use report_lines::Line;
use signals::Verdict;
use std::alloc::{AllocError, Global};

/// The verdict on the attempt at each tick, in order.
fn verdicts_of(
    alloc: Global,
    assertion: &Assertion,
    suite: &Suite,
    rows: &Rows,
) -> Result<Vec<Verdict>, AllocError>
    requires { HasCounts suite.now.counters.items rows.now }
    ensures { IfOk result (λ v. AreVerdictsOver suite.now rows.now.signals assertion.now v.items) }
{
    let ticks = rows.signals.len();
    let mut verdicts = Vec::with_capacity(alloc, ticks)?;
    for tick in 0..ticks {
        verdicts.push(judge(alloc, assertion, suite, rows, tick)?)?;
    }
    Ok(verdicts)
}

/// The line of an assertion.
fn line_of(
    alloc: Global,
    assertion: &Assertion,
    suite: &Suite,
    rows: &Rows,
) -> Result<Line, AllocError>
    requires { HasCounts suite.now.counters.items rows.now }
    ensures { IfOk result (λ l. IsJudgedLine suite.now rows.now.signals assertion.now (line l)) }
{
    let verdicts = verdicts_of(alloc, assertion, suite, rows)?;
    let name = String::from_str(alloc, assertion.name.as_str())?;
    Line::new(alloc, name, verdicts.as_slice())
}

/// The lines of all assertions, in the order of the text.
pub(crate) fn lines_of(alloc: Global, suite: &Suite, rows: &Rows) -> Result<Vec<Line>, AllocError>
    requires { HasCounts suite.now.counters.items rows.now }
    ensures { IfOk result (λ ls. AreLinesOver suite.now rows.now.signals suite.now.assertions.items
        (map line ls.items)) }
{
    let mut lines = Vec::new(alloc);
    for assertion in &suite.assertions {
        let line = line_of(alloc, assertion, suite, rows)?;
        lines.push(line)?;
    }
    Ok(lines)
}
