//! Notes on what the report says.

ghost use Rattle.std.specs.List.{AllByRecursion};
ghost use Rattle.vcd_reader.specs.Held.{variables_of};
ghost use Rattle.cycle_window.specs.Held.{AreClocksOf};
ghost use Rattle.compiler.specs.Conditions.{FitsSuite};
ghost use Rattle.report_programs.specs.Lines.{IsWatched};

use crate::accepted::{Accepted, push_all};
use assertions::Suite;
use cycle_window::{Clocks, WindowSize};
use lint_notes::{Head, Note, heads_of, idle_notes};
use report_lines::Line;
use report_programs::{LinesFault, lines_of};
use std::alloc::{AllocError, Global};
use vcd_reader::Dump;

/// The lines of a suite's report; none where it can't be had.
fn lines_over(
    alloc: Global,
    dump: Dump,
    clocks: Clocks,
    suite: &Suite,
) -> Result<Vec<Line>, AllocError>
    requires clocks { AreClocksOf dump clocks }
    requires watched { AllByRecursion (IsWatched (variables_of dump)) suite.now.names.items }
    requires fit { AllByRecursion (FitsSuite suite.now) suite.now.assertions.items }
{
    match lines_of(alloc, dump, clocks, suite, WindowSize::usual()) {
        Ok(lines) => Ok(lines),
        Err(LinesFault::Memory) => Err(AllocError),
        Err(_) => Ok(Vec::new(alloc)),
    }
}

/// The most assertions that `check` takes.
const MOST_ASSERTIONS: usize = 4096;

/// Adds what is told where there are more assertions than `check` takes.
fn push_count(alloc: Global, notes: &mut Vec<Note>, heads: &[Head]) -> Result<(), AllocError> {
    if let Some(head) = heads.get(MOST_ASSERTIONS) {
        let message = "U3 BadJob: check takes at most 4,096 assertions, and this is one too many";
        notes.push(Note {
            number: 8,
            at: head.at,
            message: String::from_str(alloc, message)?,
        })?;
    }
    Ok(())
}

/// Adds the notes of assertions that no attempt tried, by the report on all of them, and that of
/// their number.
pub(crate) fn push_judged(
    alloc: Global,
    notes: &mut Vec<Note>,
    dump: Dump,
    clocks: Clocks,
    accepted: &Accepted<'_, '_>,
) -> Result<(), AllocError>
    requires clocks { AreClocksOf dump clocks }
    requires watched { AllByRecursion (IsWatched (variables_of dump))
        accepted.now.suite.now.names.items }
    requires fit { AllByRecursion (FitsSuite accepted.now.suite.now)
        accepted.now.suite.now.assertions.items }
{
    let lines = lines_over(alloc, dump, clocks, accepted.suite)?;
    let heads = heads_of(alloc, accepted.file)?;
    push_count(alloc, notes, heads.as_slice())?;
    push_all(
        notes,
        idle_notes(alloc, heads.as_slice(), lines.as_slice())?,
    )
}
