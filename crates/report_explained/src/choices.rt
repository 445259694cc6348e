//! Which failed attempts of a report are explained.

ghost use Rattle.std.specs.Prelude.{◌≡◌, ◌++◌, IfOk, OnOk, filter, map, take};
ghost use Rattle.report_explained.specs.Chosen.{begins_at, choice_at, chosen_in, chosen_from};

use crate::selection::Wanted;
use report_lines::{Failure, Line};
use std::alloc::{AllocError, Global};

/// A failed attempt, and the place of its assertion in the report.
#[derive(Clone, Copy)]
pub struct Choice {
    pub place: usize,
    pub failure: Failure,
}

/// The failed attempts that began when it is asked.
fn begun_when(
    alloc: Global,
    wanted: &Wanted<'_>,
    fails: &[Failure],
) -> Result<Vec<Failure>, AllocError>
    ensures { IfOk result (λ begun.
        begun.items ≡ filter (begins_at wanted.now.start) fails.now) }
{
    let mut begun = Vec::new(alloc);
    for failure in fails {
        if wanted.has_start(failure) {
            begun.push(*failure)?;
        }
    }
    Ok(begun)
}

/// At most so many.
fn at_most(most: u64, fails: &[Failure]) -> &[Failure]
    ensures { result.now ≡ take most fails.now }
{
    if fails.len() as u64 <= most {
        fails
    } else {
        &fails[..most as usize]
    }
}

/// Adds failed attempts of the assertion at a place.
fn push_choices(
    choices: &mut Vec<Choice>,
    place: usize,
    fails: &[Failure],
) -> Result<(), AllocError>
    ensures { OnOk result
        (choices.new.items ≡ choices.old.items ++ map (choice_at place) fails.now) }
{
    for failure in fails {
        choices.push(Choice {
            place,
            failure: *failure,
        })?;
    }
    Ok(())
}

/// Adds those of an assertion that are asked for.
fn push_wanted(
    alloc: Global,
    choices: &mut Vec<Choice>,
    wanted: &Wanted<'_>,
    place: usize,
    of: &Line,
) -> Result<(), AllocError>
    ensures { OnOk result
        (choices.new.items ≡ choices.old.items ++ chosen_in wanted.now place of.now) }
{
    if !wanted.has_assertion(of.name.as_str()) {
        return Ok(());
    }
    let begun = begun_when(alloc, wanted, of.fails.as_slice())?;
    push_choices(choices, place, at_most(wanted.most, begun.as_slice()))
}

/// The failed attempts that are asked for, by assertion, then in the report's order.
pub(crate) fn choices_of(
    alloc: Global,
    wanted: &Wanted<'_>,
    lines: &[Line],
) -> Result<Vec<Choice>, AllocError>
    ensures { IfOk result (λ choices. choices.items ≡ chosen_from wanted.now 0 lines.now) }
{
    let mut choices = Vec::new(alloc);
    for place in 0..lines.len() {
        push_wanted(alloc, &mut choices, wanted, place, &lines[place])?;
    }
    Ok(choices)
}
