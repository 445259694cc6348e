//! Where markers stand.

ghost use Rattle.std.specs.Prelude.{◌≡◌, ◌-◌, ◌*◌, OnOk, length, take};
ghost use Rattle.std.specs.List.{flat_map};
ghost use Rattle.report_forms.specs.Grown.{Grows};
ghost use Rattle.report_forms.specs.Provenances.{provenance_of};
ghost use Rattle.report_gtkwave.specs.Saves.{wave_time, time_text, pair_text, primary_text};
ghost use Rattle.report_gtkwave.specs.Saves.{unset_text, markers_text, first_clock};

use crate::pieces::{push_text, push_wide};
use report_explained::FailedAttempt;
use report_forms::Provenance;
use std::alloc::{AllocError, Global};

/// How many attempts have markers: two letters each.
const MARKED: usize = 13;

/// The time of a clock as GTKWave counts it.
pub(crate) fn wave_time(from: &Provenance<'_>, scale: u64, clock: u64) -> u128
    ensures { result ≡ wave_time (provenance_of from.now) scale clock }
{
    u128::from(from.time(clock)) * u128::from(scale)
}

/// The first clock that is told of the first attempt, 0 where there is none.
pub(crate) fn first_clock(attempts: &[FailedAttempt<'_>]) -> u64
    ensures { result ≡ first_clock attempts.now }
{
    match attempts {
        [] => 0,
        [first, ..] => first.sheet.clocks.get(0).copied().unwrap_or(0) as u64,
    }
}

/// Adds the time of a clock.
fn push_time(
    alloc: Global,
    out: &mut Vec<u8>,
    from: &Provenance<'_>,
    scale: u64,
    clock: u64,
) -> Result<(), AllocError>
    ensures { OnOk result (Grows out.old.items out.new.items
        (time_text (provenance_of from.now) scale clock)) }
{
    push_wide(alloc, out, " ", wave_time(from, scale, clock))
}

/// Adds where an attempt began and was decided.
fn push_pair(
    alloc: Global,
    out: &mut Vec<u8>,
    from: &Provenance<'_>,
    scale: u64,
    attempt: &FailedAttempt<'_>,
) -> Result<(), AllocError>
    ensures { OnOk result (Grows out.old.items out.new.items
        (pair_text (provenance_of from.now) scale attempt.now)) }
{
    push_time(alloc, out, from, scale, attempt.failure.start)?;
    push_time(alloc, out, from, scale, attempt.failure.clock)?;
    Ok(())
}

/// Adds where the first attempt was decided.
fn push_primary(
    alloc: Global,
    out: &mut Vec<u8>,
    from: &Provenance<'_>,
    scale: u64,
    attempts: &[FailedAttempt<'_>],
) -> Result<(), AllocError>
    ensures { OnOk result (Grows out.old.items out.new.items
        (primary_text (provenance_of from.now) scale attempts.now)) }
{
    match attempts {
        [] => push_text(out, " -1"),
        [first, ..] => push_time(alloc, out, from, scale, first.failure.clock),
    }
}

/// Adds so many pairs of markers that aren't set.
fn push_unset(out: &mut Vec<u8>, count: usize) -> Result<(), AllocError>
    ensures { OnOk result (Grows out.old.items out.new.items (unset_text count)) }
{
    let mut left = count;
    while left > 0 {
        push_text(out, " -1 -1")?;
        left -= 1;
    }
    Ok(())
}

/// The attempts that have markers.
fn marked<'a, 'b>(attempts: &'b [FailedAttempt<'a>]) -> &'b [FailedAttempt<'a>]
    ensures { result.now ≡ take 13 attempts.now }
{
    &attempts[..attempts.len().min(MARKED)]
}

/// Adds the named markers.
fn push_pairs(
    alloc: Global,
    out: &mut Vec<u8>,
    from: &Provenance<'_>,
    scale: u64,
    attempts: &[FailedAttempt<'_>],
) -> Result<(), AllocError>
    ensures { OnOk result (Grows out.old.items out.new.items
        (flat_map (pair_text (provenance_of from.now) scale) attempts.now)) }
{
    for attempt in attempts {
        push_pair(alloc, out, from, scale, attempt)?;
    }
    Ok(())
}

/// Adds all markers.
pub(crate) fn push_markers(
    alloc: Global,
    out: &mut Vec<u8>,
    from: &Provenance<'_>,
    scale: u64,
    attempts: &[FailedAttempt<'_>],
) -> Result<(), AllocError>
    ensures { OnOk result (Grows out.old.items out.new.items
        (markers_text (provenance_of from.now) scale attempts.now)) }
{
    push_primary(alloc, out, from, scale, attempts)?;
    push_pairs(alloc, out, from, scale, marked(attempts))?;
    push_unset(out, MARKED.saturating_sub(attempts.len()))?;
    Ok(())
}
