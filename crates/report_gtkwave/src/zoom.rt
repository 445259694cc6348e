//! How wide a clock is shown.

ghost use Rattle.std.specs.Prelude.{◌≡◌, OnOk};
ghost use Rattle.report_forms.specs.Grown.{Grows};
ghost use Rattle.report_gtkwave.specs.Saves.{zoom_text};

use crate::pieces::{push_number, push_text};
use report_explained::FailedAttempt;
use report_forms::Provenance;
use std::alloc::{AllocError, Global};

/// Over how many times 200 pixels an attempt goes at most, and a half.
const FRAMES: u128 = 2;

/// How often a span of time has to be halved till it is shown whole.
fn halvings(span: u128) -> u64 {
    let mut left = span;
    let mut power = 0u64;
    for _half in 0..128 {
        if left > FRAMES {
            left /= 2;
            power = power.saturating_add(1);
        }
    }
    power
}

/// The time over the clocks that are told of the first attempt.
fn span_of(from: &Provenance<'_>, scale: u64, attempts: &[FailedAttempt<'_>]) -> u128 {
    let Some(attempt) = attempts.first() else {
        return 0;
    };
    let clocks = attempt.sheet.clocks.as_slice();
    let first = clocks.first().copied().unwrap_or(0);
    let last = clocks.last().copied().unwrap_or(first);
    let ticks = from
        .time(last as u64)
        .saturating_sub(from.time(first as u64));
    u128::from(ticks) * u128::from(scale)
}

/// Of how many units of time, as a power of two, 200 pixels are, so that the first attempt is seen.
pub(crate) fn power_over(from: &Provenance<'_>, scale: u64, attempts: &[FailedAttempt<'_>]) -> u64 {
    halvings(span_of(from, scale, attempts))
}

/// Adds the zoom.
pub(crate) fn push_zoom(alloc: Global, out: &mut Vec<u8>, power: u64) -> Result<(), AllocError>
    ensures { OnOk result (Grows out.old.items out.new.items (zoom_text power)) }
{
    push_number(alloc, out, "*-", power)?;
    push_text(out, ".000000")?;
    Ok(())
}
