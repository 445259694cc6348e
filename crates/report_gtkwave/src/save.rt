//! The save file.

ghost use Rattle.std.specs.Prelude.{◌≡◌, IfOk, OnOk, map};
ghost use Rattle.report_forms.specs.Grown.{Grows};
ghost use Rattle.report_forms.specs.Provenances.{provenance_of};
ghost use Rattle.report_gtkwave.specs.Views.{names_in, unit_in};
ghost use Rattle.report_gtkwave.specs.Saves.{head_text, IsSave};

use crate::groups::push_groups;
use crate::markers::{first_clock, push_markers, wave_time};
use crate::pieces::{push_on_line, push_text, push_wide};
use crate::waves::Waves;
use crate::zoom::{power_over, push_zoom};
use report_explained::FailedAttempt;
use report_forms::Provenance;
use std::alloc::{AllocError, Global};

/// Adds the dump's path, and the time with which the view begins.
fn push_head(
    alloc: Global,
    out: &mut Vec<u8>,
    from: &Provenance<'_>,
    scale: u64,
    attempts: &[FailedAttempt<'_>],
) -> Result<(), AllocError>
    ensures { OnOk result (Grows out.old.items out.new.items
        (head_text (provenance_of from.now) scale attempts.now)) }
{
    push_text(out, "[*] Failed attempts, by svamon explain\n[dumpfile] \"")?;
    push_on_line(out, from.dump)?;
    let start = wave_time(from, scale, first_clock(attempts));
    push_wide(alloc, out, "\"\n[timestart] ", start)?;
    push_text(out, "\n")?;
    Ok(())
}

/// The save file of GTKWave that shows failed attempts over the dump whose variables are given. The
/// text's path of `from` is not told.
///
/// # Errors
///
/// Want of memory alone.
pub fn save_file(
    alloc: Global,
    from: &Provenance<'_>,
    waves: &Waves,
    attempts: &[FailedAttempt<'_>],
) -> Result<Vec<u8>, AllocError>
    ensures { IfOk result (λ bytes. IsSave (provenance_of from.now) (names_in waves.now)
        (unit_in waves.now) attempts.now bytes.items) }
{
    let power = power_over(from, waves.scale, attempts);
    let mut out = Vec::new(alloc);
    push_head(alloc, &mut out, from, waves.scale, attempts)?;
    push_zoom(alloc, &mut out, power)?;
    push_markers(alloc, &mut out, from, waves.scale, attempts)?;
    push_text(&mut out, "\n")?;
    push_groups(alloc, &mut out, from, waves.waves.as_slice(), attempts)?;
    Ok(out)
}
