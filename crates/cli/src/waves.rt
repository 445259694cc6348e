//! Explanations with a save file of GTKWave.

ghost use Rattle.std.specs.Prelude.{IfOk, IfErr};
ghost use Rattle.std.specs.List.{AllByRecursion};
ghost use Rattle.vcd_reader.specs.Dump.{Contents};
ghost use Rattle.vcd_reader.specs.Held.{HoldsContents};
ghost use Rattle.report_explained.specs.Told.{HasLine};
ghost use Rattle.cli.specs.Explained.{WhyNotExplained};
ghost use Rattle.cli.specs.Waves.{IsShownIn, ShowsFailures};

use crate::explained::{Explained, explained_over};
use crate::heads::standings_of;
use cli_faults::Fault;
use cycle_window::WindowSize;
use report_explained::{Wanted, explained_text, told_of};
use report_forms::Provenance;
use report_gtkwave::{Waves, save_file};
use report_programs::Gate;
use source_files::Origin;
use std::alloc::{AllocError, Global};
use std::sync::Wait;
use std::thread::Threads;
use vcd_reader::Dump;
use workers_core::TeamSize;

/// A dump's path, and what GTKWave calls its variables.
#[derive(Clone, Copy)]
pub struct Waveform<'w> {
    pub path: &'w str,
    pub waves: &'w Waves,
}

/// What explains failed attempts: a text, of how many it tells, and a save file of GTKWave that
/// shows them.
#[derive(Drop)]
pub struct ShownFailures {
    pub text: String,
    pub count: u64,
    pub save: Vec<u8>,
}

/// Explanations as text and as a save file.
fn shown_of(
    alloc: Global,
    explained: &Explained<'_>,
    origin: &Origin<'_>,
    waveform: &Waveform<'_>,
) -> Result<ShownFailures, AllocError>
    requires { AllByRecursion (HasLine explained.now.trace.report.lines.items)
        explained.now.explanations.items }
    ensures { IfOk result (IsShownIn explained.now waveform.now) }
{
    let lines = explained.trace.report.lines.as_slice();
    let explanations = explained.explanations.as_slice();
    let standings = standings_of(alloc, &explained.heads, origin, explanations)?;
    let told = told_of(alloc, lines, explanations, standings.as_slice())?;
    let from = Provenance {
        dump: waveform.path,
        text: "",
        times: explained.trace.times.as_slice(),
    };
    let text = explained_text(alloc, &from, told.as_slice())?;
    let save = save_file(alloc, &from, waveform.waves, told.as_slice())?;
    Ok(ShownFailures {
        text,
        count: explanations.len() as u64,
        save,
    })
}

/// Explains failed attempts of a text's assertions over a dump in memory, as
/// [`explain_one`](crate::explain_one) does, and tells GTKWave what to show of them. Nothing is
/// written.
///
/// # Errors
///
/// Those of [`explain_one`](crate::explain_one), but for those of the dump and of the sink.
pub fn failures_over<'a, G: Gate + Sync, R: Threads + Wait + Sync>(
    rt: &R,
    alloc: Global,
    dump: Dump,
    text: &'a str,
    origin: &Origin<'_>,
    wanted: &Wanted<'_>,
    team: TeamSize,
    gate: &G,
    waveform: &Waveform<'_>,
) -> Result<ShownFailures, Fault<'a>>
    requires held { (c : Contents) × HoldsContents dump c }
    ensures ok { (c : Contents) → HoldsContents dump c → IfOk result
        (ShowsFailures c text.entry.now wanted.now waveform.now) }
    ensures err { (c : Contents) → HoldsContents dump c
        → IfErr result (WhyNotExplained c text.entry.now wanted.now) }
{
    let size = WindowSize::usual();
    let explained = explained_over(rt, alloc, dump, text, wanted, team, size, gate)?;
    Ok(shown_of(alloc, &explained, origin, waveform)?)
}
