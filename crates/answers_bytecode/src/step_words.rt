//! Steps, replies and batches as text.

use anyhow::{Context, Result, bail};
use machine_batches::{Batch, Streak};
use signals::{Decided, Verdict};
use std::alloc::Global;
use workers_core::{Reply, Step};

/// The step that a line names.
pub(crate) fn step_of(line: &str) -> Result<Step> {
    let mut words = line.split_whitespace();
    let name = words.next().context("no step")?;
    match name {
        "slide" => return Ok(Step::Slide),
        "gather" => return Ok(Step::Gather),
        _ => {}
    }
    let worker = words.next().context("no worker")?.parse::<usize>()?;
    match name {
        "claim" => Ok(Step::Claim(worker)),
        "publish" => Ok(Step::Publish(worker)),
        "advance" => {
            let clocks = words.next().context("no clocks")?.parse::<u64>()?;
            Ok(Step::Advance(worker, clocks))
        }
        _ => bail!("no such step"),
    }
}

/// The letter of a reply.
pub(crate) fn letter(reply: Reply) -> &'static str {
    match reply {
        Reply::Done => "D",
        Reply::Refused => "R",
        Reply::Memory => "M",
    }
}

/// A verdict and its clock.
fn decided_text(alloc: Global, decided: &Decided) -> Result<String> {
    let start = decided.start;
    Ok(match decided.verdict {
        Verdict::Holds(clock) => format!(in alloc; " ({start} Holds {clock})")?,
        Verdict::Vacuous(clock) => format!(in alloc; " ({start} Vacuous {clock})")?,
        Verdict::Fails(clock) => format!(in alloc; " ({start} Fails {clock})")?,
        Verdict::Disabled(clock) => format!(in alloc; " ({start} Disabled {clock})")?,
        Verdict::Open => bail!("decided, and open"),
    })
}

/// Adds the attempts of a streak.
fn push_streak(alloc: Global, line: &mut String, streak: &Streak) -> Result<()> {
    for place in 0..streak.count {
        line.push_str(decided_text(alloc, &streak.at(place))?.as_str())?;
    }
    Ok(())
}

/// The line of a batch.
pub(crate) fn batch_line(alloc: Global, batch: &Batch) -> Result<String> {
    let mut line = format!(in alloc; "batch {} {} {}", batch.monitor, batch.first, batch.end)?;
    for streak in batch.decided.as_slice() {
        push_streak(alloc, &mut line, streak)?;
    }
    line.push_str("\n")?;
    Ok(line)
}
