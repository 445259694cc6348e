//! Tells what is in stored dumps, what `check` and `judge` tell of small ones, and what calls
//! answer that take memory, against answers from outside.
//!
//! Without words it prints, each under its line, what the stored cases of its parts come to; the
//! gate compares that with `stdout`. Each part says whence its answers are: `dumps` (`dumps.rt`),
//! `reports` (`reports.rt`, `runs.rt`) and `calls` (`refused.rt`, `calls.rt`).
//!
//! ```text
//! == dumps
//! fifo_arb_bug1.vcd names 37 steps 1613 changes 14944 ticks 803
//! ..
//! == reports
//! == it fails at its tick
//! svamon 1
//! clocks 1
//! monitor r holds 0 vacuous 0 fails 1 disabled 0 open 0
//! ..
//! == calls
//! read_dump: 6 steps
//! ..
//! ```
//!
//! A part's name as its word has it do that part alone, without its line.
//!
//! What is read is said by the contracts of `vcd_reader` and `cycle_window`; the definitions stand
//! in their `specs/`: `Dump.antt` of what a dump says, `Ticks.antt` of its ticks and rows. What a
//! report says is the contract of `cli::check_one`, `check_all` and `judge_one`; the definitions
//! stand in `cli/specs/Reported.antt`.
//!
//! Not promised: that each form of a dump or of a text occurs; `tests_parts` has other dumps, and
//! `make random` draws both.
#![tactic(auto)]

mod calls;
mod dumps;
mod outcome;
mod program;
mod refused;
mod reports;
mod runs;
mod steps;

use anyhow::{Result, bail};
use std::env;
use std::fs::Files;
use std::io::Print;
use std::sync::Wait;
use std::thread::Threads;

/// Prints what the stored cases of both parts come to.
fn show_all<R: Files + Print + AllocGlobal + Threads + Wait + Sync>(rt: &R) -> Result<()> {
    println!(rt; "== dumps")?;
    dumps::show_cases(rt)?;
    println!(rt; "== reports")?;
    reports::show_cases(rt)?;
    println!(rt; "== calls")?;
    Ok(refused::show_calls(rt)?)
}

/// Shows the stored cases of a part.
fn show_part<R: Files + Print + AllocGlobal + Threads + Wait + Sync>(
    rt: &R,
    part: &str,
) -> Result<()> {
    match part {
        "dumps" => dumps::show_cases(rt),
        "reports" => reports::show_cases(rt),
        "calls" => Ok(refused::show_calls(rt)?),
        _ => bail!("no part has this name"),
    }
}

fn main(rt: HostRuntime) -> Result<()> {
    match env::args(&rt)?.nth(1) {
        Some(part) => show_part(&rt, part.as_str()),
        None => show_all(&rt),
    }
}
