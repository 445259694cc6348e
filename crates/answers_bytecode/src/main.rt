//! Tells what files of bytecode are, which programs are accepted, and what their clocks and the
//! steps of their cores come to, against answers from outside.
//!
//! Without words it prints, each under its line, what the stored cases of its parts come to; the
//! gate compares that with `stdout`. Each part says whence its answers are: `bytecode`
//! (`spelled.rt`), `verifier` (`accepted.rt`), `machine` (`clocks.rt`, `cases.rt`) and `cores`
//! (`cores.rt`).
//!
//! ```text
//! == bytecode
//! program
//! B3 Truncated 4
//! == verifier
//! accepted history 0 stack 1 attempts 1 obligations 1 budget 14 lives 1 1
//! F11 StackTooShort 1
//! == machine
//! case two_positions
//! cost 10
//! cost 19 (0 Holds 1)
//! open
//! == cores
//! replies RDRDRDRDRD
//! batch 0 0 1
//! ```
//!
//! A part's name as the first word has it do that part alone, without its line, and what follows
//! has it time a file of yours: `bytecode FILE`, `verifier FILE`, `machine FILE CLOCKS`. The word
//! `machine` or `cores` alone has it read cases from standard input.
//!
//! What is answered is said by the contracts of `decode`, `encode` and `upgrade` of `bytecode`, of
//! `verify` and `least_limits` of `verifier`, of `machine::Machine::clock`, and of
//! `workers_core::Core::step`. The definitions stand in `bytecode/specs`,
//! `bytecode_programs/specs`, `verifier/specs`, `machine_checked/specs` and `workers_core/specs`.
//!
//! Not promised: a speed, that each program or list of steps occurs, nor what an accepted program
//! is meant to check.
#![tactic(auto)]

mod accepted;
mod cases;
mod clocks;
mod cores;
mod digits;
mod job;
mod run;
mod spelled;
mod step_words;
mod sum;
mod timing;

use anyhow::{Result, bail};
use std::env;

/// Prints what the stored cases of all parts come to.
fn show_all(rt: &HostRuntime) -> Result<()> {
    println!(rt; "== bytecode")?;
    spelled::show_cases(rt)?;
    println!(rt; "== verifier")?;
    accepted::show_cases(rt)?;
    println!(rt; "== machine")?;
    clocks::show_cases(rt)?;
    println!(rt; "== cores")?;
    cores::show_cases(rt)
}

/// Does what the words after a part's name ask for.
fn show_part(rt: &HostRuntime, part: &str, path: Option<&str>, clocks: Option<&str>) -> Result<()> {
    match part {
        "bytecode" => spelled::show_with(rt, path),
        "verifier" => accepted::show_with(rt, path),
        "machine" => clocks::show_with(rt, path, clocks),
        "cores" => cores::show_input(rt),
        _ => bail!("no part has this name"),
    }
}

fn main(rt: HostRuntime) -> Result<()> {
    let mut args = env::args(&rt)?;
    let part = args.nth(1);
    let path = args.next();
    let clocks = args.next();
    match part {
        Some(part) => show_part(&rt, part.as_str(), path.as_deref(), clocks.as_deref()),
        None => show_all(&rt),
    }
}
