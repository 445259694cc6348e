//! What each clock of programs comes to.
//!
//! `data/machine_cases.txt` has cases: a line `case NAME`, a line `program HEX` of a file of
//! bytecode, and for each clock a line `row V V ..` of the signals' values. Of each case it prints
//! its line, for each clock a line `cost T (START VERDICT CLOCK) ..`, and a line `open START ..` of
//! the attempts that are live after the last clock.
//!
//! `scripts/models/machine_cases.py` made the cases, with the answers of a machine of its own
//! (`scripts/models/machine_model.py`). The word `machine` alone has it read cases of the same form
//! from standard input, for `scripts/random/random_machine.py`. With a file of hexadecimal digits
//! and a number of clocks it runs the program of that file over so many clocks of a made-up trace,
//! and prints how long they took, for `bench/machine`.

use crate::{cases, timing};
use anyhow::{Context, Result};
use std::fs;
use std::io::Read;

/// Shows the stored cases.
pub(crate) fn show_cases(rt: &HostRuntime) -> Result<()> {
    let text = fs::read_to_string(rt, "machine_cases.txt")?;
    cases::show_cases(rt, text.as_str())
}

/// Shows the cases on standard input.
fn show_input(rt: &HostRuntime) -> Result<()> {
    let mut text = String::new(rt.alloc());
    rt.stdin().read_to_string(&mut text)?;
    cases::show_cases(rt, text.as_str())
}

/// Times so many clocks of the program in a file.
fn time_file(rt: &HostRuntime, path: &str, clocks: Option<&str>) -> Result<()> {
    let clocks = clocks.context("no number of clocks")?.parse::<u64>()?;
    let digits = fs::read_to_string(rt, path)?;
    timing::time_clocks(rt, digits.as_str(), clocks)
}

/// Times so many clocks of the program of a path; shows the cases on standard input where there is
/// none.
pub(crate) fn show_with(rt: &HostRuntime, path: Option<&str>, clocks: Option<&str>) -> Result<()> {
    match path {
        Some(path) => time_file(rt, path, clocks),
        None => show_input(rt),
    }
}
