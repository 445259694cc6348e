//! Cases and their answers.

use crate::digits::bytes_of;
use crate::run::Run;
use anyhow::{Context, Result, bail};
use signals::{Decided, Verdict};
use std::alloc::Global;
use std::io::Print;
use std::str::Lines;

/// The values of a line `row V V ..`.
fn row_of(alloc: Global, line: &str) -> Result<Vec<u128>> {
    let mut row = Vec::new(alloc);
    let values = line.strip_prefix("row").context("no row")?;
    for value in values.split_whitespace() {
        row.push(value.parse::<u128>()?)?;
    }
    Ok(row)
}

/// Prints a verdict and its clock.
fn show_decided<R: Print + AllocGlobal>(rt: &R, decided: &Decided) -> Result<()> {
    let start = decided.start;
    match decided.verdict {
        Verdict::Holds(clock) => print!(rt; " ({start} Holds {clock})")?,
        Verdict::Vacuous(clock) => print!(rt; " ({start} Vacuous {clock})")?,
        Verdict::Fails(clock) => print!(rt; " ({start} Fails {clock})")?,
        Verdict::Disabled(clock) => print!(rt; " ({start} Disabled {clock})")?,
        Verdict::Open => bail!("decided, and open"),
    }
    Ok(())
}

/// Runs a clock over a line's row.
fn run_clock(alloc: Global, run: &mut Run, line: &str) -> Result<()> {
    let row = row_of(alloc, line)?;
    run.clock(row.as_slice())
}

/// Runs a clock, and prints what it came to.
fn show_clock<R: Print + AllocGlobal>(rt: &R, run: &mut Run, line: &str) -> Result<()> {
    run_clock(rt.alloc(), run, line)?;
    let spent = run.spent();
    print!(rt; "cost {spent}")?;
    for decided in run.decisions() {
        show_decided(rt, decided)?;
    }
    println!(rt; "")?;
    Ok(())
}

/// Prints the starts of the attempts that are live.
fn show_open<R: Print + AllocGlobal>(rt: &R, run: &mut Run) -> Result<()> {
    print!(rt; "open")?;
    for decided in run.open_starts() {
        let start = decided.start;
        if decided.verdict != Verdict::Open {
            bail!("live, and decided");
        }
        print!(rt; " {start}")?;
    }
    println!(rt; "")?;
    Ok(())
}

/// Runs a clock for each line, and prints what they came to.
fn show_run<R: Print + AllocGlobal>(
    rt: &R,
    name: &str,
    run: &mut Run,
    rows: &mut Lines<'_>,
) -> Result<()> {
    println!(rt; "case {name}")?;
    for line in rows {
        show_clock(rt, run, line)?;
    }
    show_open(rt, run)
}

/// Prints what a case came to.
fn show_case<R: Print + AllocGlobal>(rt: &R, text: &str) -> Result<()> {
    let mut lines = text.lines();
    let name = lines.next().context("no name")?;
    let program = lines.next().context("no program")?;
    let digits = program.strip_prefix("program ").context("no program")?;
    let bytes = bytes_of(rt.alloc(), digits)?;
    let mut run = Run::new(rt.alloc(), bytes.as_slice())?;
    show_run(rt, name, &mut run, &mut lines)
}

/// Prints what each case came to.
pub fn show_cases<R: Print + AllocGlobal>(rt: &R, text: &str) -> Result<()> {
    for case in text.split("case ") {
        if !case.is_empty() {
            show_case(rt, case)?;
        }
    }
    Ok(())
}
