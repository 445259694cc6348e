//! How long clocks take.

use crate::digits::bytes_of;
use crate::run::Run;
use anyhow::{Context, Result};
use signals::{Decided, Verdict};
use std::alloc::Global;
use std::io::Print;
use std::time::Instant;

/// The rows of the trace; it begins again after the last one.
const ROWS: u64 = 65_536;

/// The next number of the trace.
fn next_number(number: u64) -> u64 {
    let number = number ^ number << 13;
    let number = number ^ number >> 7;
    number ^ number << 17
}

/// The low bits of a number.
fn low_bits(number: u64, width: u8) -> u128 {
    if width >= 64 {
        number as u128
    } else {
        (number & ((1 << width) - 1)) as u128
    }
}

/// The next row: each value is the low bits of the next number.
fn next_row(alloc: Global, widths: &[u8], number: &mut u64) -> Result<Vec<u128>> {
    let mut row = Vec::new(alloc);
    for width in widths {
        *number = next_number(*number);
        row.push(low_bits(*number, *width))?;
    }
    Ok(row)
}

/// The rows of the trace, which the plain C baseline (`bench/machine.c`) makes too.
fn trace_of(alloc: Global, widths: &[u8]) -> Result<Vec<Vec<u128>>> {
    let mut trace = Vec::new(alloc);
    let mut number = 0x9e37_79b9_7f4a_7c15;
    for _ in 0..ROWS {
        trace.push(next_row(alloc, widths, &mut number)?)?;
    }
    Ok(trace)
}

/// What a verdict adds to the sum.
fn worth(decided: &Decided) -> u64 {
    let (kind, clock) = match decided.verdict {
        Verdict::Holds(clock) => (0u64, clock),
        Verdict::Vacuous(clock) => (7, clock),
        Verdict::Fails(clock) => (14, clock),
        Verdict::Disabled(clock) => (21, clock),
        Verdict::Open => (0, 0),
    };
    decided
        .start
        .wrapping_mul(31)
        .wrapping_add(kind)
        .wrapping_add(clock)
}

/// The sums over all verdicts and the cost of all clocks.
#[derive(Drop)]
struct Sums {
    verdicts: u64,
    cost: u64,
}

/// Runs so many clocks over the trace.
fn sums_of(run: &mut Run, trace: &[Vec<u128>], clocks: u64) -> Result<Sums> {
    let mut sums = Sums {
        verdicts: 0,
        cost: 0,
    };
    for clock in 0..clocks {
        let row = trace.get((clock % ROWS) as usize).context("no row")?;
        run.clock(row.as_slice())?;
        for decided in run.decisions() {
            sums.verdicts = sums.verdicts.wrapping_add(worth(decided));
        }
        sums.cost = sums.cost.wrapping_add(run.spent());
    }
    Ok(sums)
}

/// Runs so many clocks over the trace, and prints how many microseconds they took and what they
/// came to.
fn time_over(rt: &HostRuntime, run: &mut Run, trace: &[Vec<u128>], clocks: u64) -> Result<()> {
    let start = Instant::now(rt)?;
    let sums = sums_of(run, trace, clocks)?;
    let took = start.elapsed(rt)?.as_micros();
    let (verdicts, cost) = (sums.verdicts, sums.cost);
    println!(rt; "attempts {clocks} us {took} verdicts {verdicts} cost {cost}")?;
    Ok(())
}

/// The same over the made-up trace.
fn time_run(rt: &HostRuntime, run: &mut Run, clocks: u64) -> Result<()> {
    let trace = trace_of(rt.alloc(), run.widths())?;
    time_over(rt, run, trace.as_slice(), clocks)
}

/// Times so many clocks of the program that the digits spell.
pub fn time_clocks(rt: &HostRuntime, digits: &str, clocks: u64) -> Result<()> {
    let bytes = bytes_of(rt.alloc(), digits)?;
    let mut run = Run::new(rt.alloc(), bytes.as_slice())?;
    time_run(rt, &mut run, clocks)
}
