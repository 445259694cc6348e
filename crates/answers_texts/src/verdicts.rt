//! Verdicts of `judge`, each with its clock, which were worked out by hand from the standard.
//!
//! A line has ticks, each as digits of the signals `a` to `f` at it, and after `; ` what is
//! asserted.

use anyhow::{Context, Result, bail};
use assertions::Suite;
use expressions::{Table, count};
use judging::judge;
use lexer::lex;
use parser::parse;
use signals::Verdict;
use std::alloc::Global;
use std::io::Print;
use types::{Names, check};

/// The suite of a text, if it has one.
fn checked_suite(alloc: Global, names: &Names, text: &str) -> Option<Suite> {
    let Ok(tokens) = lex(alloc, text) else {
        return None;
    };
    let Ok(file) = parse(alloc, tokens.as_slice()) else {
        return None;
    };
    check(alloc, &file, names).ok()
}

/// The suite of an assertion over signals of one bit.
fn suite_of(alloc: Global, property: &str) -> Result<Suite> {
    let text = format!(in alloc; "assert property (@(posedge clk) {property});")?;
    let paths = [("a", 1), ("b", 1), ("c", 1), ("d", 1), ("e", 1), ("f", 1)];
    let names = Names::of(alloc, &paths)?;
    match checked_suite(alloc, &names, text.as_str()) {
        Some(suite) => Ok(suite),
        None => bail!("{property}: it has no suite"),
    }
}

/// The value of a signal at a tick, whose first digit is that of `a`.
fn bit_of(tick: &str, path: &str) -> u128 {
    let letter = path.as_bytes().first().copied().unwrap_or(b'a');
    let place = usize::from(letter.saturating_sub(b'a'));
    match tick.as_bytes().get(place).copied() {
        Some(b'1') => 1,
        _ => 0,
    }
}

/// The values of a suite's signals at a tick.
fn row_of(alloc: Global, suite: &Suite, tick: &str) -> Result<Vec<u128>> {
    let mut row = Vec::new(alloc);
    for signal in &suite.names {
        row.push(bit_of(tick, signal.path.as_str()))?;
    }
    Ok(row)
}

/// The values of a suite's signals at the ticks.
fn signals_of(alloc: Global, suite: &Suite, ticks: &str) -> Result<Table<u128>> {
    let mut signals = Table::new(alloc);
    for tick in ticks.split(' ') {
        signals.push(row_of(alloc, suite, tick)?)?;
    }
    Ok(signals)
}

/// A verdict with its clock.
fn told(alloc: Global, verdict: Verdict) -> Result<String> {
    let told = match verdict {
        Verdict::Holds(clock) => format!(in alloc; "holds {clock}")?,
        Verdict::Vacuous(clock) => format!(in alloc; "vacuous {clock}")?,
        Verdict::Fails(clock) => format!(in alloc; "fails {clock}")?,
        Verdict::Disabled(clock) => format!(in alloc; "disabled {clock}")?,
        Verdict::Open => String::from_str(alloc, "open")?,
    };
    Ok(told)
}

/// The verdicts on the first assertion of a suite, one a tick.
fn verdicts_of(alloc: Global, suite: &Suite, ticks: &str) -> Result<String> {
    let assertion = suite.assertions().first().context("no assertion")?;
    let signals = signals_of(alloc, suite, ticks)?;
    let rows = count(alloc, signals, suite.counters.as_slice())?;
    let mut answer = String::new(alloc);
    for tick in 0..rows.signals.len() {
        let verdict = judge(alloc, assertion, suite, &rows, tick)?;
        answer.push_str(if tick == 0 { "" } else { ", " })?;
        answer.push_str(told(alloc, verdict)?.as_str())?;
    }
    Ok(answer)
}

/// The verdicts of a line.
fn answer(alloc: Global, line: &str) -> Result<String> {
    let (ticks, property) = line.split_once("; ").context("a line without ticks")?;
    let suite = suite_of(alloc, property)?;
    let answer = verdicts_of(alloc, &suite, ticks);
    drop(suite);
    answer
}

/// Prints the verdicts of each line.
pub fn show<R: Print + AllocGlobal>(rt: &R, lines: &str) -> Result<()> {
    for line in lines.lines() {
        let answer = answer(rt.alloc(), line)?;
        println!(rt; "{answer}")?;
    }
    Ok(())
}
