//! Which texts say a suite, and what their assertions come to.
//!
//! Of each text of `data/suites.txt`, one a line, over the signals of `data/names.txt`, it prints
//! how many assertions its suite has, or else its first fault. Then it prints the verdicts, each
//! with its clock, on the assertions of `data/verdicts.txt` over the rows that stand there.
//!
//! ```text
//! r: assert property (@(posedge top.clk) top.a |-> top.b);    assertions 1
//! sequence s; top.y endsequence r: assert ..                  Y1 UnknownName 12
//! ```
//!
//! `scripts/random/texts_with_faults.py` made texts with their faults, and the verdicts were worked
//! out by hand from IEEE 1800-2017, 16.9 to 16.12. With two files' names it checks the second file
//! as one text over the paths of the first, a path and a width a line, and prints how long that
//! took (`bench/suites`).

ghost use Rattle.std.specs.Prelude.{◌≤◌, IfOk};

use crate::verdicts;
use anyhow::{Context, Result, bail};
use lexer::lex;
use parser::{File, parse};
use std::alloc::{AllocError, Global};
use std::fs;
use std::time::Instant;
use types::{Names, TypeFault, check};

/// A path and its width.
fn name_of(line: &str) -> Result<(&str, u8)>
    ensures { IfOk result (λ name. (1 ≤ name.1) × (name.1 ≤ 128)) }
{
    let (path, width) = line.split_once(' ').context("a path without a width")?;
    let Ok(width @ 1..=128) = width.parse::<u8>() else {
        bail!("no such width");
    };
    Ok((path, width))
}

/// Adds paths with their widths, one a line.
fn push_names(alloc: Global, names: &mut Names, lines: &str) -> Result<()> {
    for line in lines.lines() {
        let (path, width) = name_of(line)?;
        names.push(alloc, path, width)?;
    }
    Ok(())
}

/// The value, where what was done to it worked. Else it is let go by one call.
fn made<T: Drop>(value: T, done: Result<()>) -> Result<T> {
    done?;
    Ok(value)
}

/// Paths with their widths, one a line.
fn names_of(alloc: Global, lines: &str) -> Result<Names> {
    let mut names = Names::new(alloc);
    let pushed = push_names(alloc, &mut names, lines);
    made(names, pushed)
}

/// How many assertions the suite of a file has, or its first fault.
fn count_of(alloc: Global, names: &Names, file: &File) -> Result<usize, TypeFault> {
    match check(alloc, file, names) {
        Ok(suite) => Ok(suite.assertions.len()),
        Err(fault) => Err(fault),
    }
}

/// The same of a text, if it is read.
fn count_in(alloc: Global, names: &Names, text: &str) -> Option<Result<usize, TypeFault>> {
    let Ok(tokens) = lex(alloc, text) else {
        return None;
    };
    let Ok(file) = parse(alloc, tokens.as_slice()) else {
        return None;
    };
    Some(count_of(alloc, names, &file))
}

/// How many assertions there are, or the fault.
fn told(alloc: Global, counted: Result<usize, TypeFault>) -> Result<String, AllocError> {
    match counted {
        Ok(count) => format!(in alloc; "assertions {count}"),
        Err(fault) => format!(in alloc; "{fault}"),
    }
}

/// What is told of a text.
fn verdict(alloc: Global, names: &Names, text: &str) -> Result<String> {
    let counted = count_in(alloc, names, text).context("a text is not read")?;
    Ok(told(alloc, counted)?)
}

/// Checks a file, lets go of its suite, and prints how long that took.
fn time_file(rt: &HostRuntime, names: &Names, file: &File) -> Result<()> {
    let start = Instant::now(rt)?;
    let counted = count_of(rt.alloc(), names, file);
    let took = start.elapsed(rt);
    let told = told(rt.alloc(), counted)?;
    println!(rt; "check {} us {told}", took?.as_micros())?;
    Ok(())
}

/// Checks a text, and prints how long that took.
fn time_text(rt: &HostRuntime, names: &Names, text: &str) -> Result<()> {
    let Ok(tokens) = lex(rt.alloc(), text) else {
        bail!("the text is not cut into tokens");
    };
    let Ok(file) = parse(rt.alloc(), tokens.as_slice()) else {
        bail!("the text is not read");
    };
    time_file(rt, names, &file)
}

/// The names in a file.
fn names_in(rt: &HostRuntime, path: &str) -> Result<Names> {
    let lines = fs::read_to_string(rt, path)?;
    names_of(rt.alloc(), lines.as_str())
}

/// Prints what the texts of a file come to.
fn show_suites(rt: &HostRuntime, names: &Names) -> Result<()> {
    let texts = fs::read_to_string(rt, "suites.txt")?;
    for text in texts.lines() {
        let verdict = verdict(rt.alloc(), names, text)?;
        println!(rt; "{verdict}")?;
    }
    Ok(())
}

/// Prints the verdicts of a file's lines.
fn show_verdicts(rt: &HostRuntime) -> Result<()> {
    let lines = fs::read_to_string(rt, "verdicts.txt")?;
    verdicts::show(rt, lines.as_str())
}

/// Times checking the text of one file over the names of another.
fn time_in(rt: &HostRuntime, names: &Names, text: Option<&str>) -> Result<()> {
    let text = fs::read_to_string(rt, text.context("no text")?)?;
    time_text(rt, names, text.as_str())
}

/// The same over the names in a file.
fn time_files(rt: &HostRuntime, path: &str, text: Option<&str>) -> Result<()> {
    let names = names_in(rt, path)?;
    let timed = time_in(rt, &names, text);
    drop(names);
    timed
}

/// Prints what the stored texts come to, and the stored verdicts.
pub(crate) fn show_cases(rt: &HostRuntime) -> Result<()> {
    let names = names_in(rt, "names.txt")?;
    let shown = show_suites(rt, &names);
    drop(names);
    shown?;
    show_verdicts(rt)
}

/// Times checking the text of one path over the names of another; shows what is stored where there
/// is none.
pub(crate) fn show_with(rt: &HostRuntime, path: Option<&str>, text: Option<&str>) -> Result<()> {
    match path {
        Some(path) => time_files(rt, path, text),
        None => show_cases(rt),
    }
}
