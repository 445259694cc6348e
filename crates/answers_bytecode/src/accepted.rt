//! Which programs are accepted, and by which limits.
//!
//! Of each file of `data/verifier_cases.txt`, one a line in hexadecimal digits, which is upgraded
//! first, it prints the least limits and the lives of a program that is accepted, or else the
//! fault. An accepted program and its copy are to say the same as the upgraded file, and
//! `least_limits` the same of it before it is verified.
//!
//! `scripts/models/verifier_cases.py` and `scripts/models/verifier_model.py`, a verifier of their
//! own, made files and answers; `scripts/random/random_verifier.py` compares random programs in a
//! file of cases of theirs. With a file's name it prints how long verifying that file took at best
//! (`bench/verifier`).

use crate::digits::bytes_of;
use anyhow::{Result, bail};
use bytecode::{CodeFault, decode, encode, upgrade};
use bytecode_programs::{Limits, Program};
use std::alloc::Global;
use std::fmt::Write;
use std::fs;
use std::time::Instant;
use verifier::{LeastLimits, Refusal, Verified, least_limits, verify};

/// Whether a program is written as these bytes, and declares these limits.
fn is_same(alloc: Global, verified: &Verified, declared: Limits, bytes: &[u8]) -> Result<bool> {
    let spelled = encode(alloc, verified.program())?;
    Ok(spelled.as_slice() == bytes && verified.limits() == declared)
}

/// Whether a copy says the same as the program of these bytes.
fn is_copied(alloc: Global, verified: &Verified, declared: Limits, bytes: &[u8]) -> Result<bool> {
    let copied = verified.copy(alloc)?;
    if copied.least_limits() != verified.least_limits() || copied.lives() != verified.lives() {
        return Ok(false);
    }
    is_same(alloc, &copied, declared, bytes)
}

/// The least limits and the lives of a program that was accepted.
fn accepted_line(alloc: Global, verified: &Verified) -> Result<String> {
    let least = verified.least_limits();
    let (history, stack, budget) = (least.history, least.stack, least.budget);
    let (attempts, obligations) = (least.attempts, least.obligations);
    let (antecedent, consequent) = verified.lives();
    let mut line = format!(in alloc; "accepted history {history} stack {stack}")?;
    write!(line, " attempts {attempts} obligations {obligations}")?;
    write!(line, " budget {budget} lives {antecedent} {consequent}")?;
    Ok(line)
}

/// What is told of a program of these bytes that was accepted.
fn told(
    alloc: Global,
    verified: &Verified,
    least: Option<LeastLimits>,
    declared: Limits,
    bytes: &[u8],
) -> Result<String> {
    if least != Some(verified.least_limits()) {
        return Ok(String::from_str(alloc, "other limits")?);
    }
    if !is_same(alloc, verified, declared, bytes)? {
        return Ok(String::from_str(alloc, "another program")?);
    }
    if !is_copied(alloc, verified, declared, bytes)? {
        return Ok(String::from_str(alloc, "another copy")?);
    }
    accepted_line(alloc, verified)
}

/// The least limits of a program; none if it has a fault but those of the declared ones.
fn least_of(alloc: Global, program: &Program) -> Result<Option<LeastLimits>> {
    match least_limits(alloc, program) {
        Ok(least) => Ok(Some(least)),
        Err(Refusal::Memory) => bail!("out of memory"),
        Err(_) => Ok(None),
    }
}

/// What `verify` answers for a program of these bytes.
fn verdict(alloc: Global, program: Program, bytes: &[u8]) -> Result<String> {
    let declared = program.limits;
    let least = least_of(alloc, &program)?;
    match verify(alloc, program) {
        Ok(verified) => told(alloc, &verified, least, declared, bytes),
        Err(Refusal::Memory) => bail!("out of memory"),
        Err(refusal) => Ok(format!(in alloc; "{refusal}")?),
    }
}

/// What the bytes of a file in version 2 are.
fn answer_upgraded(alloc: Global, bytes: &[u8]) -> Result<String> {
    match decode(alloc, bytes) {
        Ok(program) => verdict(alloc, program, bytes),
        Err(CodeFault::Memory) => bail!("out of memory"),
        Err(fault) => Ok(format!(in alloc; "{fault}")?),
    }
}

/// What the file of a line is, of either version.
fn answer(alloc: Global, line: &str) -> Result<String> {
    let file = bytes_of(alloc, line)?;
    match upgrade(alloc, file.as_slice()) {
        Ok(bytes) => answer_upgraded(alloc, bytes.as_slice()),
        Err(CodeFault::Memory) => bail!("out of memory"),
        Err(fault) => Ok(format!(in alloc; "{fault}")?),
    }
}

/// What the files of all lines are, a line for each.
fn answers_of(alloc: Global, lines: &str) -> Result<String> {
    let mut answers = String::new(alloc);
    for line in lines.lines() {
        answers.push_str(answer(alloc, line)?.as_str())?;
        answers.push('\n')?;
    }
    Ok(answers)
}

/// How many microseconds verifying a program took.
fn time_once(rt: &HostRuntime, program: &Program) -> Result<u128> {
    let copied = program.copy(rt.alloc())?;
    let start = Instant::now(rt)?;
    let verified = verify(rt.alloc(), copied);
    let took = start.elapsed(rt);
    match verified {
        Ok(verified) => {
            drop(verified);
            Ok(took?.as_micros())
        }
        Err(refusal) => bail!("{refusal}"),
    }
}

/// Prints the least time of three hundred rounds.
fn time_program(rt: &HostRuntime, program: &Program) -> Result<()> {
    let mut least = u128::MAX;
    for _ in 0..300 {
        least = least.min(time_once(rt, program)?);
    }
    println!(rt; "verify {least} us")?;
    Ok(())
}

/// The same of the program of a file.
fn time_file(rt: &HostRuntime, bytes: &[u8]) -> Result<()> {
    match decode(rt.alloc(), bytes) {
        Ok(program) => time_program(rt, &program),
        Err(fault) => bail!("{fault}"),
    }
}

/// Prints what the files of all cases are.
pub(crate) fn show_cases(rt: &HostRuntime) -> Result<()> {
    let lines = fs::read_to_string(rt, "verifier_cases.txt")?;
    let answers = answers_of(rt.alloc(), lines.as_str())?;
    print!(rt; "{answers}")?;
    Ok(())
}

/// Times the file of a path; prints what the files of all cases are where there is none.
pub(crate) fn show_with(rt: &HostRuntime, path: Option<&str>) -> Result<()> {
    match path {
        Some(path) => time_file(rt, fs::read(rt, path)?.as_slice()),
        None => show_cases(rt),
    }
}
