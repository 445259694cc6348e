//! Which files are programs, and how a program is written again.
//!
//! Of each file of `data/bytecode_cases.txt`, one a line in hexadecimal digits, it prints whether
//! it is a program, or else the fault; of one after the sign `=` also what the program holds. A
//! program is written again, upgraded, by itself and by its copy; the bytes are to be the same each
//! time, with the version made 2.
//!
//! `scripts/models/bytecode_cases.py` made files and answers, with a reader of its own, and
//! `scripts/random/random_bytecode.py` compares random mutants in a file of cases of theirs. With
//! a file's name it prints how long reading and writing that file took at best (`bench/bytecode`).

use crate::digits::bytes_of;
use anyhow::{Result, bail};
use bytecode::{decode, encode, upgrade};
use bytecode_programs::Program;
use std::alloc::Global;
use std::fs;
use std::time::Instant;

/// Whether a program is written as these bytes.
fn is_spelled(alloc: Global, program: &Program, bytes: &[u8]) -> Result<bool> {
    let spelled = encode(alloc, program)?;
    Ok(spelled.as_slice() == bytes)
}

/// Whether a program and its copy are written as these bytes.
fn is_kept(alloc: Global, program: &Program, bytes: &[u8]) -> Result<bool> {
    if !is_spelled(alloc, program, bytes)? {
        return Ok(false);
    }
    let copied = program.copy(alloc)?;
    is_spelled(alloc, &copied, bytes)
}

/// Whether these are the bytes of a file, but for the version, which is 2.
fn is_in_version_2(upgraded: &[u8], bytes: &[u8]) -> bool {
    if upgraded.len() != bytes.len() || bytes.len() < 5 {
        return false;
    }
    upgraded[4] == 2 && upgraded[..4] == bytes[..4] && upgraded[5..] == bytes[5..]
}

/// What is told of a program that is written as these bytes in version 2; with all that it holds
/// where it is to be listed.
fn told(alloc: Global, program: &Program, upgraded: &[u8], is_listed: bool) -> Result<String> {
    if !is_kept(alloc, program, upgraded)? {
        return Ok(String::from_str(alloc, "another spelling")?);
    }
    if is_listed {
        return Ok(format!(in alloc; "{program:?}")?);
    }
    Ok(String::from_str(alloc, "program")?)
}

/// What the bytes of a program are, which are these when upgraded.
fn answer_upgraded(
    alloc: Global,
    bytes: &[u8],
    upgraded: &[u8],
    is_listed: bool,
) -> Result<String> {
    if !is_in_version_2(upgraded, bytes) {
        return Ok(String::from_str(alloc, "another spelling")?);
    }
    match decode(alloc, bytes) {
        Ok(program) => told(alloc, &program, upgraded, is_listed),
        Err(fault) => Ok(format!(in alloc; "{fault}")?),
    }
}

/// What the bytes are, with all that a program holds where it is to be listed.
fn answer(alloc: Global, bytes: &[u8], is_listed: bool) -> Result<String> {
    match upgrade(alloc, bytes) {
        Ok(upgraded) => answer_upgraded(alloc, bytes, upgraded.as_slice(), is_listed),
        Err(fault) => Ok(format!(in alloc; "{fault}")?),
    }
}

/// What the file of a line is.
fn answer_of_line(alloc: Global, line: &str) -> Result<String> {
    match line.strip_prefix('=') {
        Some(digits) => answer(alloc, bytes_of(alloc, digits)?.as_slice(), true),
        None => answer(alloc, bytes_of(alloc, line)?.as_slice(), false),
    }
}

/// What the files of all lines are, a line for each.
fn answers_of(alloc: Global, lines: &str) -> Result<String> {
    let mut answers = String::new(alloc);
    for line in lines.lines() {
        answers.push_str(answer_of_line(alloc, line)?.as_str())?;
        answers.push('\n')?;
    }
    Ok(answers)
}

/// How many microseconds writing a program took, as these bytes.
fn time_written(rt: &HostRuntime, program: &Program, bytes: &[u8]) -> Result<u128> {
    let start = Instant::now(rt)?;
    let spelled = encode(rt.alloc(), program)?;
    let written = start.elapsed(rt)?.as_micros();
    if spelled.as_slice() != bytes {
        bail!("another spelling");
    }
    Ok(written)
}

/// How many microseconds reading and writing a file took.
fn time_once(rt: &HostRuntime, bytes: &[u8]) -> Result<(u128, u128)> {
    let start = Instant::now(rt)?;
    let decoded = decode(rt.alloc(), bytes);
    let read = start.elapsed(rt);
    match decoded {
        Ok(program) => {
            let written = time_written(rt, &program, bytes);
            drop(program);
            Ok((read?.as_micros(), written?))
        }
        Err(fault) => bail!("{fault}"),
    }
}

/// Prints the least times of a hundred rounds.
fn time_file(rt: &HostRuntime, bytes: &[u8]) -> Result<()> {
    let mut least = (u128::MAX, u128::MAX);
    for _ in 0..100 {
        let (read, written) = time_once(rt, bytes)?;
        least = (least.0.min(read), least.1.min(written));
    }
    let (read, written) = least;
    println!(rt; "decode {read} us encode {written} us")?;
    Ok(())
}

/// Prints what the files of all cases are.
pub(crate) fn show_cases(rt: &HostRuntime) -> Result<()> {
    let lines = fs::read_to_string(rt, "bytecode_cases.txt")?;
    let answers = answers_of(rt.alloc(), lines.as_str())?;
    print!(rt; "{answers}")?;
    Ok(())
}

/// Times the file of a path; prints what the files of all cases are where there is none.
pub(crate) fn show_with(rt: &HostRuntime, path: Option<&str>) -> Result<()> {
    match path {
        Some(path) => time_file(rt, fs::read(rt, path)?.as_slice()),
        None => show_cases(rt),
    }
}
