//! Which texts are files, and what stands at the roots of trees.
//!
//! Of each text of `data/texts.txt`, one a line, it prints whether it is a file, or else its fault.
//! Of what is asserted on each line of `data/roots.txt` it prints the sign or word at the root of
//! the tree, and how many parts it has.
//!
//! ```text
//! assert property (@(posedge c) a |-> ##[3:1] b);    1 P4 BadBound 41
//! a || b && c                                        root || 2
//! ```
//!
//! `scripts/models/reference_parser.py`, an Earley recogniser over the grammar as
//! `docs/DEFINITIONS.md` has it, worked out which texts are files and where others go wrong; the
//! roots were worked out by hand from the standard's table of precedence (IEEE 1800-2017, table
//! 11-2, and 16.9 for sequences). With a file's name it reads that file as one text, and prints how
//! long cutting it into tokens and reading them took (`bench/texts`).

use crate::roots::root_of_file;
use anyhow::Result;
use lexer::{LexFault, Token, lex};
use parser::{ParseFault, parse};
use std::alloc::Global;
use std::fs;
use std::time::Instant;

/// The fault's code, name and payload, as the program `svamon` prints them.
fn parse_line(alloc: Global, fault: ParseFault) -> Result<String> {
    let line = match fault {
        ParseFault::Expected(_, at) => format!(in alloc; "P1 Expected {at}")?,
        ParseFault::OutsideProfile(word, at) => format!(in alloc; "P2 OutsideProfile {word} {at}")?,
        ParseFault::TooDeep(at) => format!(in alloc; "P3 TooDeep {at}")?,
        ParseFault::BadBound(at) => format!(in alloc; "P4 BadBound {at}")?,
        ParseFault::Memory => String::from_str(alloc, "OutOfMemory")?,
    };
    Ok(line)
}

fn lex_line(alloc: Global, fault: LexFault) -> Result<String> {
    Ok(format!(in alloc; "{fault}")?)
}

/// What the text is.
fn verdict(alloc: Global, text: &str) -> Result<String> {
    let tokens = match lex(alloc, text) {
        Ok(tokens) => tokens,
        Err(fault) => return lex_line(alloc, fault),
    };
    match parse(alloc, tokens.as_slice()) {
        Ok(_) => Ok(String::from_str(alloc, "read")?),
        Err(fault) => parse_line(alloc, fault),
    }
}

/// What stands at the root of the assertion of a text, or its fault.
fn root_in(alloc: Global, text: &str) -> Result<String> {
    let tokens = match lex(alloc, text) {
        Ok(tokens) => tokens,
        Err(fault) => return lex_line(alloc, fault),
    };
    match parse(alloc, tokens.as_slice()) {
        Ok(file) => {
            let (word, parts) = root_of_file(&file);
            Ok(format!(in alloc; "{word} {parts}")?)
        }
        Err(fault) => parse_line(alloc, fault),
    }
}

/// What stands at the root of what is asserted, or the fault of its text.
fn root_line(alloc: Global, asserted: &str) -> Result<String> {
    let text = format!(in alloc; "assert property (@(posedge c) {asserted});")?;
    root_in(alloc, text.as_str())
}

/// Reads a text's tokens; how long that took, how many they are, and what they are.
fn time_tokens(rt: &HostRuntime, tokens: &[Token<'_>]) -> Result<String> {
    let start = Instant::now(rt)?;
    let fault = parse(rt.alloc(), tokens).err();
    let took = start.elapsed(rt)?.as_micros();
    let read = match fault {
        None => String::from_str(rt.alloc(), "read")?,
        Some(fault) => parse_line(rt.alloc(), fault)?,
    };
    Ok(format!(in rt.alloc(); "parse {took} us tokens {} {read}", tokens.len())?)
}

/// Cuts and reads a text, and prints how long each took.
fn time_text(rt: &HostRuntime, text: &str) -> Result<()> {
    let start = Instant::now(rt)?;
    let tokens = lex(rt.alloc(), text);
    let cut = start.elapsed(rt);
    let told = match tokens {
        Ok(tokens) => time_tokens(rt, tokens.as_slice()),
        Err(fault) => lex_line(rt.alloc(), fault),
    };
    println!(rt; "lex {} us {}", cut?.as_micros(), told?)?;
    Ok(())
}

/// Prints what the texts of a file are.
fn show_texts(rt: &HostRuntime) -> Result<()> {
    let texts = fs::read_to_string(rt, "texts.txt")?;
    let mut number = 0u64;
    for text in texts.lines() {
        number = number.saturating_add(1);
        let verdict = verdict(rt.alloc(), text)?;
        println!(rt; "{number} {verdict}")?;
    }
    Ok(())
}

/// Prints what stands at the roots of what a file's lines assert.
fn show_roots(rt: &HostRuntime) -> Result<()> {
    let texts = fs::read_to_string(rt, "roots.txt")?;
    for text in texts.lines() {
        let root = root_line(rt.alloc(), text)?;
        println!(rt; "root {root}")?;
    }
    Ok(())
}

/// Prints what the stored texts are, and what stands at the roots of what is asserted.
pub(crate) fn show_cases(rt: &HostRuntime) -> Result<()> {
    show_texts(rt)?;
    show_roots(rt)
}

/// Times cutting and reading the text of a path; shows the stored ones where there is none.
pub(crate) fn show_with(rt: &HostRuntime, path: Option<&str>) -> Result<()> {
    if let Some(path) = path {
        let text = fs::read_to_string(rt, path)?;
        return time_text(rt, text.as_str());
    }
    show_cases(rt)
}
