//! The tokens of a team's own texts.
//!
//! Of each text of `data/tokens.txt` (a byte 1 stands between two) it prints the tokens, with
//! macros written out, or else the fault and its byte. `SIZE` is a macro that stands for 8. Of each
//! line of `data/constructs.txt` it prints the tokens with generate loops and conditions written
//! out.
//!
//! ```text
//! `ifdef SIZE w `else v `endif                    w
//! for (i = 0; i < 1; i++) begin x; end            begin : 0000 localparam i = 0000 ; x ; end
//! ```
//!
//! What is printed was worked out by hand: tokens and macros by IEEE 1800-2017, clauses 5 and 22,
//! generate constructs by 27.4 and 27.5.

use anyhow::Result;
use import_tokens::{Expansions, Macros, Token, TokenFault};
use import_unrolling::{digits_of, numbers_of, unrolled};
use std::alloc::{AllocError, Global};
use std::fs;

/// The texts of tokens, with a space between two.
fn joined(alloc: Global, tokens: &[Token<'_>]) -> Result<String, AllocError> {
    let mut line = Vec::new(alloc);
    for token in tokens {
        if !line.is_empty() && !token.text.is_empty() {
            line.push(b' ')?;
        }
        line.extend_from_slice(token.text)?;
    }
    String::from_utf8_lossy(alloc, line.as_slice())
}

/// A fault, and the byte at which it stands.
fn fault_line(alloc: Global, fault: TokenFault) -> Result<String, AllocError> {
    let at = match fault {
        TokenFault::UnclosedComment(at) => at,
        TokenFault::StrayConditional(at) => at,
        TokenFault::UnclosedConditional(at) => at,
        TokenFault::Memory => return Err(AllocError),
    };
    format!(in alloc; "{fault} {at}")
}

/// The tokens of a text.
fn read(alloc: Global, text: &str) -> Result<String, TokenFault> {
    let mut macros = Macros::new(alloc);
    macros.define(b"SIZE", b"8")?;
    let expansions = Expansions::of(alloc, text.as_bytes(), &mut macros)?;
    let tokens = expansions.tokens(alloc)?;
    Ok(joined(alloc, tokens.as_slice())?)
}

/// The tokens of a text, with generate constructs written out.
fn written_out(alloc: Global, text: &str, digits: &[u8]) -> Result<String, TokenFault> {
    let mut macros = Macros::new(alloc);
    let expansions = Expansions::of(alloc, text.as_bytes(), &mut macros)?;
    let tokens = expansions.tokens(alloc)?;
    let numbers = numbers_of(alloc, digits)?;
    let all = unrolled(alloc, tokens, numbers.as_slice())?;
    Ok(joined(alloc, all.as_slice())?)
}

/// The line of an answer.
fn line_of(alloc: Global, answer: Result<String, TokenFault>) -> Result<String, AllocError> {
    match answer {
        Ok(line) => Ok(line),
        Err(fault) => fault_line(alloc, fault),
    }
}

/// Prints the tokens of the stored texts, and those of the stored generate constructs.
pub(crate) fn show_cases(rt: &HostRuntime) -> Result<()> {
    let alloc = rt.alloc();
    let texts = fs::read_to_string(rt, "tokens.txt")?;
    for text in texts.split('\x01') {
        let line = line_of(alloc, read(alloc, text))?;
        println!(rt; "{line}")?;
    }
    let digits = digits_of(alloc)?;
    let constructs = fs::read_to_string(rt, "constructs.txt")?;
    for text in constructs.lines() {
        let line = line_of(alloc, written_out(alloc, text, digits.as_slice()))?;
        println!(rt; "{line}")?;
    }
    Ok(())
}
