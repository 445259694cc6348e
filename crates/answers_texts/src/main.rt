//! Tells which texts are files, which of them say a suite and what that comes to, which tokens a
//! team's own texts have, and which values expressions have, against answers from outside.
//!
//! Without words it prints, each under its line, what the stored cases of its parts come to; the
//! gate compares that with `stdout`. Each part says whence its answers are: `texts` (`texts.rt`),
//! `types` (`suites.rt`, `verdicts.rt`), `tokens` (`tokens.rt`) and `values` (`values.rt`).
//!
//! ```text
//! == texts
//! 1 P4 BadBound 41
//! root || 2
//! == types
//! assertions 1
//! Y1 UnknownName 12
//! == tokens
//! begin : 0000 localparam i = 0000 ; x ; end
//! == values
//! 3 0 0 0 0 0 0
//! ```
//!
//! A part's name as the first word has it do that part alone, without its line, and what follows
//! has it time files of yours: `texts FILE`, `types NAMES FILE`.
//!
//! What is answered is said by the contracts of `lexer::lex` and `parser::parse`, of `types::check`
//! and `judging::judge`, of `import_tokens::Expansions` and `import_unrolling::unrolled`, and of
//! `expressions::value` and `count`; the definitions stand in their `specs/`, and in those of
//! `parser_grammar` and of `assertions` (`Verdicts.antt`).
//!
//! Not promised by any contract, and so shown here: which fault of P a text has, and where; where
//! numbers, strings and symbols of a team's text end, what a condition leaves out, what a macro
//! makes, and which turns a generate loop has. Not promised here either: which of several faults of
//! one kind of Y is told but the one at the lowest byte; nor that each pair of operators occurs.
#![tactic(auto)]

mod postfix;
mod roots;
mod suites;
mod texts;
mod tokens;
mod values;
mod verdicts;

use anyhow::{Result, bail};
use std::env;

/// Prints what the stored cases of all parts come to.
fn show_all(rt: &HostRuntime) -> Result<()> {
    println!(rt; "== texts")?;
    texts::show_cases(rt)?;
    println!(rt; "== types")?;
    suites::show_cases(rt)?;
    println!(rt; "== tokens")?;
    tokens::show_cases(rt)?;
    println!(rt; "== values")?;
    values::show_cases(rt)
}

/// Does what the words after a part's name ask for.
fn show_part(rt: &HostRuntime, part: &str, path: Option<&str>, text: Option<&str>) -> Result<()> {
    match part {
        "texts" => texts::show_with(rt, path),
        "types" => suites::show_with(rt, path, text),
        "tokens" => tokens::show_cases(rt),
        "values" => values::show_cases(rt),
        _ => bail!("no part has this name"),
    }
}

fn main(rt: HostRuntime) -> Result<()> {
    let mut args = env::args(&rt)?;
    let part = args.nth(1);
    let path = args.next();
    let text = args.next();
    match part {
        Some(part) => show_part(&rt, part.as_str(), path.as_deref(), text.as_deref()),
        None => show_all(&rt),
    }
}
