//! Prints the report of each example: its assertions, or the rules of its port, judged over its
//! dump.
//!
//! The examples lie in `data/`, a folder each with `dump.vcd`, `assertion.sva` and, where they are
//! the rules of an AXI4 port, `ports.txt`; `data/README.md` says what each shows. Of each it prints
//! the name, the text or the ports, the report as `svamon judge` writes it, and the status:
//!
//! ```text
//! == fails_at_its_tick
//! r: assert property (@(posedge top.clk) top.x |-> top.y);
//! svamon 1
//! clocks 1
//! monitor r holds 0 vacuous 0 fails 1 disabled 0 open 0
//! ..
//! ```
//!
//! `make demo` runs it without proof (`rt try`), for a first look; the gate proves it, and compares
//! what it prints with `stdout`, which `scripts/models/judge_examples.py` worked out from the
//! definition by trying all matches. The definitions are those of `cli::judge_one` (`cli/specs`).
//!
//! Not promised: that the files are there; an error of a file ends the program with that error.
#![tactic(auto)]

use axi4_rules::{joined_text, port_rules};
use cli::{fault_line, judge_one, status};
use signals::Counted;
use std::env::Env;
use std::fs::{File, Files};
use std::io::{ErrorKind, Print};
use std::process::ExitCode;
use std::{env, fs, io};

/// The examples but that with a port, by the names of their directories.
const EXAMPLES: [&str; 10] = [
    "fails_at_its_tick",
    "one_then_down",
    "push_needs_a_request",
    "full_is_popped",
    "whole_profile",
    "handshake",
    "pipeline",
    "outstanding",
    "reset",
    "fifo_arb",
];

/// A file of an example, as text.
fn read_file<R: Files + AllocGlobal>(
    rt: &R,
    folder: &str,
    name: &str,
    file: &str,
) -> io::Result<String> {
    let path = format!(in rt.alloc(); "{folder}/{name}/{file}")?;
    fs::read_to_string(rt, path.as_str())
}

/// Prints the report on a text over an example's dump, and the status that svamon gives for it.
fn print_report<R: Files + Print + AllocGlobal>(
    rt: &R,
    folder: &str,
    name: &str,
    text: &str,
) -> io::Result<()> {
    let path = format!(in rt.alloc(); "{folder}/{name}/dump.vcd")?;
    let mut dump = Counted::new(File::open(rt, path.as_str())?);
    let mut out = Counted::new(io::writer(rt));
    let outcome = judge_one(rt.alloc(), &mut dump, text, &mut out);
    if let Err(fault) = &outcome {
        let line = fault_line(rt.alloc(), fault)?;
        println!(rt; "{line}")?;
    }
    println!(rt; "status {}", status(&outcome))
}

/// Prints an example's text, the report on it, and the status that svamon gives for it.
fn show<R: Files + Print + AllocGlobal>(rt: &R, folder: &str, name: &str) -> io::Result<()> {
    let text = read_file(rt, folder, name, "assertion.sva")?;
    println!(rt; "== {name}")?;
    print!(rt; "{text}")?;
    print_report(rt, folder, name, text.as_str())
}

/// Prints the port file of the example with an AXI4 port, the report on the rules of its port, and
/// the status.
fn show_port<R: Files + Print + AllocGlobal>(rt: &R, folder: &str) -> io::Result<()> {
    let text = read_file(rt, folder, "axi_port", "assertion.sva")?;
    let ports = read_file(rt, folder, "axi_port", "ports.txt")?;
    println!(rt; "== axi_port")?;
    print!(rt; "{ports}")?;
    let Ok(rules) = port_rules(rt.alloc(), ports.as_str()) else {
        return Err(io::Error::from(ErrorKind::InvalidData));
    };
    let text = joined_text(rt.alloc(), text.as_str(), rules.as_str())?;
    print_report(rt, folder, "axi_port", text.as_str())
}

/// The folder of the examples: the first word after the program's name, or the one that it runs
/// in.
fn folder_of<R: Env + AllocGlobal>(rt: &R) -> io::Result<String> {
    match env::args(rt)?.nth(1) {
        Some(folder) => Ok(folder),
        None => Ok(String::from_str(rt.alloc(), ".")?),
    }
}

fn main(rt: HostRuntime) -> io::Result<()> {
    let folder = folder_of(&rt)?;
    show_port(&rt, folder.as_str())?;
    for name in EXAMPLES {
        show(&rt, folder.as_str(), name)?;
    }
    Ok(())
}
