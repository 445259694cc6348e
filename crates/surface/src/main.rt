//! Uses the planned crates by their roots alone: it fails to build if an item of one is missing.
//!
//! `items.rt` names each item by the root of its own crate. Here a dump and a text go through these
//! calls, as a user of the crates would write it: the report by programs and by the slow judge, a
//! program as bytes and back, and the first fault of a text with a bad one.
//!
//! ```text
//! svamon 1
//! clocks 1
//! monitor r holds 0 vacuous 0 fails 1 disabled 0 open 0
//! fail r start 0 clock 0
//! ..
//! ```
//!
//! The gate compares what it prints with `stdout`, which is written by hand from the format of
//! reports, of limits and of faults. What each call answers is said by its contract.
//!
//! Not promised: that each item is called.
#![tactic(auto)]

mod items;

use crate::items::{build_one, check_one, fault_line, judge_one, run_code, status, verify_code};
use anyhow::Result;
use cli::{Fault, NoGate};
use signals::{Counted, CutWriter};
use std::alloc::Global;
use std::io::Print;
use std::sync::Wait;
use std::thread::Threads;

/// A dump with one tick, at which x is 1 and y is 0.
const DUMP: &str = "$timescale 1ns $end
$scope module top $end
$var wire 1 ! clk $end
$var wire 1 \" x $end
$var wire 1 # y $end
$upscope $end
$enddefinitions $end
#0
0!
1\"
0#
#5
1!
";

/// An assertion that fails at that tick.
const TEXT: &str = "r: assert property (@(posedge top.clk) top.x |-> top.y);\n";

/// An assertion without the name of its clock.
const BAD_TEXT: &str = "r: assert property (@(posedge) top.x |-> top.y);\n";

/// The most bytes that a call writes.
const ROOM: usize = 4096;

/// Prints what was written, or the line of the fault, and the status.
fn print_answer<R: Print + AllocGlobal>(
    rt: &R,
    answer: &Result<[u64; 5], Fault>,
    written: &[u8],
) -> Result<()> {
    let text = String::from_utf8_lossy(rt.alloc(), written)?;
    print!(rt; "{text}")?;
    if let Err(fault) = answer {
        let line = fault_line(rt.alloc(), fault)?;
        println!(rt; "{line}")?;
    }
    println!(rt; "status {}", status(answer))?;
    Ok(())
}

/// Prints the report on a text by programs, in windows of 16 clocks.
fn print_check<R: Print + AllocGlobal>(rt: &R, text: &str) -> Result<()> {
    let mut out = Counted::new(CutWriter::new(rt.alloc(), ROOM)?);
    let mut dump = Counted::new(DUMP.as_bytes());
    let answer = check_one(rt.alloc(), &mut dump, text, 16, &mut out);
    print_answer(rt, &answer, out.inner.as_slice())
}

/// Prints the same report by the slow judge.
fn print_judge<R: Print + AllocGlobal>(rt: &R, text: &str) -> Result<()> {
    let mut out = Counted::new(CutWriter::new(rt.alloc(), ROOM)?);
    let mut dump = Counted::new(DUMP.as_bytes());
    let answer = judge_one(rt.alloc(), &mut dump, text, &mut out);
    print_answer(rt, &answer, out.inner.as_slice())
}

/// The bytes of the assertion's program.
fn program_of(alloc: Global) -> Result<Vec<u8>> {
    let mut dump = Counted::new(DUMP.as_bytes());
    match build_one(alloc, &mut dump, TEXT, "r") {
        Ok(bytes) => Ok(bytes),
        Err(_) => anyhow::bail!("there is no program"),
    }
}

/// Prints the limits of a program, and its report by two workers.
fn print_program<R: Print + AllocGlobal + Threads + Wait + Sync>(
    rt: &R,
    bytes: &[u8],
) -> Result<()> {
    let mut limits = Counted::new(CutWriter::new(rt.alloc(), ROOM)?);
    if verify_code(rt.alloc(), bytes, &mut limits).is_err() {
        anyhow::bail!("it may not run");
    }
    let text = String::from_utf8_lossy(rt.alloc(), limits.inner.as_slice())?;
    print!(rt; "{text}")?;
    let mut out = Counted::new(CutWriter::new(rt.alloc(), ROOM)?);
    let mut dump = Counted::new(DUMP.as_bytes());
    let answer = run_code(rt, rt.alloc(), &mut dump, bytes, 2, 16, &NoGate, &mut out);
    print_answer(rt, &answer, out.inner.as_slice())
}

fn main(rt: HostRuntime) -> Result<()> {
    print_check(&rt, TEXT)?;
    print_judge(&rt, TEXT)?;
    let bytes = program_of(rt.alloc())?;
    print_program(&rt, bytes.as_slice())?;
    print_check(&rt, BAD_TEXT)
}
