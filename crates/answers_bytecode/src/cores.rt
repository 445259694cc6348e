//! What steps of cores come to, allowed or not.
//!
//! `data/core_cases.txt` has cases, between which byte 1 stands, each of four parts, between which
//! byte 2 stands: a dump, whose clock is `clk`; files of bytecode in hexadecimal digits, one a
//! line; a line with the number of workers and the most clocks of a window; and the steps, one a
//! line:
//!
//! ```text
//! slide
//! claim 0
//! advance 0 3
//! publish 0
//! gather
//! ```
//!
//! Of each case it prints the replies, a letter for each step, and the board: its batches, or,
//! after a thousand steps and more, a sum of their lines. A step for which there was no memory is
//! made once more, so `make allocations` can refuse each allocation in turn.
//!
//! `scripts/models/core_cases.py` made the cases, with the answers of a core of its own. The word
//! `cores` alone has it read cases of the same form from standard input.

use crate::job::job_of;
use crate::step_words::{batch_line, letter, step_of};
use crate::sum::sum_of;
use anyhow::{Context, Result, bail};
use std::alloc::Global;
use std::fs;
use std::fs::Files;
use std::io::{Print, Read};
use workers_core::{Core, Job, Reply, Step};

/// The most steps of a list whose board is printed whole.
const SHORT: usize = 1_000;

/// The steps of a list.
fn steps_of(alloc: Global, text: &str) -> Result<Vec<Step>> {
    let mut steps = Vec::new(alloc);
    for line in text.lines() {
        steps.push(step_of(line)?)?;
    }
    Ok(steps)
}

/// A core of a job, by the line of its workers and its window.
fn core_of<'j>(alloc: Global, job: &'j Job, line: &str) -> Result<Core<'j>> {
    let (workers, size) = line.trim_end().split_once(' ').context("no window")?;
    let Ok(core) = Core::new(
        alloc,
        job,
        workers.parse::<usize>()?,
        size.parse::<usize>()?,
    ) else {
        bail!("there is no core");
    };
    Ok(core)
}

/// The reply to a step, which is made once more where there was no memory.
fn reply(alloc: Global, core: &mut Core<'_>, step: Step) -> Reply {
    match core.step(alloc, step) {
        Reply::Memory => core.step(alloc, step),
        other => other,
    }
}

/// The replies to steps.
fn replies(alloc: Global, core: &mut Core<'_>, steps: &[Step]) -> Result<String> {
    let mut text = String::new(alloc);
    for step in steps {
        let reply = reply(alloc, core, *step);
        text.push_str(letter(reply))?;
    }
    Ok(text)
}

/// The lines of a board.
fn board_lines(alloc: Global, core: &Core<'_>) -> Result<String> {
    let mut lines = String::new(alloc);
    for batch in core.board() {
        lines.push_str(batch_line(alloc, batch)?.as_str())?;
    }
    Ok(lines)
}

/// Prints the lines of so many batches, or their sum after many steps.
fn show_board<R: Print>(rt: &R, lines: &str, batches: usize, steps: usize) -> Result<()> {
    if steps <= SHORT {
        print!(rt; "{lines}")?;
    } else {
        let sum = sum_of(lines.as_bytes());
        println!(rt; "batches {batches} sum {sum:016x}")?;
    }
    Ok(())
}

/// Makes the steps, and prints the replies and the board, once there was memory for both.
fn show_steps<R: Print + AllocGlobal>(rt: &R, core: &mut Core<'_>, steps: &[Step]) -> Result<()> {
    let replies = replies(rt.alloc(), core, steps)?;
    let lines = board_lines(rt.alloc(), core)?;
    println!(rt; "replies {replies}")?;
    show_board(rt, lines.as_str(), core.board().len(), steps.len())
}

/// Prints what steps of a job's core come to.
fn show_core<R: Print + AllocGlobal>(rt: &R, job: &Job, team: &str, steps: &str) -> Result<()> {
    let steps = steps_of(rt.alloc(), steps)?;
    let mut core = core_of(rt.alloc(), job, team)?;
    let shown = show_steps(rt, &mut core, steps.as_slice());
    drop(core);
    shown
}

/// Prints what a case came to.
fn show_case<R: Print + AllocGlobal>(rt: &R, case: &str) -> Result<()> {
    let (dump, rest) = case.split_once('\x02').context("no programs")?;
    let (programs, rest) = rest.split_once('\x02').context("no workers")?;
    let (team, steps) = rest.split_once('\x02').context("no steps")?;
    let job = job_of(rt.alloc(), dump, programs)?;
    let shown = show_core(rt, &job, team, steps);
    drop(job);
    shown
}

/// Prints what all cases of a text came to.
fn show_each<R: Print + AllocGlobal>(rt: &R, cases: &str) -> Result<()> {
    for case in cases.split('\x01') {
        show_case(rt, case)?;
    }
    Ok(())
}

/// Shows the stored cases.
pub(crate) fn show_cases<R: Files + Print + AllocGlobal>(rt: &R) -> Result<()> {
    let cases = fs::read_to_string(rt, "core_cases.txt")?;
    show_each(rt, cases.as_str())
}

/// Shows the cases on standard input.
pub(crate) fn show_input(rt: &HostRuntime) -> Result<()> {
    let mut cases = String::new(rt.alloc());
    rt.stdin().read_to_string(&mut cases)?;
    show_each(rt, cases.as_str())
}
