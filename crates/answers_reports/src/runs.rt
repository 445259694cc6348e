//! Runs of `check` and of `judge` over a dump, and what they tell.

use anyhow::{Result, bail};
use cli::{Fault, NoGate, check_all, check_one, fault_line, judge_one, status};
use signals::{Counted, CutWriter};
use std::alloc::Global;
use std::sync::Wait;
use std::thread::Threads;

/// How many clocks the windows of a team have.
const TEAM_WINDOW: u64 = 2;

/// The most bytes of a report.
const ROOM: usize = 1_000_000;

/// What a run tells: its report, or the line of its fault; and the status of the program `svamon`.
#[derive(Drop)]
pub struct Answer {
    pub text: String,
    pub status: u8,
}

/// What an answer tells, with what was written.
fn told_by(alloc: Global, answer: &Result<[u64; 5], Fault>, written: &[u8]) -> Result<Answer> {
    let status = status(answer);
    let text = match answer {
        Ok(_) => String::from_utf8_lossy(alloc, written)?,
        Err(fault) if written.is_empty() => {
            let line = fault_line(alloc, fault)?;
            format!(in alloc; "{line}\n")?
        }
        Err(_) => bail!("it was refused behind a beginning"),
    };
    Ok(Answer { text, status })
}

/// What `check` tells of a text over a dump, through windows of so many clocks.
pub fn checked_answer(alloc: Global, dump: &str, text: &str, window: u64) -> Result<Answer> {
    let mut source = Counted::new(dump.as_bytes());
    let mut out = Counted::new(CutWriter::new(alloc, ROOM)?);
    let answer = check_one(alloc, &mut source, text, window, &mut out);
    told_by(alloc, &answer, out.inner.as_slice())
}

/// What `check` tells of a text over a dump by so many workers, through windows of two clocks.
pub fn team_answer<R: AllocGlobal + Threads + Wait + Sync>(
    rt: &R,
    dump: &str,
    text: &str,
    workers: u64,
) -> Result<Answer> {
    let alloc = rt.alloc();
    let mut source = Counted::new(dump.as_bytes());
    let mut out = Counted::new(CutWriter::new(alloc, ROOM)?);
    let answer = check_all(
        rt,
        alloc,
        &mut source,
        text,
        workers,
        TEAM_WINDOW,
        &NoGate,
        &mut out,
    );
    told_by(alloc, &answer, out.inner.as_slice())
}

/// What `judge` tells of a text over a dump.
pub fn judged_answer(alloc: Global, dump: &str, text: &str) -> Result<Answer> {
    let mut source = Counted::new(dump.as_bytes());
    let mut out = Counted::new(CutWriter::new(alloc, ROOM)?);
    let answer = judge_one(alloc, &mut source, text, &mut out);
    told_by(alloc, &answer, out.inner.as_slice())
}
