//! The calls, each over the same dump, and their answers on a line.

use crate::outcome::told;
use crate::program::PROGRAM;
use crate::steps::board_after;
use bytecode::decode;
use cli::{NoGate, build_one, check_one, judge_one};
use cli_bytecode::run_code;
use cli_faults::Fault;
use report_lines::{Report, write_report};
use signals::{Counted, CutWriter};
use std::alloc::{AllocError, Global};
use std::sync::Wait;
use std::thread::Threads;
use vcd_reader::{Dump, VcdFault, read_dump};
use verifier::{Verified, verify};
use workers::run;
use workers_core::{Job, RunFault};

/// Three ticks, at which x is 1, 0, 1, and y is 0, 1, 0.
const DUMP: &str = "$scope module top $end\n$var wire 1 ! clk $end\n$var wire 1 x x $end\n\
    $var wire 1 y y $end\n$upscope $end\n$enddefinitions $end\n\
    #0\n0!\n1x\n0y\n#5\n1!\n#6\n0!\n0x\n1y\n#7\n1!\n#8\n0!\n1x\n0y\n#9\n1!\n";

/// Two assertions, of which the first is what `PROGRAM` runs.
const TEXT: &str = "r: assert property (@(posedge top.clk) top.x |-> top.y);\n\
    s: assert property (@(posedge top.clk) top.x |=> top.y);\n";

/// The lines of a text as one.
fn on_one_line(alloc: Global, bytes: &[u8]) -> Result<String, AllocError> {
    let text = String::from_utf8_lossy(alloc, bytes)?;
    let mut line = String::new(alloc);
    for part in text.as_str().lines() {
        if !line.as_str().is_empty() {
            line.push_str("; ")?;
        }
        line.push_str(part)?;
    }
    Ok(line)
}

/// What an answer tells: what was written, or the line of its fault.
fn line_of(
    alloc: Global,
    answer: Result<[u64; 5], Fault>,
    written: &[u8],
) -> Result<String, AllocError> {
    let told = told(alloc, answer)?;
    if told.status == 3 {
        return Err(AllocError);
    }
    if told.totals.is_none() {
        return Ok(told.line);
    }
    on_one_line(alloc, written)
}

/// How many steps the dump has.
pub fn read(alloc: Global) -> Result<String, AllocError> {
    let mut source = Counted::new(DUMP.as_bytes());
    match read_dump(alloc, &mut source) {
        Ok(dump) => format!(in alloc; "{} steps", dump.steps().len()),
        Err(VcdFault::Memory) => Err(AllocError),
        Err(fault) => format!(in alloc; "{fault}"),
    }
}

pub fn check(alloc: Global) -> Result<String, AllocError> {
    let mut source = Counted::new(DUMP.as_bytes());
    let mut out = Counted::new(CutWriter::new(alloc, 1000)?);
    let answer = check_one(alloc, &mut source, TEXT, 2, &mut out);
    line_of(alloc, answer, out.inner.as_slice())
}

pub fn judge(alloc: Global) -> Result<String, AllocError> {
    let mut source = Counted::new(DUMP.as_bytes());
    let mut out = Counted::new(CutWriter::new(alloc, 1000)?);
    let answer = judge_one(alloc, &mut source, TEXT, &mut out);
    line_of(alloc, answer, out.inner.as_slice())
}

/// The report of a program, by two workers.
fn report_on<R: Threads + Wait + Sync + AllocGlobal>(
    rt: &R,
    code: &[u8],
) -> Result<String, AllocError> {
    let alloc = rt.alloc();
    let mut source = Counted::new(DUMP.as_bytes());
    let mut out = Counted::new(CutWriter::new(alloc, 1000)?);
    let answer = run_code(rt, alloc, &mut source, code, 2, 2, &NoGate, &mut out);
    line_of(alloc, answer, out.inner.as_slice())
}

pub fn run_program<R: Threads + Wait + Sync + AllocGlobal>(rt: &R) -> Result<String, AllocError> {
    report_on(rt, PROGRAM.as_slice())
}

/// What is built is run.
pub fn build<R: Threads + Wait + Sync + AllocGlobal>(rt: &R) -> Result<String, AllocError> {
    let mut source = Counted::new(DUMP.as_bytes());
    match build_one(rt.alloc(), &mut source, TEXT, "r") {
        Ok(bytes) => report_on(rt, bytes.as_slice()),
        Err(fault) => line_of(rt.alloc(), Err(fault), &[]),
    }
}

/// The program, verified.
fn verified(alloc: Global) -> Result<Verified, AllocError> {
    let Ok(program) = decode(alloc, PROGRAM.as_slice()) else {
        return Err(AllocError);
    };
    match verify(alloc, program) {
        Ok(verified) => Ok(verified),
        Err(_) => Err(AllocError),
    }
}

/// The program twice, where there was memory for both.
fn push_two(alloc: Global, programs: &mut Vec<Verified>) -> Result<(), AllocError> {
    for _ in 0..2 {
        let program = verified(alloc)?;
        programs.push(program)?;
    }
    Ok(())
}

/// The dump.
fn dump(alloc: Global) -> Result<Dump, AllocError> {
    let mut source = Counted::new(DUMP.as_bytes());
    match read_dump(alloc, &mut source) {
        Ok(dump) => Ok(dump),
        Err(_) => Err(AllocError),
    }
}

/// The value, where what was done before it worked. Else it is let go by one call.
fn made<T: Drop>(value: T, done: Result<(), AllocError>) -> Result<T, AllocError> {
    done?;
    Ok(value)
}

/// A job of two monitors.
fn job(alloc: Global) -> Result<Job, AllocError> {
    let dump = dump(alloc)?;
    let mut programs = Vec::new(alloc);
    let pushed = push_two(alloc, &mut programs);
    let (dump, programs) = made((dump, programs), pushed)?;
    match Job::new(alloc, programs, dump, "top.clk") {
        Ok(job) => Ok(job),
        Err(_) => Err(AllocError),
    }
}

/// The replies of a core to steps, and its board.
pub fn step(alloc: Global) -> Result<String, AllocError> {
    let job = job(alloc)?;
    let board = board_after(alloc, &job);
    drop(job);
    board
}

/// The text of a report, on a line.
fn report_line(alloc: Global, report: &Report) -> Result<String, AllocError> {
    let mut out = Counted::new(CutWriter::new(alloc, 1000)?);
    match write_report(alloc, report, &mut out) {
        Ok(()) => on_one_line(alloc, out.inner.as_slice()),
        Err(_) => Err(AllocError),
    }
}

/// The job, made once more where there was no memory for it.
pub fn job_for_runs(alloc: Global) -> Result<Job, AllocError> {
    match job(alloc) {
        Ok(job) => Ok(job),
        Err(_) => job(alloc),
    }
}

/// The report of a job, by two workers.
pub fn run_job<R: Threads + Wait + Sync + AllocGlobal>(
    rt: &R,
    job: &Job,
) -> Result<String, AllocError> {
    let alloc = rt.alloc();
    match run(rt, alloc, job, 2, 2, &NoGate) {
        Ok(report) => report_line(alloc, &report),
        Err(RunFault::Memory) => Err(AllocError),
        Err(_) => String::from_str(alloc, "another fault"),
    }
}
