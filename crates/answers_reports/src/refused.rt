//! Calls that take memory, each made twice, and what they answer, so that each request for memory
//! can be refused in turn.
//!
//! The answers were worked out by hand. `scripts/tools/fail_alloc -1` refuses each allocation in
//! turn: the line of the call at which it was refused is `out of memory`, or the right one, and all
//! other lines are the right ones, that of the same call again among them. A step of a core for
//! which there was no memory is made once more at once, and is then to succeed.
//!
//! The calls are `read_dump`, `check_one`, `judge_one`, `build_one`, `run_code`, the steps of a
//! core, and `run` with two workers, twice over the same job. Behind them are the lines of three
//! faults that no command prints.
//!
//! Not promised: that these are all requests that these calls can make.

use crate::calls;
use crate::outcome::line_and_status;
use cli_faults::Fault;
use std::alloc::AllocError;
use std::io;
use std::io::Print;
use std::sync::Wait;
use std::thread::Threads;
use vcd_reader::VcdFault;
use workers_core::Job;

/// Prints the line of a call's answer.
fn show<R: Print>(rt: &R, name: &str, answer: Result<String, AllocError>) -> io::Result<()> {
    match answer {
        Ok(line) => println!(rt; "{name}: {line}"),
        Err(_) => println!(rt; "out of memory"),
    }
}

/// Runs a job twice.
fn show_two_runs<R: Print + Threads + Wait + Sync + AllocGlobal>(
    rt: &R,
    job: &Job,
) -> io::Result<()> {
    for _ in 0..2 {
        show(rt, "run", calls::run_job(rt, job))?;
    }
    Ok(())
}

/// Runs one job twice.
fn show_runs<R: Print + Threads + Wait + Sync + AllocGlobal>(rt: &R) -> io::Result<()> {
    match calls::job_for_runs(rt.alloc()) {
        Ok(job) => show_two_runs(rt, &job),
        Err(_) => show(rt, "run", Err(AllocError)),
    }
}

/// Reads the dump, and checks and judges the text over it, each twice.
fn show_reports<R: Print + AllocGlobal>(rt: &R) -> io::Result<()> {
    let alloc = rt.alloc();
    for _ in 0..2 {
        show(rt, "read_dump", calls::read(alloc))?;
    }
    for _ in 0..2 {
        show(rt, "check_one", calls::check(alloc))?;
    }
    for _ in 0..2 {
        show(rt, "judge_one", calls::judge(alloc))?;
    }
    Ok(())
}

/// Builds and runs the program, and makes the steps of a core, each twice.
fn show_programs<R: Print + Threads + Wait + Sync + AllocGlobal>(rt: &R) -> io::Result<()> {
    for _ in 0..2 {
        show(rt, "build_one", calls::build(rt))?;
    }
    for _ in 0..2 {
        show(rt, "run_code", calls::run_program(rt))?;
    }
    for _ in 0..2 {
        show(rt, "steps of a core", calls::step(rt.alloc()))?;
    }
    Ok(())
}

/// Prints the lines of the faults that no command prints: the sizes of windows and teams are looked
/// at with the words of the command line, and V7 takes a dump with over 2^32 - 1 changes.
fn show_faults<R: Print + AllocGlobal>(rt: &R) -> io::Result<()> {
    let alloc = rt.alloc();
    show(rt, "fault", line_and_status(alloc, Fault::BadSize))?;
    show(rt, "fault", line_and_status(alloc, Fault::BadWorkers))?;
    let large = Fault::Vcd(VcdFault::TooLarge);
    show(rt, "fault", line_and_status(alloc, large))
}

/// Makes all calls, and prints what they answer.
pub fn show_calls<R: Print + Threads + Wait + Sync + AllocGlobal>(rt: &R) -> io::Result<()> {
    show_reports(rt)?;
    show_programs(rt)?;
    show_runs(rt)?;
    show_faults(rt)
}
