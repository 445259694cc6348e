//! Jobs of a case.

use crate::digits::bytes_of;
use anyhow::{Result, bail};
use bytecode::decode;
use signals::Counted;
use std::alloc::Global;
use vcd_reader::{Dump, read_dump};
use verifier::{Verified, verify};
use workers_core::Job;

/// The verified program of a file in hexadecimal digits.
fn program_of(alloc: Global, digits: &str) -> Result<Verified> {
    let bytes = bytes_of(alloc, digits)?;
    let Ok(program) = decode(alloc, bytes.as_slice()) else {
        bail!("no program is spelled");
    };
    match verify(alloc, program) {
        Ok(verified) => Ok(verified),
        Err(_) => bail!("a program is refused"),
    }
}

/// Adds the programs of a job, one a line.
fn push_programs(alloc: Global, programs: &mut Vec<Verified>, lines: &str) -> Result<()> {
    for line in lines.lines() {
        let program = program_of(alloc, line)?;
        programs.push(program)?;
    }
    Ok(())
}

/// The programs of a job, one a line.
fn programs_of(alloc: Global, lines: &str) -> Result<Vec<Verified>> {
    let mut programs = Vec::new(alloc);
    push_programs(alloc, &mut programs, lines)?;
    Ok(programs)
}

/// The dump of a text.
fn dump_of(alloc: Global, text: &str) -> Result<Dump> {
    let mut source = Counted::new(text.as_bytes());
    match read_dump(alloc, &mut source) {
        Ok(dump) => Ok(dump),
        Err(_) => bail!("a dump is refused"),
    }
}

/// Both, where both are there. What one of them holds is let go by one call.
fn both<A: Drop, B: Drop>(first: Result<A>, second: Result<B>) -> Result<(A, B)> {
    Ok((first?, second?))
}

/// The job of programs over a dump.
pub(crate) fn job_of(alloc: Global, dump: &str, programs: &str) -> Result<Job> {
    let dump = dump_of(alloc, dump);
    let (dump, programs) = both(dump, programs_of(alloc, programs))?;
    match Job::new(alloc, programs, dump, "clk") {
        Ok(job) => Ok(job),
        Err(_) => bail!("there is no job"),
    }
}
