//! Jobs of programs over the text of a dump.

use crate::answers::verified_of;
use report_lines::{Report, write_report};
use signals::{Counted, CutWriter};
use std::alloc::{AllocError, Global};
use std::test::Fail;
use vcd_reader::read_dump;
use verifier::Verified;
use workers_core::Job;

/// The programs of files, in their order.
fn programs_of(alloc: Global, codes: &[&str]) -> Result<Vec<Verified>, Fail> {
    let mut programs = Vec::new(alloc);
    for code in codes {
        let Some(verified) = verified_of(alloc, code)? else {
            return Err(Fail::from("no program"));
        };
        programs.push(verified)?;
    }
    Ok(programs)
}

/// The job of programs on `top.clk`.
pub(crate) fn job_of(alloc: Global, dump: &str, codes: &[&str]) -> Result<Job, Fail> {
    let programs = programs_of(alloc, codes)?;
    let mut source = Counted::new(dump.as_bytes());
    let Ok(dump) = read_dump(alloc, &mut source) else {
        return Err(Fail::from("no dump"));
    };
    match Job::new(alloc, programs, dump, "top.clk") {
        Ok(job) => Ok(job),
        Err(_) => Err(Fail::from("no job")),
    }
}

/// The text of a report, of at most so many bytes.
pub(crate) fn text_of(alloc: Global, report: &Report, most: usize) -> Result<String, AllocError> {
    let mut out = Counted::new(CutWriter::new(alloc, most)?);
    if write_report(alloc, report, &mut out).is_err() {
        return String::from_str(alloc, "not written");
    }
    match std::str::from_utf8(out.inner.as_slice()) {
        Ok(text) => String::from_str(alloc, text),
        Err(_) => String::from_str(alloc, "no text"),
    }
}
