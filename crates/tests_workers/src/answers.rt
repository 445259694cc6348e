//! What a run tells: the text of its report, or its fault.

ghost use Rattle.std.specs.Prelude.{◌<◌};

use crate::job::text_of;
use bytecode::decode;
use cycle_window::WindowSize;
use signals::Counted;
use std::alloc::{AllocError, Global};
use std::sync::Wait;
use std::thread::Threads;
use vcd_reader::{Dump, read_dump};
use verifier::{Verified, verify};
use workers::{NoGate, report_run};
use workers_core::TeamSize;

/// The value of a hexadecimal digit, 0 for other bytes.
fn digit(byte: u8) -> u8
    ensures { result < 16 }
{
    match byte {
        b'0'..=b'9' => byte - b'0',
        b'a'..=b'f' => byte - b'a' + 10,
        _ => 0,
    }
}

/// The bytes that hexadecimal digits spell.
fn bytes_of(alloc: Global, digits: &str) -> Result<Vec<u8>, AllocError> {
    let mut bytes = Vec::new(alloc);
    for pair in digits.as_bytes().chunks_exact(2) {
        bytes.push(digit(pair[0]) * 16 + digit(pair[1]))?;
    }
    Ok(bytes)
}

/// The program of a file, where it is accepted.
pub(crate) fn verified_of(alloc: Global, code: &str) -> Result<Option<Verified>, AllocError> {
    let bytes = bytes_of(alloc, code)?;
    let Ok(program) = decode(alloc, bytes.as_slice()) else {
        return Ok(None);
    };
    match verify(alloc, program) {
        Ok(verified) => Ok(Some(verified)),
        Err(_) => Ok(None),
    }
}

/// What a run over a dump tells.
fn told_over<R: Threads + Wait + Sync + AllocGlobal>(
    rt: &R,
    dump: Dump,
    verified: Verified,
    team: TeamSize,
    size: WindowSize,
) -> Result<String, AllocError> {
    let alloc = rt.alloc();
    match report_run(rt, alloc, dump, verified, team, size, &NoGate) {
        Ok(report) => text_of(alloc, &report, 1000),
        Err(fault) => format!(in alloc; "{fault}"),
    }
}

/// What a run of a file of bytecode over the text of a dump tells, by so many workers through
/// windows of that size.
pub(crate) fn told<R: Threads + Wait + Sync + AllocGlobal>(
    rt: &R,
    dump: &str,
    code: &str,
    workers: u64,
    size: u64,
) -> Result<String, AllocError> {
    let alloc = rt.alloc();
    let Ok(team) = TeamSize::new(workers) else {
        return String::from_str(alloc, "no team");
    };
    let Ok(size) = WindowSize::new(size) else {
        return String::from_str(alloc, "no window");
    };
    let Some(verified) = verified_of(alloc, code)? else {
        return String::from_str(alloc, "no program");
    };
    let mut source = Counted::new(dump.as_bytes());
    match read_dump(alloc, &mut source) {
        Ok(dump) => told_over(rt, dump, verified, team, size),
        Err(_) => String::from_str(alloc, "no dump"),
    }
}
