//! What a shell sees: the line of a fault, and the status.

use crate::shown::print_error_lines;
use cli_faults::{Fault, fault_help, fault_line, status};
use std::io::{Eprint, IsTerminal};

/// The status where the words, the input or a part of a text is refused.
pub const REFUSED_STATUS: u8 = 2;

/// Standard error, and whether it is a terminal.
pub trait StandardError: Eprint {
    /// Whether somebody sees at once what is written.
    fn is_seen(&self) -> bool;
}

impl StandardError for HostRuntime {
    fn is_seen(&self) -> bool {
        self.stderr().is_terminal()
    }
}

/// Writes what helps whoever sees the line of a fault, if there is something.
fn write_help<R: StandardError + AllocGlobal>(rt: &R, fault: &Fault) {
    if let Ok(help) = fault_help(rt.alloc(), fault) {
        if !help.is_empty() {
            let _ = eprintln!(rt; "{help}");
        }
    }
}

/// Writes the line of a fault to standard error, and to a terminal what helps; it is lost if that
/// can't be written.
fn report_fault<R: StandardError + AllocGlobal>(rt: &R, fault: &Fault) {
    match fault_line(rt.alloc(), fault) {
        Ok(line) => {
            print_error_lines(rt, line.as_str());
            let _ = eprintln!(rt; "");
        }
        Err(_) => {
            let _ = eprintln!(rt; "svamon: OutOfMemory");
        }
    }
    if rt.is_seen() {
        write_help(rt, fault);
    }
}

/// The status of a report of these totals: 0 where no attempt failed, 1 where some did.
pub fn status_of_totals<'a>(totals: Result<[u64; 5], Fault<'a>>) -> Result<u8, Fault<'a>> {
    let totals = totals?;
    Ok(status(&Ok(totals)))
}

/// The status of a command. The line of its fault goes to standard error.
pub fn report_status<R: StandardError + AllocGlobal>(rt: &R, outcome: Result<u8, Fault>) -> u8 {
    match outcome {
        Ok(done) => done,
        Err(fault) => {
            report_fault(rt, &fault);
            status(&Err(fault))
        }
    }
}
