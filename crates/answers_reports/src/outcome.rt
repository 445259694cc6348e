//! What answers of `cli` and `cli_bytecode` tell. The one place that lets go of a fault, a value of
//! many variants: a function that held one over a `?` would write out its drop on each path.

use cli_faults::{Fault, fault_line, status};
use std::alloc::{AllocError, Global};

/// What an answer tells: its counts or the line of its fault, and its status.
#[derive(Drop)]
pub struct Outcome {
    pub totals: Option<[u64; 5]>,
    /// No line where it is no fault.
    pub line: String,
    pub status: u8,
}

/// The line of an answer's fault, or none.
fn line_of(alloc: Global, answer: &Result<[u64; 5], Fault>) -> Result<String, AllocError> {
    match answer {
        Ok(_) => Ok(String::new(alloc)),
        Err(fault) => fault_line(alloc, fault),
    }
}

/// What an answer tells.
pub fn told(alloc: Global, answer: Result<[u64; 5], Fault>) -> Result<Outcome, AllocError> {
    let status = status(&answer);
    let line = line_of(alloc, &answer);
    let totals = answer.ok();
    let line = line?;
    Ok(Outcome {
        totals,
        line,
        status,
    })
}

/// The line of a fault, and its status.
pub fn line_and_status(alloc: Global, fault: Fault) -> Result<String, AllocError> {
    let told = told(alloc, Err(fault))?;
    format!(in alloc; "{}, status {}", told.line, told.status)
}
