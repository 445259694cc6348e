//! Texts that go to standard output.

use crate::assertions_text::read_rules;
use crate::shown::shown_output;
use cli_faults::Fault;
use cli_words::VERSION;
use report_lines::ReportFault;
use signals::{Sink, write_all};
use std::fs::Files;
use std::io::Print;

/// Writes all of some bytes to standard output, as they may be shown.
pub fn print_bytes<R: Print + AllocGlobal>(rt: &R, bytes: &[u8]) -> Result<(), Fault<'static>> {
    let mut out = shown_output(rt);
    if write_all(&mut out, bytes).is_err() || out.flush().is_err() {
        return Err(Fault::Report(ReportFault::Write));
    }
    Ok(())
}

/// The program's name and version go to standard output.
pub(crate) fn print_version<R: Print + AllocGlobal>(rt: &R) -> Result<(), Fault<'static>> {
    let line = format!(in rt.alloc(); "svamon {VERSION}\n")?;
    print_bytes(rt, line.as_bytes())
}

/// The rules of the ports that a file names go to standard output.
pub fn print_rules<R: Files + Print + AllocGlobal>(
    rt: &R,
    axi: &str,
) -> Result<(), Fault<'static>> {
    let rules = read_rules(rt, axi)?;
    print_bytes(rt, rules.as_bytes())
}
