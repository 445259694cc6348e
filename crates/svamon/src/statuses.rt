//! The status of a command over a text, and the line of a fault that may borrow a word of it.

use cli::Fault;
use cli_shell::{REFUSED_STATUS, StandardError, moved_fault, report_status};
use lint::Rest;
use source_files::Added;

/// The status of an outcome; the line of a fault goes to standard error, with the byte that it has
/// in the files.
pub(crate) fn report_moved_status<R: StandardError + AllocGlobal>(
    rt: &R,
    added: &[Added],
    outcome: Result<u8, Fault<'_>>,
) -> u8 {
    match outcome {
        Ok(status) => status,
        Err(fault) => report_status(rt, Err(moved_fault(added, fault))),
    }
}

/// The status where some items were refused, which were told, and the rest was judged. That no
/// assertion was left is not told: all that were there were refused.
fn report_status_after_refusals<R: StandardError + AllocGlobal>(
    rt: &R,
    added: &[Added],
    outcome: Result<u8, Fault<'_>>,
) -> u8 {
    match outcome {
        Ok(_) | Err(Fault::Parse(_)) => REFUSED_STATUS,
        Err(fault) => report_status(rt, Err(moved_fault(added, fault))),
    }
}

/// The status of an outcome over what is left of a text; the line of a fault goes to standard
/// error.
pub(crate) fn report_rest_status<R: StandardError + AllocGlobal>(
    rt: &R,
    rest: &Rest,
    added: &[Added],
    outcome: Result<u8, Fault<'_>>,
) -> u8 {
    if rest.refused == 0 {
        return report_moved_status(rt, added, outcome);
    }
    report_status_after_refusals(rt, added, outcome)
}
