//! The program's version, and which build of it this is.

use crate::build::BUILD;
use cli::Fault;
use cli_shell::{print_bytes, print_version_if_asked};
use std::io::Print;

/// Prints the version, and which build this is, where the words ask for them; whether they do.
pub(crate) fn print_version_and_build_if_asked<R: Print + AllocGlobal>(
    rt: &R,
    words: &[String],
) -> Result<bool, Fault<'static>> {
    let is_asked = print_version_if_asked(rt, words)?;
    if is_asked {
        print_bytes(rt, BUILD.as_bytes())?;
    }
    Ok(is_asked)
}
