//! The scope that is given, and those of a dump.

use cli_faults::Fault;
use cli_shell::{StandardError, print_error_lines};
use cli_words::TeamFiles;
use import_files::Signals;

/// Whether a path is in a scope.
fn is_in(path: &str, scope: &str) -> bool {
    match path.strip_prefix(scope) {
        Some(rest) => rest.starts_with('.'),
        None => false,
    }
}

/// The scope that is given, if the dump has no name in it.
fn lost_scope<'a>(team: &'a TeamFiles, signals: &Signals) -> Option<&'a str> {
    let scope = match &team.scope {
        None => return None,
        Some(scope) => scope.as_str(),
    };
    for path in &signals.paths {
        if is_in(path.as_str(), scope) {
            return None;
        }
    }
    Some(scope)
}

/// Whether the dump has a name in the scope that is given, if one is; it is told where not.
pub(crate) fn has_scope<R: StandardError + AllocGlobal>(
    rt: &R,
    team: &TeamFiles,
    signals: &Signals,
) -> Result<bool, Fault<'static>> {
    let Some(scope) = lost_scope(team, signals) else {
        return Ok(true);
    };
    let line = format!(in rt.alloc();
        "error: the dump has no scope '{scope}': svamon names shows its names\n"
    )?;
    print_error_lines(rt, line.as_str());
    Ok(false)
}
