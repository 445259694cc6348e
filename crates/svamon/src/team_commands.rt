//! Commands that read a team's own files in place of a text.

use crate::explain::{ExplainAsked, explain_sources};
use crate::serve::lint_sources;
use cli::Fault;
use cli_shell::{REFUSED_STATUS, StandardError};
use cli_team::{TeamCase, open_team, status_with};
use cli_words::TeamFiles;
use lint::Selects;
use std::fs::Files;
use std::io::Print;
use std::sync::Wait;
use std::thread::Threads;

/// Explains failures of what is written of a team's files: status 2 where an assertion is refused.
pub(crate) fn serve_team_explain<
    R: Files + Print + StandardError + AllocGlobal + Threads + Wait + Sync,
>(rt: &R, team: &TeamFiles, asked: &ExplainAsked<'_>) -> Result<u8, Fault<'static>> {
    let Some(case) = open_team(rt, asked.vcd, team, asked.only)? else {
        return Ok(REFUSED_STATUS);
    };
    let TeamCase {
        dump,
        sources,
        is_whole,
    } = case;
    let asked = ExplainAsked {
        keep_going: true,
        ..*asked
    };
    let status = explain_sources(rt, dump, &sources, &asked)?;
    Ok(status_with(is_whole, status))
}

/// Tells all refusals of what is written of a team's files, and notes, by their places there:
/// status 2 where one was told, also by their import.
pub(crate) fn serve_team_lint<R: Files + Print + StandardError + AllocGlobal>(
    rt: &R,
    vcd: &str,
    team: &TeamFiles,
    stack: usize,
) -> Result<u8, Fault<'static>> {
    let Some(case) = open_team(rt, vcd, team, &[])? else {
        return Ok(REFUSED_STATUS);
    };
    let TeamCase {
        dump,
        sources,
        is_whole,
    } = case;
    let status = lint_sources(rt, dump, &sources, Selects::Converted, stack)?;
    Ok(status_with(is_whole, status))
}
