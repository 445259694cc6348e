//! What a report says of one assertion.

ghost use Rattle.std.specs.Prelude.{◌≡◌, IfOk, count_by};
ghost use Rattle.report_lines.specs.Tallies.{tally_of, is_holds, is_vacuous, is_fails, is_disabled};
ghost use Rattle.report_lines.specs.Tallies.{is_open};

use crate::failures::failures_of;
use signals::Verdict;
use std::alloc::{AllocError, Global};

/// How many attempts came to each verdict.
#[derive(Clone, Copy, PartialEq, Eq, Debug)]
pub struct Counts {
    pub holds: u64,
    pub vacuous: u64,
    pub fails: u64,
    pub disabled: u64,
    pub still_open: u64,
}

/// An attempt that failed: where it began, and the clock at which it failed.
#[derive(Clone, Copy, PartialEq, Eq, Debug)]
pub struct Failure {
    pub start: u64,
    pub clock: u64,
}

/// What a report says of one assertion.
#[derive(Drop)]
pub struct Line {
    /// The assertion's name.
    pub name: String,
    pub counts: Counts,
    /// The attempts that failed, by clock, then start.
    pub fails: Vec<Failure>,
}

/// How many of the verdicts are of each kind.
fn counts_of(verdicts: &[Verdict]) -> Counts
    ensures { result ≡ tally_of verdicts.now }
{
    Counts {
        holds: count_holds(verdicts),
        vacuous: count_vacuous(verdicts),
        fails: count_fails(verdicts),
        disabled: count_disabled(verdicts),
        still_open: count_open(verdicts),
    }
}

fn count_holds(verdicts: &[Verdict]) -> u64
    ensures { result ≡ count_by is_holds verdicts.now }
{
    verdicts
        .iter()
        .filter(|v| matches!(**v, Verdict::Holds(_)))
        .count() as u64
}

fn count_vacuous(verdicts: &[Verdict]) -> u64
    ensures { result ≡ count_by is_vacuous verdicts.now }
{
    verdicts
        .iter()
        .filter(|v| matches!(**v, Verdict::Vacuous(_)))
        .count() as u64
}

fn count_fails(verdicts: &[Verdict]) -> u64
    ensures { result ≡ count_by is_fails verdicts.now }
{
    verdicts
        .iter()
        .filter(|v| matches!(**v, Verdict::Fails(_)))
        .count() as u64
}

fn count_disabled(verdicts: &[Verdict]) -> u64
    ensures { result ≡ count_by is_disabled verdicts.now }
{
    verdicts
        .iter()
        .filter(|v| matches!(**v, Verdict::Disabled(_)))
        .count() as u64
}

fn count_open(verdicts: &[Verdict]) -> u64
    ensures { result ≡ count_by is_open verdicts.now }
{
    verdicts
        .iter()
        .filter(|v| matches!(**v, Verdict::Open))
        .count() as u64
}

impl Line {
    ghost use Rattle.report_lines.specs.Lines.{line, line_data_of};
    ghost use Rattle.std.specs.Prelude.{string_bytes, vec_len};

    /// The line of an assertion with these verdicts, one for each attempt, by start.
    pub fn new(alloc: Global, name: String, verdicts: &[Verdict]) -> Result<Line, AllocError>
        ensures line { IfOk result (λ l. line l ≡ line_data_of (string_bytes name) verdicts.now) }
        // Each failure that is counted is listed.
        ensures listed { IfOk result (λ l. vec_len l.fails ≡ l.counts.fails) }
    {
        let counts = counts_of(verdicts);
        let fails = failures_of(alloc, verdicts)?;
        Ok(Line {
            name,
            counts,
            fails,
        })
    }
}
