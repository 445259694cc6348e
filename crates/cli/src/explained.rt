//! Failed attempts of a text over a dump, explained.

ghost use Rattle.std.specs.Prelude.{◌≡◌, IfOk, IfErr, OnOk, map};
ghost use Rattle.std.specs.List.{AllByRecursion};
ghost use Rattle.vcd_reader.specs.Dump.{Contents};
ghost use Rattle.vcd_reader.specs.Held.{HoldsContents};
ghost use Rattle.expressions.specs.Rows.{HasCounts};
ghost use Rattle.report_lines.specs.Lines.{line};
ghost use Rattle.report_suites.specs.Judged.{AreLinesOver};
ghost use Rattle.report_explained.specs.Explained.{AreExplained};
ghost use Rattle.report_explained.specs.Told.{HasLine};
ghost use Rattle.cli.specs.Explained.{IsExplainedOver, WhyNotExplained, IsUnnamed, has_name};
ghost use Rattle.cli.specs.Explained.{HasWanted};

use crate::heads::{Heads, heads_of};
use crate::text::file_of;
use crate::trace::{Trace, trace_of};
use assertions::Suite;
use cli_faults::Fault;
use cycle_window::WindowSize;
use report_explained::{Explanation, Judged, Wanted, explain};
use report_programs::Gate;
use std::alloc::{AllocError, Global};
use std::sync::Wait;
use std::thread::Threads;
use vcd_reader::Dump;
use workers_core::TeamSize;

/// A report with the explanations of some of its failed attempts.
#[derive(Drop)]
pub(crate) struct Explained<'a> {
    pub heads: Heads<'a>,
    pub trace: Trace,
    pub explanations: Vec<Explanation>,
}

/// Whether a suite has an assertion of a name.
fn has_assertion(suite: &Suite, name: &str) -> bool
    ensures { result ≡ has_name suite.now name.now }
{
    for assertion in &suite.assertions {
        if assertion.name.as_str() == name {
            return true;
        }
    }
    false
}

/// N1 where the one assertion that is wanted isn't there.
fn find_wanted(alloc: Global, suite: &Suite, wanted: &Wanted<'_>) -> Result<(), Fault<'static>>
    ensures found { OnOk result (HasWanted suite.now wanted.now) }
    ensures refused { IfErr result (IsUnnamed suite.now wanted.now) }
{
    let Some(only) = wanted.only else {
        return Ok(());
    };
    if has_assertion(suite, only) {
        return Ok(());
    }
    Err(Fault::NoAssertion(String::from_str(alloc, only)?))
}

/// The explanations of a trace's failed attempts that are wanted.
fn explanations_of(
    alloc: Global,
    trace: &Trace,
    heads: &Heads<'_>,
    wanted: &Wanted<'_>,
) -> Result<Vec<Explanation>, AllocError>
    requires counted { HasCounts trace.now.suite.counters.items trace.now.rows }
    requires judged { AreLinesOver trace.now.suite trace.now.rows.signals
        trace.now.suite.assertions.items (map line trace.now.report.lines.items) }
    ensures { IfOk result (λ es. AreExplained trace.now.suite
        (map (λ t. t.now) heads.now.counters.items) trace.now.rows wanted.now
        trace.now.report.lines.items es.items) }
{
    let judged = Judged {
        suite: &trace.suite,
        rows: &trace.rows,
        counters: heads.counters.as_slice(),
    };
    explain(alloc, &judged, trace.report.lines.as_slice(), wanted)
}

/// The report on a text over a dump, by a team through windows of a size, with the explanations of
/// its failed attempts that are wanted.
pub(crate) fn explained_over<'a, G: Gate + Sync, R: Threads + Wait + Sync>(
    rt: &R,
    alloc: Global,
    dump: Dump,
    text: &'a str,
    wanted: &Wanted<'_>,
    team: TeamSize,
    size: WindowSize,
    gate: &G,
) -> Result<Explained<'a>, Fault<'a>>
    requires held { (c : Contents) × HoldsContents dump c }
    ensures ok { (c : Contents) → HoldsContents dump c
        → IfOk result (IsExplainedOver c text.entry.now wanted.now) }
    ensures placed { IfOk result (λ e.
        AllByRecursion (HasLine e.trace.report.lines.items) e.explanations.items) }
    ensures err { (c : Contents) → HoldsContents dump c
        → IfErr result (WhyNotExplained c text.entry.now wanted.now) }
{
    let file = file_of(alloc, text)?;
    let heads = heads_of(alloc, &file)?;
    let trace = trace_of(rt, alloc, dump, text, team, size, gate)?;
    find_wanted(alloc, &trace.suite, wanted)?;
    let explanations = explanations_of(alloc, &trace, &heads, wanted)?;
    Ok(Explained {
        heads,
        trace,
        explanations,
    })
}
