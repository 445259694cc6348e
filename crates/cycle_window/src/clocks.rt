//! The ticks of a clock.

ghost use Rattle.std.specs.Prelude.{◌≡◌, ◌≤◌, ◌<◌, ℕ, ◌==◌, ◌&&◌, List, Option, IfOk, is_some};
ghost use Rattle.std.specs.Prelude.{length};
ghost use Rattle.std.specs.Option.{option_map, ForSome};
ghost use Rattle.vcd_reader.specs.Numbers.{bits_value};
ghost use Rattle.vcd_reader.specs.Values.{value_or_zero};
ghost use Rattle.vcd_reader.specs.Variables.{code_number, size_of};
ghost use Rattle.vcd_reader.specs.Held.{variables_of, steps_in, value_of_change, IsOf, IsChangeOf};
ghost use Rattle.cycle_window.specs.Between.{AreTicksBetween};

use crate::last::{change_before, last_change, value_behind};
use std::alloc::{AllocError, Global};
use std::thread;
use std::thread::Threads;
use vcd_reader::{Change, Dump, VarId};

/// The ticks of a clock in a dump: its rising edges, numbered from 0.
#[derive(Drop)]
pub struct Clocks {
    pub(crate) ticks: Vec<usize>,
    pub(crate) code: usize,
}

/// Whether the clock rises between two last changes of its code.
fn is_edge(dump: &Dump, before: Option<Change>, after: Option<Change>, clock: VarId) -> bool
    requires of { IsOf dump.now clock }
    requires before { ForSome before (λ c. IsChangeOf dump.now c clock) }
    requires after { ForSome after (λ c. IsChangeOf dump.now c clock) }
    ensures { (b a : Option (List ℕ))
        → option_map (value_of_change dump.now) before ≡ option_map bits_value b
        → option_map (value_of_change dump.now) after ≡ option_map bits_value a
        → result ≡ (is_some b
        && (value_or_zero (size_of (variables_of dump.now) clock.place) b == 0)
        && (value_or_zero (size_of (variables_of dump.now) clock.place) a == 1)) }
{
    if before.is_none() {
        return false;
    }
    if value_behind(dump, before, clock) != 0 {
        return false;
    }
    value_behind(dump, after, clock) == 1
}

/// The ticks of a clock of one bit among the steps from one up to another, which is not one of
/// them.
pub(crate) fn ticks_between(
    alloc: Global,
    dump: &Dump,
    clock: VarId,
    code: usize,
    from: usize,
    to: usize,
) -> Result<Vec<usize>, AllocError>
    requires of { IsOf dump.now clock }
    requires bit { size_of (variables_of dump.now) clock.place ≡ 1 }
    requires code { code ≡ code_number (variables_of dump.now) clock.place }
    requires order { from ≤ to }
    requires inside { to ≤ length (steps_in dump.now) }
    ensures { IfOk result (λ t. AreTicksBetween dump.now code from to t.items) }
{
    let mut ticks = Vec::new(alloc);
    let steps = dump.steps();
    let mut last = change_before(steps, code, from);
    for k in from..to {
        let after = last_change(last, code, &steps[k].changes);
        let edge = is_edge(dump, last, after, clock);
        last = after;
        if !edge {
            continue;
        }
        ticks.push(k)?;
    }
    Ok(ticks)
}

/// The most parts of the steps: more than so many threads don't read memory any faster.
const MOST_PARTS: usize = 8;

/// The steps of a part for which a thread is worth its while.
const STEPS_OF_A_PART: usize = 4096;

/// In how many parts so many steps are looked through by so many threads at most.
pub(crate) fn parts_of(steps: usize, threads: usize) -> usize
    ensures { result ≤ threads }
{
    threads.min(MOST_PARTS).min(steps / STEPS_OF_A_PART + 1)
}

/// Where the last of so many parts begins that the steps from one up to another are cut into.
fn last_part(from: usize, to: usize, parts: usize) -> usize
    requires order { from ≤ to }
    requires some { 0 < parts }
    ensures low { from ≤ result }
    ensures high { result ≤ to }
{
    to - (to - from) / parts
}

/// The same, in so many parts: this thread looks through the first one, and another thread through
/// each other, or this one where none can be made. Who looks through a part also looks back to the
/// last change of the clock before it.
#[cycle(parts)]
pub(crate) fn ticks_by_parts<R: Threads>(
    rt: &R,
    alloc: Global,
    dump: &Dump,
    clock: VarId,
    code: usize,
    from: usize,
    to: usize,
    parts: usize,
) -> Result<Vec<usize>, AllocError>
    requires of { IsOf dump.now clock }
    requires bit { size_of (variables_of dump.now) clock.place ≡ 1 }
    requires code { code ≡ code_number (variables_of dump.now) clock.place }
    requires order { from ≤ to }
    requires inside { to ≤ length (steps_in dump.now) }
    ensures { IfOk result (λ t. AreTicksBetween dump.now code from to t.items) }
{
    if parts <= 1 {
        return ticks_between(alloc, dump, clock, code, from, to);
    }
    let cut = last_part(from, to, parts);
    let last = move || -> Result<Vec<usize>, AllocError>
        requires { IsOf dump.now clock × (size_of (variables_of dump.now) clock.place ≡ 1)
            × (code ≡ code_number (variables_of dump.now) clock.place)
            × (cut ≤ to) × (to ≤ length (steps_in dump.now)) }
        ensures { IfOk result (λ t. AreTicksBetween dump.entry.now code cut to t.items) }
    { ticks_between(alloc, dump, clock, code, cut, to) };
    let others = move || -> Result<Vec<usize>, AllocError>
        requires { IsOf dump.now clock × (size_of (variables_of dump.now) clock.place ≡ 1)
            × (code ≡ code_number (variables_of dump.now) clock.place)
            × (from ≤ cut) × (cut ≤ length (steps_in dump.now)) × (1 < parts) }
        ensures { IfOk result (λ t. AreTicksBetween dump.entry.now code from cut t.items) }
    { ticks_by_parts(rt, alloc, dump, clock, code, from, cut, parts - 1) };
    let (last_ticks, other_ticks) = thread::join(rt, last, others);
    let mut ticks = other_ticks?;
    let mut last_ticks = last_ticks?;
    ticks.append(&mut last_ticks)?;
    Ok(ticks)
}
