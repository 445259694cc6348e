//! What counters count.

ghost use Rattle.std.specs.Prelude.{◌≡◌, ◌≤◌, ℕ, ◌+◌, ◌-◌, ◌^◌, min, length, slice_get};
ghost use Rattle.std.specs.Prelude.{slice_index_or, IfOk};
ghost use Rattle.expressions.specs.Tables.{cell};
ghost use Rattle.expressions.specs.Rows.{samples_of, HasCounts};
ghost use Rattle.expressions.specs.Counters.{holds, rule_value, next_count, next_of};

use crate::counter::Counter;
use crate::evaluate::{is_true, value};
use crate::expr::Expr;
use crate::rows::Rows;
use crate::rule::Rule;
use crate::table::Table;
use signals::{Bits, all_ones};
use std::alloc::{AllocError, Global};

/// Whether a condition is there and true.
fn holds(condition: &Option<Expr>, rows: &Rows, tick: usize) -> bool
    ensures { result ≡ holds (samples_of rows.now) condition.now tick }
{
    match condition {
        None => false,
        Some(condition) => is_true(condition, rows, tick),
    }
}

/// The low bits of what a rule counts by, where its condition is true.
fn amount_of(rule: &Option<Rule>, rows: &Rows, tick: usize, width: u8) -> Option<u128>
    requires some_bits { 1 ≤ width }
    requires at_most_128 { width ≤ 128 }
    ensures { result ≡ rule_value (samples_of rows.now) width rule.now tick }
{
    match rule {
        None => None,
        Some(rule) => {
            if is_true(&rule.when, rows, tick) {
                let larger = width.max(rule.by.width());
                let by = value(&rule.by, rows, tick, larger);
                Some(Bits::low(width, by.value).value)
            } else {
                None
            }
        }
    }
}

/// Plus what is added minus what is taken, held between 0 and the largest value.
fn step(width: u8, now: u128, added: u128, taken: u128) -> u128
    requires some_bits { 1 ≤ width }
    requires at_most_128 { width ≤ 128 }
    ensures { result ≡ min ((now + added) - taken) (2 ^ width - 1) }
{
    let sum = if taken <= added {
        now.saturating_add(added - taken)
    } else {
        now.saturating_sub(taken - added)
    };
    sum.min(all_ones(width))
}

/// The value at the next tick, from that at this one.
fn next(counter: &Counter, now: u128, rows: &Rows, tick: usize) -> u128
    ensures { result ≡ next_count (samples_of rows.now) counter.now now tick }
{
    if holds(&counter.clear, rows, tick) {
        return 0;
    }
    let width = counter.width;
    if let Some(loaded) = amount_of(&counter.load, rows, tick, width) {
        return loaded;
    }
    let added = amount_of(&counter.add, rows, tick, width).unwrap_or(0);
    let taken = amount_of(&counter.sub, rows, tick, width).unwrap_or(0);
    step(width, now, added, taken)
}

/// The next row of all counters.
fn next_row(
    alloc: Global,
    all: &[Counter],
    rows: &Rows,
    tick: usize,
) -> Result<Vec<u128>, AllocError>
    ensures { IfOk result (λ row. (i : ℕ) → slice_index_or row.items i 0
        ≡ next_of (samples_of rows.now) (slice_get all.now i)
        (cell rows.now.counters tick i) tick) }
{
    let mut row = Vec::new(alloc);
    for (place, counter) in all.iter().enumerate() {
        let now = rows.counters.cell(tick, place);
        row.push(next(counter, now, rows, tick))?;
    }
    Ok(row)
}

/// The rows of these signals, with the counters at the first tick and after each row.
pub fn count(alloc: Global, signals: Table<u128>, all: &[Counter]) -> Result<Rows, AllocError>
    ensures signals { IfOk result (λ t. t.signals ≡ signals) }
    ensures counters { IfOk result (HasCounts all.now) }
{
    let ticks = signals.len();
    let mut rows = Rows {
        signals,
        counters: Table::new(alloc),
    };
    rows.counters.push(Vec::new(alloc))?;
    for tick in 0..ticks {
        let row = next_row(alloc, all, &rows, tick)?;
        rows.counters.push(row)?;
    }
    Ok(rows)
}
