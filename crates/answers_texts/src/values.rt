//! The values of expressions and counters.
//!
//! `data/expressions.txt` has traces, each after a line `trace`: lines `row` with the values of the
//! signals at a tick, lines `counter` with the width and the clauses of a counter, and lines
//! `value` with the context's width (0: the own one) and an expression, operands before their
//! operator.
//!
//! ```text
//! row 255 1
//! counter 8 signal:1:1 signal:0:8 load
//! value 0 signal:0:8 8'1 +
//! ```
//!
//! Of each line `value` it prints the own width and the value at each tick.
//! `scripts/models/reference_values.py` made traces and values, by an evaluator of its own.

use crate::postfix;
use anyhow::{Context, Result, bail};
use expressions::{Counter, Expr, Rows, Rule, Table, count, value};
use std::alloc::Global;
use std::fs;
use std::fs::Files;
use std::io::Print;

/// A row of numbers.
fn row_of(alloc: Global, line: &str) -> Result<Vec<u128>> {
    let mut row = Vec::new(alloc);
    for word in line.split(' ') {
        row.push(postfix::number(word)?)?;
    }
    Ok(row)
}

/// The rule on top: its condition and its number.
fn rule_of(stack: &mut Vec<Expr>) -> Result<Option<Rule>> {
    let (when, by) = postfix::pop_two(stack)?;
    Ok(Some(Rule { when, by }))
}

/// Puts a value, if there is one, in the place of another, which is let go by one call.
fn set<T: Drop>(place: &mut T, value: Result<T>) -> Result<()> {
    *place = value?;
    Ok(())
}

/// Gives a counter a clause of what stands on the stack, or applies an operator there.
fn add_clause(
    alloc: Global,
    counter: &mut Counter,
    stack: &mut Vec<Expr>,
    word: &str,
) -> Result<()> {
    match word {
        "clear" => set(&mut counter.clear, postfix::pop(stack).map(Some)),
        "load" => set(&mut counter.load, rule_of(stack)),
        "add" => set(&mut counter.add, rule_of(stack)),
        "sub" => set(&mut counter.sub, rule_of(stack)),
        _ => postfix::apply(alloc, stack, word),
    }
}

/// The value, where what was done to it worked. Else it is let go by one call.
fn made<T: Drop>(value: T, done: Result<()>) -> Result<T> {
    done?;
    Ok(value)
}

/// Gives a counter its clauses.
fn add_clauses(alloc: Global, counter: &mut Counter, clauses: &str) -> Result<()> {
    let mut stack = Vec::new(alloc);
    for word in clauses.split_whitespace() {
        add_clause(alloc, counter, &mut stack, word)?;
    }
    Ok(())
}

/// A counter: its width, and its clauses.
fn counter_of(alloc: Global, line: &str) -> Result<Counter> {
    let (width, clauses) = line.split_once(' ').unwrap_or((line, ""));
    let width = postfix::small(width)?;
    if width == 0 || width > 128 {
        bail!("no such width");
    }
    let mut counter = Counter {
        width,
        clear: None,
        load: None,
        add: None,
        sub: None,
    };
    let added = add_clauses(alloc, &mut counter, clauses);
    made(counter, added)
}

/// Adds the words of an expression to a stack.
fn apply_words(alloc: Global, stack: &mut Vec<Expr>, line: &str) -> Result<()> {
    for word in line.split(' ') {
        postfix::apply(alloc, stack, word)?;
    }
    Ok(())
}

/// The expression that the words make.
fn expression_of(alloc: Global, line: &str) -> Result<Expr> {
    let mut stack = Vec::new(alloc);
    let applied = apply_words(alloc, &mut stack, line);
    postfix::pop(&mut made(stack, applied)?)
}

/// Prints the own width and the value at each tick, in a context of so many bits or, where that is
/// 0, of the own width.
fn show_values<R: Print>(rt: &R, expr: &Expr, context: u8, rows: &Rows) -> Result<()> {
    let own = expr.width();
    let context = if context == 0 { own } else { context };
    if context < own || context > 128 {
        bail!("no such context");
    }
    print!(rt; "{own}")?;
    for tick in 0..rows.signals.len() {
        let bits = value(expr, rows, tick, context);
        print!(rt; " {}", bits.value)?;
    }
    println!(rt; "")?;
    Ok(())
}

/// Shows an expression after its context.
fn show<R: Print + AllocGlobal>(rt: &R, line: &str, rows: &Rows) -> Result<()> {
    let (context, words) = line.split_once(' ').context("no expression")?;
    let context = postfix::small(context)?;
    let expr = expression_of(rt.alloc(), words)?;
    let shown = show_values(rt, &expr, context, rows);
    drop(expr);
    shown
}

/// Shows the expressions of a trace.
fn show_expressions<R: Print + AllocGlobal>(rt: &R, text: &str, rows: &Rows) -> Result<()> {
    for line in text.lines() {
        if let Some(expression) = line.strip_prefix("value ") {
            show(rt, expression, rows)?;
        }
    }
    Ok(())
}

/// The signals' values in the lines of one trace.
fn signals_of(alloc: Global, text: &str) -> Result<Table<u128>> {
    let mut signals = Table::new(alloc);
    for line in text.lines() {
        if let Some(row) = line.strip_prefix("row ") {
            signals.push(row_of(alloc, row)?)?;
        }
    }
    Ok(signals)
}

/// Adds the counters in the lines of one trace.
fn add_counters(alloc: Global, counters: &mut Vec<Counter>, text: &str) -> Result<()> {
    for line in text.lines() {
        if let Some(counter) = line.strip_prefix("counter ") {
            let counter = counter_of(alloc, counter)?;
            counters.push(counter)?;
        }
    }
    Ok(())
}

/// The counters in the lines of one trace.
fn counters_of(alloc: Global, text: &str) -> Result<Vec<Counter>> {
    let mut counters = Vec::new(alloc);
    let added = add_counters(alloc, &mut counters, text);
    made(counters, added)
}

/// Reads the lines of one trace and prints its values.
fn show_trace<R: Print + AllocGlobal>(rt: &R, text: &str) -> Result<()> {
    let signals = signals_of(rt.alloc(), text);
    let (signals, counters) = postfix::both(signals, counters_of(rt.alloc(), text))?;
    let rows = count(rt.alloc(), signals, counters.as_slice());
    drop(counters);
    let rows = rows?;
    let shown = show_expressions(rt, text, &rows);
    drop(rows);
    shown
}

/// Shows the stored cases.
pub(crate) fn show_cases<R: Files + Print + AllocGlobal>(rt: &R) -> Result<()> {
    let text = fs::read_to_string(rt, "expressions.txt")?;
    for trace in text.split("trace\n") {
        show_trace(rt, trace)?;
    }
    Ok(())
}
