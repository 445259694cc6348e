//! Counters of the text with their expressions typed.

ghost use Rattle.std.specs.Prelude.{◌≡◌, ◌≤◌, [], map, option_map, IfOk, IsTrue};
ghost use Rattle.parser_grammar.specs.Views.{boxed_of, pair_of, counter_of, item_of};
ghost use Rattle.types_names.specs.declared.own.Sought.{Sought};
ghost use Rattle.types_names.specs.Scopes.{width_in};
ghost use Rattle.types_names.specs.Faults.{optional_faults, clause_faults, counter_faults};
ghost use Rattle.types_names.specs.Faults.{file_faults};
ghost use Rattle.types_names.specs.Columns.{all_listed, optional_signals, clause_signals};
ghost use Rattle.types_names.specs.Columns.{counter_signals, file_signals};
ghost use Rattle.types_names.specs.Views.{scope_of, columns_in};
ghost use Rattle.types.specs.Texts.{counters_of};
ghost use Rattle.types.specs.Suites.{IsCondition, IsRule, IsCounter, AreCounters};

use expressions::Rule;
use parser_grammar::{CounterTree, ExprTree, ItemTree, Operands};
use std::alloc::{AllocError, Global};
use types_names::{Scope, SignalPaths, typed_expression};

/// The clauses of a counter that have two operands, in boxes, which are let go of by one call.
#[derive(Drop)]
struct Rules {
    load: Option<Box<Rule>>,
    add: Option<Box<Rule>>,
    sub: Option<Box<Rule>>,
}

/// A width of 1 to 128 bits, as the parser gives it; another would count as 1.
fn width_of(bits: u8) -> u8
    ensures width { result ≡ width_in bits }
    ensures some_bits { 1 ≤ result }
    ensures at_most_128 { result ≤ 128 }
{
    if bits == 0 || bits > 128 {
        return 1;
    }
    bits
}

/// A condition that may be left out.
fn condition_of(
    alloc: Global,
    scope: &Scope,
    columns: &SignalPaths,
    expr: &Option<Box<ExprTree>>,
) -> Result<Option<expressions::Expr>, AllocError>
    requires sound { (k : Sought)
        → optional_faults (scope_of scope.now) k (option_map boxed_of expr.now) ≡ [] }
    requires listed { IsTrue (all_listed (columns_in columns.now)
        (optional_signals (scope_of scope.now) (option_map boxed_of expr.now))) }
    ensures { IfOk result (λ o. IsCondition (scope_of scope.now) (columns_in columns.now)
        (option_map boxed_of expr.now) o) }
{
    match expr {
        None => Ok(None),
        Some(expr) => Ok(Some(typed_expression(alloc, scope, columns, expr)?)),
    }
}

/// A clause of two operands that may be left out.
fn rule_of(
    alloc: Global,
    scope: &Scope,
    columns: &SignalPaths,
    clause: &Option<Operands>,
) -> Result<Option<Box<Rule>>, AllocError>
    requires sound { (k : Sought)
        → clause_faults (scope_of scope.now) k (option_map pair_of clause.now) ≡ [] }
    requires listed { IsTrue (all_listed (columns_in columns.now)
        (clause_signals (scope_of scope.now) (option_map pair_of clause.now))) }
    ensures { IfOk result (λ o.
        IsRule (scope_of scope.now) (columns_in columns.now) (option_map pair_of clause.now)
        (option_map (λ b. b.value) o)) }
{
    match clause {
        None => Ok(None),
        Some(operands) => {
            let when = typed_expression(alloc, scope, columns, &operands.0)?;
            let by = typed_expression(alloc, scope, columns, &operands.1)?;
            Ok(Some(Box::new(alloc, Rule { when, by })?))
        }
    }
}

/// The clauses of a counter that have two operands.
fn rules_of(
    alloc: Global,
    scope: &Scope,
    columns: &SignalPaths,
    counter: &CounterTree,
) -> Result<Rules, AllocError>
    requires sound { (k : Sought)
        → counter_faults (scope_of scope.now) k (counter_of counter.now) ≡ [] }
    requires listed { IsTrue (all_listed (columns_in columns.now)
        (counter_signals (scope_of scope.now) (counter_of counter.now))) }
    ensures load { IfOk result (λ r. IsRule (scope_of scope.now) (columns_in columns.now)
        (option_map pair_of counter.now.load) (option_map (λ b. b.value) r.load)) }
    ensures add { IfOk result (λ r. IsRule (scope_of scope.now) (columns_in columns.now)
        (option_map pair_of counter.now.add) (option_map (λ b. b.value) r.add)) }
    ensures sub { IfOk result (λ r. IsRule (scope_of scope.now) (columns_in columns.now)
        (option_map pair_of counter.now.sub) (option_map (λ b. b.value) r.sub)) }
{
    let load = rule_of(alloc, scope, columns, &counter.load)?;
    let add = rule_of(alloc, scope, columns, &counter.add)?;
    let sub = rule_of(alloc, scope, columns, &counter.sub)?;
    Ok(Rules { load, add, sub })
}

/// A clause out of its box.
fn unboxed(rule: Option<Box<Rule>>) -> Option<Rule>
    ensures { result ≡ option_map (λ b. b.value) rule }
{
    match rule {
        Some(rule) => Some(Box::into_inner(rule)),
        None => None,
    }
}

/// A counter of the text.
pub(crate) fn counter_of(
    alloc: Global,
    scope: &Scope,
    columns: &SignalPaths,
    counter: &CounterTree,
) -> Result<expressions::Counter, AllocError>
    requires sound { (k : Sought)
        → counter_faults (scope_of scope.now) k (counter_of counter.now) ≡ [] }
    requires listed { IsTrue (all_listed (columns_in columns.now)
        (counter_signals (scope_of scope.now) (counter_of counter.now))) }
    ensures { IfOk result
        (λ c. IsCounter (scope_of scope.now) (columns_in columns.now) (counter_of counter.now) c) }
{
    let rules = rules_of(alloc, scope, columns, counter)?;
    let clear = condition_of(alloc, scope, columns, &counter.clear)?;
    Ok(expressions::Counter {
        width: width_of(counter.width.value),
        clear,
        load: unboxed(rules.load),
        add: unboxed(rules.add),
        sub: unboxed(rules.sub),
    })
}

/// The counters of the items, in the order of the text.
pub fn counters_of(
    alloc: Global,
    scope: &Scope,
    columns: &SignalPaths,
    items: &[ItemTree],
) -> Result<Vec<expressions::Counter>, AllocError>
    requires sound { (k : Sought)
        → file_faults (scope_of scope.now) k (map item_of items.now) ≡ [] }
    requires listed { IsTrue (all_listed (columns_in columns.now)
        (file_signals (scope_of scope.now) (map item_of items.now))) }
    ensures { IfOk result (λ v. AreCounters (scope_of scope.now) (columns_in columns.now)
        (counters_of (map item_of items.now)) v.items) }
{
    let mut counters = Vec::new(alloc);
    for item in items {
        match item {
            ItemTree::Counter(counter) => {
                let made = counter_of(alloc, scope, columns, counter)?;
                counters.push(made)?;
                continue;
            }
            ItemTree::Declaration(_) => continue,
            ItemTree::Assertion(_) => continue,
        }
    }
    Ok(counters)
}
