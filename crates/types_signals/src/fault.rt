//! Faults of items.

ghost use Rattle.std.specs.Prelude.{◌≡◌, map, IfOk, option_map};
ghost use Rattle.parser_grammar.specs.Views.{tree_of, boxed_of};
ghost use Rattle.parser_grammar.specs.Views.{pair_of, counter_of, assertion_of, item_of};
ghost use Rattle.types_names.specs.Faults.{optional_faults, clause_faults, counter_faults};
ghost use Rattle.types_names.specs.Faults.{assertion_faults, item_faults, file_faults};
ghost use Rattle.types_names.specs.Faults.{earlier, least};
ghost use Rattle.types_names.specs.Views.{scope_of};

use crate::expression::see;
use crate::least::earlier;
use crate::sequence::{property_fault, sequence_fault};
use parser_grammar::{AssertionTree, CounterTree, ExprTree, ItemTree, Operands};
use std::alloc::{AllocError, Global};
use types_names::{Scope, Sought};

/// The first fault of an expression that may be left out.
fn optional_fault(
    alloc: Global,
    scope: &Scope,
    sought: Sought,
    expr: &Option<Box<ExprTree>>,
) -> Result<Option<usize>, AllocError>
    ensures { IfOk result (λ r. r ≡ least (optional_faults (scope_of scope.now) sought
        (option_map boxed_of expr.now))) }
{
    match expr {
        None => Ok(None),
        Some(expr) => {
            let seen = see(alloc, scope, sought, expr)?;
            Ok(seen.fault)
        }
    }
}

/// The first fault of a clause that may be left out.
#[tactic(auto, using(types_names::proofs::FaultLaws::for_least))]
fn clause_fault(
    alloc: Global,
    scope: &Scope,
    sought: Sought,
    clause: &Option<Operands>,
) -> Result<Option<usize>, AllocError>
    ensures { IfOk result (λ r. r ≡ least (clause_faults (scope_of scope.now) sought
        (option_map pair_of clause.now))) }
{
    match clause {
        None => Ok(None),
        Some(operands) => {
            let condition = see(alloc, scope, sought, &operands.0)?;
            let value = see(alloc, scope, sought, &operands.1)?;
            Ok(earlier(condition.fault, value.fault))
        }
    }
}

/// The first fault of a counter.
#[tactic(auto, using(types_names::proofs::FaultLaws::for_least))]
fn counter_fault(
    alloc: Global,
    scope: &Scope,
    sought: Sought,
    counter: &CounterTree,
) -> Result<Option<usize>, AllocError>
    ensures { IfOk result (λ r. r ≡ least (counter_faults (scope_of scope.now) sought
        (counter_of counter.now))) }
{
    let clear = optional_fault(alloc, scope, sought, &counter.clear)?;
    let load = clause_fault(alloc, scope, sought, &counter.load)?;
    let add = clause_fault(alloc, scope, sought, &counter.add)?;
    let sub = clause_fault(alloc, scope, sought, &counter.sub)?;
    Ok(earlier(clear, earlier(load, earlier(add, sub))))
}

/// The first fault of an assertion.
#[tactic(auto, using(types_names::proofs::FaultLaws::for_least))]
fn assertion_fault(
    alloc: Global,
    scope: &Scope,
    sought: Sought,
    assertion: &AssertionTree,
) -> Result<Option<usize>, AllocError>
    ensures { IfOk result (λ r. r ≡ least (assertion_faults (scope_of scope.now) sought
        (assertion_of assertion.now))) }
{
    let disable = optional_fault(alloc, scope, sought, &assertion.disable)?;
    let property = property_fault(alloc, scope, sought, &assertion.property)?;
    Ok(earlier(disable, property))
}

/// The first fault of an item.
fn item_fault(
    alloc: Global,
    scope: &Scope,
    sought: Sought,
    item: &ItemTree,
) -> Result<Option<usize>, AllocError>
    ensures { IfOk result (λ r. r ≡ least (item_faults (scope_of scope.now) sought
        (item_of item.now))) }
{
    match item {
        ItemTree::Counter(counter) => counter_fault(alloc, scope, sought, counter),
        ItemTree::Declaration(declaration) => {
            sequence_fault(alloc, scope, sought, &declaration.body)
        }
        ItemTree::Assertion(assertion) => assertion_fault(alloc, scope, sought, assertion),
    }
}

/// The first fault of a kind in the expressions of a text: the byte where it stands.
pub fn first_fault(
    alloc: Global,
    scope: &Scope,
    sought: Sought,
    items: &[ItemTree],
) -> Result<Option<usize>, AllocError>
    ensures { IfOk result (λ r. r ≡ least (file_faults (scope_of scope.now) sought
        (map item_of items.now))) }
{
    let mut fault = None;
    for item in items {
        let next = item_fault(alloc, scope, sought, item)?;
        fault = earlier(fault, next);
    }
    Ok(fault)
}
