//! Faults of sequences.

ghost use Rattle.std.specs.Prelude.{◌≡◌, map, IfOk};
ghost use Rattle.parser_grammar.specs.ReadSequences.{steps_of, others_of};
ghost use Rattle.parser_grammar.specs.Views.{tree_of, sequence_of, delay_step_of, property_of};
ghost use Rattle.types_names.specs.Faults.{boolean_faults, sequence_faults, step_faults};
ghost use Rattle.types_names.specs.Faults.{other_faults, property_faults, earlier, least};
ghost use Rattle.types_names.specs.Views.{scope_of};

use crate::expression::see;
use crate::least::earlier;
use parser_grammar::{ExprTree, PropertyTree, Range, SequenceTree};
use std::alloc::{AllocError, Global};
use types_names::{Scope, Sought};

/// The first fault of a boolean of a sequence, which may be the name of a named sequence.
fn boolean_fault(
    alloc: Global,
    scope: &Scope,
    sought: Sought,
    expr: &ExprTree,
) -> Result<Option<usize>, AllocError>
    ensures { IfOk result (λ r. r ≡ least (boolean_faults (scope_of scope.now) sought
        (tree_of expr.now))) }
{
    if scope.sequence_named(expr).is_some() {
        return Ok(None);
    }
    let seen = see(alloc, scope, sought, expr)?;
    Ok(seen.fault)
}

/// The first fault of a sequence.
#[tactic(auto, unfolding(types_names::specs::Faults::sequence_faults))]
#[cycle(sequences)]
pub(crate) fn sequence_fault(
    alloc: Global,
    scope: &Scope,
    sought: Sought,
    sequence: &SequenceTree,
) -> Result<Option<usize>, AllocError>
    ensures { IfOk result (λ r. r ≡ least (sequence_faults (scope_of scope.now) sought
        (sequence_of sequence.now))) }
{
    match sequence {
        SequenceTree::Boolean(expr) => boolean_fault(alloc, scope, sought, expr),
        SequenceTree::Repeated(body, _) => sequence_fault(alloc, scope, sought, body),
        SequenceTree::Late(_, _, body) => sequence_fault(alloc, scope, sought, body),
        SequenceTree::Delayed(first, steps) => {
            let first = sequence_fault(alloc, scope, sought, first)?;
            steps_fault(alloc, scope, sought, first, steps)
        }
        SequenceTree::Throughout(expr, body) => {
            let seen = see(alloc, scope, sought, expr)?;
            let body = sequence_fault(alloc, scope, sought, body)?;
            Ok(earlier(seen.fault, body))
        }
        SequenceTree::Joined(_, first, others) => {
            let first = sequence_fault(alloc, scope, sought, first)?;
            others_fault(alloc, scope, sought, first, others)
        }
    }
}

/// The first fault so far, and of what is delayed.
#[tactic(auto, unfolding(types_names::specs::Faults::sequence_faults))]
#[cycle(sequences)]
fn steps_fault(
    alloc: Global,
    scope: &Scope,
    sought: Sought,
    first: Option<usize>,
    steps: &[(Range, SequenceTree)],
) -> Result<Option<usize>, AllocError>
    ensures { IfOk result (λ r. r ≡ earlier first
        (least (step_faults (scope_of scope.now) sought
        (steps_of (map delay_step_of steps.now))))) }
{
    let mut fault = first;
    for step in steps {
        let next = sequence_fault(alloc, scope, sought, &step.1)?;
        fault = earlier(fault, next);
    }
    Ok(fault)
}

/// The first fault so far, and of more sides.
#[tactic(auto, unfolding(types_names::specs::Faults::sequence_faults))]
#[cycle(sequences)]
fn others_fault(
    alloc: Global,
    scope: &Scope,
    sought: Sought,
    first: Option<usize>,
    others: &[SequenceTree],
) -> Result<Option<usize>, AllocError>
    ensures { IfOk result (λ r. r ≡ earlier first
        (least (other_faults (scope_of scope.now) sought
        (others_of (map sequence_of others.now))))) }
{
    let mut fault = first;
    for other in others {
        let next = sequence_fault(alloc, scope, sought, other)?;
        fault = earlier(fault, next);
    }
    Ok(fault)
}

/// The first fault of a property.
#[tactic(auto, using(types_names::proofs::FaultLaws::for_least))]
pub(crate) fn property_fault(
    alloc: Global,
    scope: &Scope,
    sought: Sought,
    property: &PropertyTree,
) -> Result<Option<usize>, AllocError>
    ensures { IfOk result (λ r. r ≡ least (property_faults (scope_of scope.now) sought
        (property_of property.now))) }
{
    match property {
        PropertyTree::Plain(sequence) => sequence_fault(alloc, scope, sought, sequence),
        PropertyTree::Implication(_, antecedent, _, consequent) => {
            let antecedent = sequence_fault(alloc, scope, sought, antecedent)?;
            let consequent = sequence_fault(alloc, scope, sought, consequent)?;
            Ok(earlier(antecedent, consequent))
        }
    }
}
