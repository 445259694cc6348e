//! Note 6 in all of a text.

use crate::note::Note;
use crate::widened::push_alone;
use parser_grammar::{
    AssertionTree, CounterTree, ExprTree, ItemTree, Operands, PropertyTree, Range, SequenceTree,
};
use std::alloc::{AllocError, Global};
use types_names::Scope;

/// Adds the notes of a sequence.
#[cycle(sequences)]
fn push_sequence(
    alloc: Global,
    scope: &Scope,
    notes: &mut Vec<Note>,
    sequence: &SequenceTree,
) -> Result<(), AllocError> {
    match sequence {
        SequenceTree::Boolean(expr) => push_alone(alloc, scope, notes, expr),
        SequenceTree::Repeated(body, _) => push_sequence(alloc, scope, notes, body),
        SequenceTree::Late(_, _, body) => push_sequence(alloc, scope, notes, body),
        SequenceTree::Delayed(first, steps) => {
            push_sequence(alloc, scope, notes, first)?;
            push_steps(alloc, scope, notes, steps)
        }
        SequenceTree::Throughout(expr, body) => {
            push_alone(alloc, scope, notes, expr)?;
            push_sequence(alloc, scope, notes, body)
        }
        SequenceTree::Joined(_, first, others) => {
            push_sequence(alloc, scope, notes, first)?;
            push_others(alloc, scope, notes, others)
        }
    }
}

/// Adds the notes of what is delayed.
#[cycle(sequences)]
fn push_steps(
    alloc: Global,
    scope: &Scope,
    notes: &mut Vec<Note>,
    steps: &[(Range, SequenceTree)],
) -> Result<(), AllocError> {
    for step in steps {
        push_sequence(alloc, scope, notes, &step.1)?;
    }
    Ok(())
}

/// Adds the notes of more sides.
#[cycle(sequences)]
fn push_others(
    alloc: Global,
    scope: &Scope,
    notes: &mut Vec<Note>,
    others: &[SequenceTree],
) -> Result<(), AllocError> {
    for other in others {
        push_sequence(alloc, scope, notes, other)?;
    }
    Ok(())
}

/// Adds the notes of an expression that may be left out.
fn push_optional(
    alloc: Global,
    scope: &Scope,
    notes: &mut Vec<Note>,
    expr: &Option<Box<ExprTree>>,
) -> Result<(), AllocError> {
    match expr {
        None => Ok(()),
        Some(expr) => push_alone(alloc, scope, notes, expr),
    }
}

/// Adds the notes of a clause's condition and value.
fn push_clause(
    alloc: Global,
    scope: &Scope,
    notes: &mut Vec<Note>,
    clause: &Option<Operands>,
) -> Result<(), AllocError> {
    match clause {
        None => Ok(()),
        Some(operands) => {
            push_alone(alloc, scope, notes, &operands.0)?;
            push_alone(alloc, scope, notes, &operands.1)
        }
    }
}

fn push_counter(
    alloc: Global,
    scope: &Scope,
    notes: &mut Vec<Note>,
    counter: &CounterTree,
) -> Result<(), AllocError> {
    push_optional(alloc, scope, notes, &counter.clear)?;
    push_clause(alloc, scope, notes, &counter.load)?;
    push_clause(alloc, scope, notes, &counter.add)?;
    push_clause(alloc, scope, notes, &counter.sub)
}

fn push_assertion(
    alloc: Global,
    scope: &Scope,
    notes: &mut Vec<Note>,
    assertion: &AssertionTree,
) -> Result<(), AllocError> {
    push_optional(alloc, scope, notes, &assertion.disable)?;
    match &assertion.property {
        PropertyTree::Plain(sequence) => push_sequence(alloc, scope, notes, sequence),
        PropertyTree::Implication(_, antecedent, _, consequent) => {
            push_sequence(alloc, scope, notes, antecedent)?;
            push_sequence(alloc, scope, notes, consequent)
        }
    }
}

/// The notes of a text's items: 6 at each `~` and each difference of which an operand of fewer than
/// 32 bits is taken at more, since a number without a size stands beside it.
pub fn width_notes(
    alloc: Global,
    scope: &Scope,
    items: &[ItemTree],
) -> Result<Vec<Note>, AllocError> {
    let mut notes = Vec::new(alloc);
    for item in items {
        match item {
            ItemTree::Counter(counter) => push_counter(alloc, scope, &mut notes, counter)?,
            ItemTree::Declaration(it) => push_sequence(alloc, scope, &mut notes, &it.body)?,
            ItemTree::Assertion(it) => push_assertion(alloc, scope, &mut notes, it)?,
        }
    }
    Ok(notes)
}
