//! Sequences of the text with their expressions typed.

ghost use Rattle.std.specs.Prelude.{◌≡◌, [], map, length, IfOk, OnOk, IsTrue};
ghost use Rattle.parser_grammar.specs.ReadSequences.{steps_of, others_of};
ghost use Rattle.parser_grammar.specs.Views.{tree_of, sequence_of, delay_step_of};
ghost use Rattle.assertions.specs.declared.sequence.Boolean.TheVariants.{Listed};
ghost use Rattle.types.specs.Drafts.{name, delay, lead, repeat, throughout};
ghost use Rattle.types.specs.Views.{draft_of};
ghost use Rattle.types_names.specs.declared.own.Sought.{Sought};
ghost use Rattle.types_names.specs.Scopes.{sequence_named};
ghost use Rattle.types_names.specs.Faults.{IsSound, boolean_faults, sequence_faults};
ghost use Rattle.types_names.specs.Faults.{step_faults, other_faults};
ghost use Rattle.types_names.specs.Columns.{HasColumns, all_listed, sequence_signals};
ghost use Rattle.types_names.specs.Columns.{step_signals, other_signals};
ghost use Rattle.types_names.specs.Views.{scope_of, columns_in};
ghost use Rattle.types.specs.Readings.{least_of, extra_of, IsBooleanOf};
ghost use Rattle.types.specs.Readings.{ReadsBoolean, Reads};
ghost use Rattle.types.specs.Readings.{joined_by, ReadsSteps, ReadsOthers};
ghost use Rattle.types.specs.Placed.{ExtendsPlaces};

use crate::draft::Draft;
use parser_grammar::{ExprTree, Junction, Range, SequenceTree};
use std::alloc::{AllocError, Global};
use types_names::{Scope, SignalPaths, typed_expression};

/// The least count of a range, and by how many its largest is more.
fn extent(range: Range) -> (u8, u8)
    ensures least { result.0 ≡ least_of range }
    ensures extra { result.1 ≡ extra_of range }
{
    let low = range.low.value;
    match range.high {
        Some(high) => (low, high.value.saturating_sub(low)),
        None => (low, 0),
    }
}

/// A sequence that is repeated.
fn repeated_draft(alloc: Global, body: Box<Draft>, range: Range) -> Result<Box<Draft>, AllocError>
    ensures { IfOk result
        (λ d. draft_of d.value ≡ repeat (draft_of body.value) (least_of range) (extra_of range)) }
{
    let (least, extra) = extent(range);
    Ok(Box::new(alloc, Draft::Repeat(body, least, extra))?)
}

/// A delay with nothing before it.
fn late_draft(alloc: Global, range: Range, body: Box<Draft>) -> Result<Box<Draft>, AllocError>
    ensures { IfOk result
        (λ d. draft_of d.value ≡ lead (least_of range) (extra_of range) (draft_of body.value)) }
{
    let (least, extra) = extent(range);
    Ok(Box::new(alloc, Draft::Lead(least, extra, body))?)
}

/// One sequence, and another some ticks later.
fn delayed_draft(
    alloc: Global,
    first: Box<Draft>,
    range: Range,
    second: Box<Draft>,
) -> Result<Box<Draft>, AllocError>
    ensures { IfOk result (λ d. draft_of d.value
        ≡ delay (draft_of first.value) (least_of range) (extra_of range) (draft_of second.value)) }
{
    let (least, extra) = extent(range);
    Ok(Box::new(alloc, Draft::Delay(first, least, extra, second))?)
}

/// A sequence with a boolean throughout.
fn throughout_draft(alloc: Global, place: usize, body: Box<Draft>) -> Result<Box<Draft>, AllocError>
    ensures { IfOk result (λ d. draft_of d.value
        ≡ throughout (Listed place) (draft_of body.value)) }
{
    Ok(Box::new(alloc, Draft::Throughout(place, body))?)
}

/// Two sides, joined.
fn joined_draft(
    alloc: Global,
    junction: Junction,
    first: Box<Draft>,
    second: Box<Draft>,
) -> Result<Box<Draft>, AllocError>
    ensures { IfOk result (λ d. draft_of d.value
        ≡ joined_by junction (draft_of first.value) (draft_of second.value)) }
{
    match junction {
        Junction::Intersect => Ok(Box::new(alloc, Draft::Intersect(first, second))?),
        Junction::And => Ok(Box::new(alloc, Draft::And(first, second))?),
        Junction::Or => Ok(Box::new(alloc, Draft::Or(first, second))?),
    }
}

/// The expression, typed and put after the others: its place.
pub(crate) fn atom(
    alloc: Global,
    scope: &Scope,
    columns: &SignalPaths,
    expr: &ExprTree,
    booleans: &mut Vec<expressions::Expr>,
) -> Result<usize, AllocError>
    requires sound { IsSound (scope_of scope.now) (tree_of expr.now) }
    requires listed { HasColumns (scope_of scope.now) (columns_in columns.now) (tree_of expr.now) }
    ensures grows { OnOk result (ExtendsPlaces booleans.old.items booleans.new.items) }
    ensures atom { IfOk result (λ p. IsBooleanOf (scope_of scope.now)
        (columns_in columns.now) booleans.new.items (tree_of expr.now) (Listed p)) }
{
    let place = booleans.len();
    let expression = typed_expression(alloc, scope, columns, expr)?;
    booleans.push(expression)?;
    Ok(place)
}

/// A boolean of a sequence, which may be the name of a named sequence.
fn boolean(
    alloc: Global,
    scope: &Scope,
    columns: &SignalPaths,
    expr: &ExprTree,
    booleans: &mut Vec<expressions::Expr>,
) -> Result<Box<Draft>, AllocError>
    requires sound { (k : Sought) → boolean_faults (scope_of scope.now) k (tree_of expr.now) ≡ [] }
    requires listed { HasColumns (scope_of scope.now) (columns_in columns.now) (tree_of expr.now) }
    ensures grows { OnOk result (ExtendsPlaces booleans.old.items booleans.new.items) }
    ensures reads { IfOk result (λ d. ReadsBoolean (scope_of scope.now) (columns_in columns.now)
        booleans.new.items (sequence_named (scope_of scope.now) (tree_of expr.now))
        (tree_of expr.now) (draft_of d.value)) }
{
    match scope.sequence_named(expr) {
        Some(place) => Ok(Box::new(alloc, Draft::Name(place))?),
        None => {
            let place = atom(alloc, scope, columns, expr, booleans)?;
            Ok(Box::new(alloc, Draft::Boolean(place))?)
        }
    }
}

/// What a sequence of the text says, its expressions typed and put after the others.
#[cycle(drafts)]
pub(crate) fn draft_of(
    alloc: Global,
    scope: &Scope,
    columns: &SignalPaths,
    sequence: &SequenceTree,
    booleans: &mut Vec<expressions::Expr>,
) -> Result<Box<Draft>, AllocError>
    requires sound { (k : Sought)
        → sequence_faults (scope_of scope.now) k (sequence_of sequence.now) ≡ [] }
    requires listed { IsTrue (all_listed (columns_in columns.now)
        (sequence_signals (scope_of scope.now) (sequence_of sequence.now))) }
    ensures grows { OnOk result (ExtendsPlaces booleans.old.items booleans.new.items) }
    ensures reads { IfOk result (λ d. Reads (scope_of scope.now)
        (columns_in columns.now) booleans.new.items (sequence_of sequence.now) (draft_of d.value)) }
{
    match sequence {
        SequenceTree::Boolean(expr) => boolean(alloc, scope, columns, expr, booleans),
        SequenceTree::Repeated(body, range) => {
            let body = draft_of(alloc, scope, columns, body, booleans)?;
            repeated_draft(alloc, body, *range)
        }
        SequenceTree::Late(_, range, body) => {
            let body = draft_of(alloc, scope, columns, body, booleans)?;
            late_draft(alloc, *range, body)
        }
        SequenceTree::Delayed(first, steps) => {
            let first = draft_of(alloc, scope, columns, first, booleans)?;
            with_steps(alloc, scope, columns, steps, first, booleans)
        }
        SequenceTree::Throughout(expr, body) => {
            let place = atom(alloc, scope, columns, expr, booleans)?;
            let body = draft_of(alloc, scope, columns, body, booleans)?;
            throughout_draft(alloc, place, body)
        }
        SequenceTree::Joined(junction, first, others) => {
            let first = draft_of(alloc, scope, columns, first, booleans)?;
            with_others(alloc, scope, columns, *junction, others, first, booleans)
        }
    }
}

/// What is delayed, after a first sequence.
#[cycle(drafts)]
fn with_steps(
    alloc: Global,
    scope: &Scope,
    columns: &SignalPaths,
    steps: &[(Range, SequenceTree)],
    first: Box<Draft>,
    booleans: &mut Vec<expressions::Expr>,
) -> Result<Box<Draft>, AllocError>
    requires sound { (k : Sought)
        → step_faults (scope_of scope.now) k (steps_of (map delay_step_of steps.now)) ≡ [] }
    requires listed { IsTrue (all_listed (columns_in columns.now)
        (step_signals (scope_of scope.now) (steps_of (map delay_step_of steps.now)))) }
    ensures grows { OnOk result (ExtendsPlaces booleans.old.items booleans.new.items) }
    ensures reads { IfOk result (λ d.
        ReadsSteps (scope_of scope.now) (columns_in columns.now) booleans.new.items
        (draft_of first.value) (steps_of (map delay_step_of steps.now)) (draft_of d.value)) }
{
    let mut whole = first;
    for step in steps {
        let next = draft_of(alloc, scope, columns, &step.1, booleans)?;
        whole = delayed_draft(alloc, whole, step.0, next)?;
    }
    Ok(whole)
}

/// More sides, after a first one.
#[cycle(drafts)]
fn with_others(
    alloc: Global,
    scope: &Scope,
    columns: &SignalPaths,
    junction: Junction,
    others: &[SequenceTree],
    first: Box<Draft>,
    booleans: &mut Vec<expressions::Expr>,
) -> Result<Box<Draft>, AllocError>
    requires sound { (k : Sought)
        → other_faults (scope_of scope.now) k (others_of (map sequence_of others.now)) ≡ [] }
    requires listed { IsTrue (all_listed (columns_in columns.now)
        (other_signals (scope_of scope.now) (others_of (map sequence_of others.now)))) }
    ensures grows { OnOk result (ExtendsPlaces booleans.old.items booleans.new.items) }
    ensures reads { IfOk result (λ d.
        ReadsOthers (scope_of scope.now) (columns_in columns.now) booleans.new.items junction
        (draft_of first.value) (others_of (map sequence_of others.now)) (draft_of d.value)) }
{
    let mut whole = first;
    for other in others {
        let next = draft_of(alloc, scope, columns, other, booleans)?;
        whole = joined_draft(alloc, junction, whole, next)?;
    }
    Ok(whole)
}
