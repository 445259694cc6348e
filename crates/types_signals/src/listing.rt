//! Lists the signals that expressions, sequences and items read.

ghost use Rattle.std.specs.Prelude.{◌≡◌, map, OnOk, option_map};
ghost use Rattle.parser_grammar.specs.ReadExpressions.{links_of, parts_of};
ghost use Rattle.parser_grammar.specs.ReadSequences.{steps_of, others_of};
ghost use Rattle.parser_grammar.specs.Views.{path_of, tree_of, link_of, boxed_of};
ghost use Rattle.parser_grammar.specs.Views.{sequence_of, delay_step_of};
ghost use Rattle.parser_grammar.specs.Views.{property_of, pair_of, counter_of, assertion_of};
ghost use Rattle.parser_grammar.specs.Views.{item_of};
ghost use Rattle.types_names.specs.Scopes.{path_text, meaning};
ghost use Rattle.types_names.specs.Columns.{path_signals, with_paths, columns_with};
ghost use Rattle.types_names.specs.Columns.{link_signals, part_signals, sequence_listed};
ghost use Rattle.types_names.specs.Columns.{step_signals, other_signals, property_signals};
ghost use Rattle.types_names.specs.Columns.{optional_signals, clause_signals};
ghost use Rattle.types_names.specs.Columns.{counter_signals, assertion_signals, item_listed};
ghost use Rattle.types_names.specs.Views.{scope_of, columns_in};

use parser_grammar::{
    AssertionTree, CounterTree, ExprTree, Infix, ItemTree, Operands, Path, PropertyTree, Range,
    SequenceTree,
};
use std::alloc::{AllocError, Global};
use types_names::{Meaning, Scope, SignalPaths, path_string};

/// Lists a text that is a path, if it stands for a signal.
fn list_text(
    alloc: Global,
    means: Option<Meaning>,
    columns: &mut SignalPaths,
    text: &str,
) -> Result<(), AllocError>
    ensures { OnOk result (columns_in columns.new
        ≡ with_paths (columns_in columns.old) (path_signals text.now means)) }
{
    match means {
        Some(Meaning::Signal(_)) => columns.add(alloc, text),
        Some(Meaning::Own(_)) => Ok(()),
        None => Ok(()),
    }
}

/// Lists a path, if it stands for a signal.
fn list_path(
    alloc: Global,
    scope: &Scope,
    columns: &mut SignalPaths,
    path: &Path,
) -> Result<(), AllocError>
    ensures { OnOk result (columns_in columns.new
        ≡ with_paths (columns_in columns.old)
        (path_signals (path_text (path_of path.now))
        (meaning (scope_of scope.now) (path_of path.now)))) }
{
    if path.more.is_empty() {
        let means = scope.meaning_of(path.first.text);
        return list_text(alloc, means, columns, path.first.text);
    }
    let text = path_string(alloc, path)?;
    let means = scope.meaning_of(text.as_str());
    list_text(alloc, means, columns, text.as_str())
}

/// Lists what an expression reads.
#[tactic(auto, unfolding(types_names::specs::Columns::signals))]
#[cycle(expressions)]
fn list_expression(
    alloc: Global,
    scope: &Scope,
    columns: &mut SignalPaths,
    expr: &ExprTree,
) -> Result<(), AllocError>
    ensures { OnOk result (columns_in columns.new
        ≡ columns_with (scope_of scope.now) (columns_in columns.old) (tree_of expr.now)) }
{
    match expr {
        ExprTree::Number(_, _) => Ok(()),
        ExprTree::Path(path, _) => list_path(alloc, scope, columns, path),
        ExprTree::Concatenation(_, first, parts) => {
            list_expression(alloc, scope, columns, first)?;
            list_parts(alloc, scope, columns, parts)
        }
        ExprTree::Past(_, operand, _) => list_expression(alloc, scope, columns, operand),
        ExprTree::Call(_, _, operand) => list_expression(alloc, scope, columns, operand),
        ExprTree::Unary(_, _, operand) => list_expression(alloc, scope, columns, operand),
        ExprTree::Chain(first, links) => {
            list_expression(alloc, scope, columns, first)?;
            list_links(alloc, scope, columns, links)
        }
        ExprTree::Choice(condition, yes, no) => {
            list_expression(alloc, scope, columns, condition)?;
            list_expression(alloc, scope, columns, yes)?;
            list_expression(alloc, scope, columns, no)
        }
    }
}

/// Lists what the operands of a chain read.
#[tactic(auto, unfolding(types_names::specs::Columns::signals))]
#[cycle(expressions)]
fn list_links(
    alloc: Global,
    scope: &Scope,
    columns: &mut SignalPaths,
    links: &[(Infix, ExprTree)],
) -> Result<(), AllocError>
    ensures { OnOk result (columns_in columns.new
        ≡ with_paths (columns_in columns.old)
        (link_signals (scope_of scope.now) (links_of (map link_of links.now)))) }
{
    for link in links {
        list_expression(alloc, scope, columns, &link.1)?;
    }
    Ok(())
}

/// Lists what the parts of a concatenation read.
#[tactic(auto, unfolding(types_names::specs::Columns::signals))]
#[cycle(expressions)]
fn list_parts(
    alloc: Global,
    scope: &Scope,
    columns: &mut SignalPaths,
    parts: &[ExprTree],
) -> Result<(), AllocError>
    ensures { OnOk result (columns_in columns.new
        ≡ with_paths (columns_in columns.old)
        (part_signals (scope_of scope.now) (parts_of (map tree_of parts.now)))) }
{
    for part in parts {
        list_expression(alloc, scope, columns, part)?;
    }
    Ok(())
}

/// Lists what a sequence reads.
#[tactic(auto, unfolding(types_names::specs::Columns::sequence_signals))]
#[cycle(sequences)]
fn list_sequence(
    alloc: Global,
    scope: &Scope,
    columns: &mut SignalPaths,
    sequence: &SequenceTree,
) -> Result<(), AllocError>
    ensures { OnOk result (columns_in columns.new
        ≡ sequence_listed (scope_of scope.now)
        (columns_in columns.old) (sequence_of sequence.now)) }
{
    match sequence {
        SequenceTree::Boolean(expr) => list_expression(alloc, scope, columns, expr),
        SequenceTree::Repeated(body, _) => list_sequence(alloc, scope, columns, body),
        SequenceTree::Late(_, _, body) => list_sequence(alloc, scope, columns, body),
        SequenceTree::Delayed(first, steps) => {
            list_sequence(alloc, scope, columns, first)?;
            list_steps(alloc, scope, columns, steps)
        }
        SequenceTree::Throughout(expr, body) => {
            list_expression(alloc, scope, columns, expr)?;
            list_sequence(alloc, scope, columns, body)
        }
        SequenceTree::Joined(_, first, others) => {
            list_sequence(alloc, scope, columns, first)?;
            list_others(alloc, scope, columns, others)
        }
    }
}

/// Lists what is delayed.
#[tactic(auto, unfolding(types_names::specs::Columns::sequence_signals))]
#[cycle(sequences)]
fn list_steps(
    alloc: Global,
    scope: &Scope,
    columns: &mut SignalPaths,
    steps: &[(Range, SequenceTree)],
) -> Result<(), AllocError>
    ensures { OnOk result (columns_in columns.new
        ≡ with_paths (columns_in columns.old)
        (step_signals (scope_of scope.now) (steps_of (map delay_step_of steps.now)))) }
{
    for step in steps {
        list_sequence(alloc, scope, columns, &step.1)?;
    }
    Ok(())
}

/// Lists what more sides read.
#[tactic(auto, unfolding(types_names::specs::Columns::sequence_signals))]
#[cycle(sequences)]
fn list_others(
    alloc: Global,
    scope: &Scope,
    columns: &mut SignalPaths,
    others: &[SequenceTree],
) -> Result<(), AllocError>
    ensures { OnOk result (columns_in columns.new
        ≡ with_paths (columns_in columns.old)
        (other_signals (scope_of scope.now) (others_of (map sequence_of others.now)))) }
{
    for other in others {
        list_sequence(alloc, scope, columns, other)?;
    }
    Ok(())
}

/// Lists what a property reads.
#[tactic(auto, using(types_names::proofs::ColumnLaws::for_listing))]
fn list_property(
    alloc: Global,
    scope: &Scope,
    columns: &mut SignalPaths,
    property: &PropertyTree,
) -> Result<(), AllocError>
    ensures { OnOk result (columns_in columns.new
        ≡ with_paths (columns_in columns.old)
        (property_signals (scope_of scope.now) (property_of property.now))) }
{
    match property {
        PropertyTree::Plain(sequence) => list_sequence(alloc, scope, columns, sequence),
        PropertyTree::Implication(_, antecedent, _, consequent) => {
            list_sequence(alloc, scope, columns, antecedent)?;
            list_sequence(alloc, scope, columns, consequent)
        }
    }
}

/// Lists what an expression reads that may be left out.
fn list_optional(
    alloc: Global,
    scope: &Scope,
    columns: &mut SignalPaths,
    expr: &Option<Box<ExprTree>>,
) -> Result<(), AllocError>
    ensures { OnOk result (columns_in columns.new
        ≡ with_paths (columns_in columns.old)
        (optional_signals (scope_of scope.now) (option_map boxed_of expr.now))) }
{
    match expr {
        None => Ok(()),
        Some(expr) => list_expression(alloc, scope, columns, expr),
    }
}

/// Lists what a clause reads that may be left out.
#[tactic(auto, using(types_names::proofs::ColumnLaws::for_listing))]
fn list_clause(
    alloc: Global,
    scope: &Scope,
    columns: &mut SignalPaths,
    clause: &Option<Operands>,
) -> Result<(), AllocError>
    ensures { OnOk result (columns_in columns.new
        ≡ with_paths (columns_in columns.old)
        (clause_signals (scope_of scope.now) (option_map pair_of clause.now))) }
{
    match clause {
        None => Ok(()),
        Some(operands) => {
            list_expression(alloc, scope, columns, &operands.0)?;
            list_expression(alloc, scope, columns, &operands.1)
        }
    }
}

/// Lists what a counter reads.
#[tactic(auto, using(types_names::proofs::ColumnLaws::for_listing))]
fn list_counter(
    alloc: Global,
    scope: &Scope,
    columns: &mut SignalPaths,
    counter: &CounterTree,
) -> Result<(), AllocError>
    ensures { OnOk result (columns_in columns.new
        ≡ with_paths (columns_in columns.old)
        (counter_signals (scope_of scope.now) (counter_of counter.now))) }
{
    list_optional(alloc, scope, columns, &counter.clear)?;
    list_clause(alloc, scope, columns, &counter.load)?;
    list_clause(alloc, scope, columns, &counter.add)?;
    list_clause(alloc, scope, columns, &counter.sub)
}

/// Lists what an assertion reads.
#[tactic(auto, using(types_names::proofs::ColumnLaws::for_listing))]
fn list_assertion(
    alloc: Global,
    scope: &Scope,
    columns: &mut SignalPaths,
    assertion: &AssertionTree,
) -> Result<(), AllocError>
    ensures { OnOk result (columns_in columns.new
        ≡ with_paths (columns_in columns.old)
        (assertion_signals (scope_of scope.now) (assertion_of assertion.now))) }
{
    list_optional(alloc, scope, columns, &assertion.disable)?;
    list_property(alloc, scope, columns, &assertion.property)
}

/// Lists what an item reads.
pub(crate) fn list_item(
    alloc: Global,
    scope: &Scope,
    columns: &mut SignalPaths,
    item: &ItemTree,
) -> Result<(), AllocError>
    ensures { OnOk result (columns_in columns.new
        ≡ item_listed (scope_of scope.now) (columns_in columns.old) (item_of item.now)) }
{
    match item {
        ItemTree::Counter(counter) => list_counter(alloc, scope, columns, counter),
        ItemTree::Declaration(declaration) => {
            list_sequence(alloc, scope, columns, &declaration.body)
        }
        ItemTree::Assertion(assertion) => list_assertion(alloc, scope, columns, assertion),
    }
}
