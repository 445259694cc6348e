//! Assertions with their sides as drafts.

ghost use Rattle.std.specs.Prelude.{◌≡◌, ◌<◌, [], IfOk, OnOk, IsTrue, option_map};
ghost use Rattle.parser_grammar.specs.Views.{boxed_of, property_of, assertion_of};
ghost use Rattle.types.specs.Views.{draft_of};
ghost use Rattle.types_names.specs.declared.own.Sought.{Sought};
ghost use Rattle.types_names.specs.Columns.{all_listed, property_signals, optional_signals};
ghost use Rattle.types_names.specs.Columns.{assertion_signals};
ghost use Rattle.types_names.specs.Faults.{property_faults, optional_faults};
ghost use Rattle.types_names.specs.Faults.{assertion_faults};
ghost use Rattle.types_names.specs.Views.{scope_of, columns_in};
ghost use Rattle.types.specs.Placed.{ExtendsPlaces};
ghost use Rattle.types.specs.Suites.{first_by, ReadsAntecedent, ReadsConsequent};
ghost use Rattle.types.specs.Suites.{IsDisabledBy};
ghost use Rattle.types.specs.Drafted.{antecedent_byte};
ghost use Rattle.types.specs.Drafted.{consequent_byte, IsDraftedAssertion};

use crate::bytes::sequence_at;
use crate::draft::Draft;
use crate::drafts::{atom, draft_of};
use crate::implication::rewrite_antecedent;
use crate::label::label_string;
use parser_grammar::{AssertionTree, ExprTree, PropertyTree};
use std::alloc::{AllocError, Global};
use types_names::{Scope, SignalPaths};

/// An assertion with its sides as drafts: the antecedent of `|=>` as that of `|->`, and 1 where a
/// sequence is asserted alone.
#[derive(Drop)]
pub(crate) struct DraftedAssertion {
    pub name: String,
    /// Whether `first_match` stands round the antecedent.
    pub first: bool,
    pub antecedent: Box<Draft>,
    /// Where the antecedent begins, if one is written.
    pub antecedent_at: Option<usize>,
    pub consequent: Box<Draft>,
    pub consequent_at: usize,
    /// The place of the disabling expression.
    pub disabling: Option<usize>,
}

/// Whether `first_match` stands round the antecedent.
fn is_first(property: &PropertyTree) -> bool
    ensures { result ≡ first_by (property_of property.now) }
{
    match property {
        PropertyTree::Plain(_) => false,
        PropertyTree::Implication(None, _, _, _) => false,
        PropertyTree::Implication(Some(_), _, _, _) => true,
    }
}

/// Where an antecedent begins, if one is written.
fn antecedent_at(property: &PropertyTree) -> Option<usize>
    ensures { result ≡ antecedent_byte (property_of property.now) }
{
    match property {
        PropertyTree::Plain(_) => None,
        PropertyTree::Implication(None, antecedent, _, _) => Some(sequence_at(antecedent)),
        PropertyTree::Implication(Some(word), _, _, _) => Some(word.at),
    }
}

/// Where a consequent begins.
fn consequent_at(property: &PropertyTree) -> usize
    ensures { result ≡ consequent_byte (property_of property.now) }
{
    match property {
        PropertyTree::Plain(sequence) => sequence_at(sequence),
        PropertyTree::Implication(_, _, _, consequent) => sequence_at(consequent),
    }
}

/// The antecedent of a property as a draft.
fn antecedent_of(
    alloc: Global,
    scope: &Scope,
    columns: &SignalPaths,
    property: &PropertyTree,
    booleans: &mut Vec<expressions::Expr>,
) -> Result<Box<Draft>, AllocError>
    requires sound { (k : Sought)
        → property_faults (scope_of scope.now) k (property_of property.now) ≡ [] }
    requires listed { IsTrue (all_listed (columns_in columns.now)
        (property_signals (scope_of scope.now) (property_of property.now))) }
    ensures grows { OnOk result (ExtendsPlaces booleans.old.items booleans.new.items) }
    ensures reads { IfOk result (λ d. ReadsAntecedent (scope_of scope.now)
        (columns_in columns.now) booleans.new.items (property_of property.now) (draft_of d.value)) }
{
    match property {
        PropertyTree::Plain(_) => Ok(Box::new(alloc, Draft::One)?),
        PropertyTree::Implication(_, antecedent, implication, _) => {
            let draft = draft_of(alloc, scope, columns, antecedent, booleans)?;
            rewrite_antecedent(alloc, draft, *implication)
        }
    }
}

/// The consequent of a property as a draft.
fn consequent_of(
    alloc: Global,
    scope: &Scope,
    columns: &SignalPaths,
    property: &PropertyTree,
    booleans: &mut Vec<expressions::Expr>,
) -> Result<Box<Draft>, AllocError>
    requires sound { (k : Sought)
        → property_faults (scope_of scope.now) k (property_of property.now) ≡ [] }
    requires listed { IsTrue (all_listed (columns_in columns.now)
        (property_signals (scope_of scope.now) (property_of property.now))) }
    ensures grows { OnOk result (ExtendsPlaces booleans.old.items booleans.new.items) }
    ensures reads { IfOk result (λ d. ReadsConsequent (scope_of scope.now)
        (columns_in columns.now) booleans.new.items (property_of property.now) (draft_of d.value)) }
{
    match property {
        PropertyTree::Plain(sequence) => draft_of(alloc, scope, columns, sequence, booleans),
        PropertyTree::Implication(_, _, _, consequent) => {
            draft_of(alloc, scope, columns, consequent, booleans)
        }
    }
}

/// The disabling expression's place, if there is one.
fn disabling_of(
    alloc: Global,
    scope: &Scope,
    columns: &SignalPaths,
    disable: &Option<Box<ExprTree>>,
    booleans: &mut Vec<expressions::Expr>,
) -> Result<Option<usize>, AllocError>
    requires sound { (k : Sought)
        → optional_faults (scope_of scope.now) k (option_map boxed_of disable.now) ≡ [] }
    requires listed { IsTrue (all_listed (columns_in columns.now)
        (optional_signals (scope_of scope.now) (option_map boxed_of disable.now))) }
    ensures grows { OnOk result (ExtendsPlaces booleans.old.items booleans.new.items) }
    ensures disabled { IfOk result (IsDisabledBy (scope_of scope.now)
        (columns_in columns.now) booleans.new.items (option_map boxed_of disable.now)) }
{
    match disable {
        None => Ok(None),
        Some(expr) => Ok(Some(atom(alloc, scope, columns, expr, booleans)?)),
    }
}

/// An assertion, before which so many stand, with its sides as drafts.
pub(crate) fn drafted_of(
    alloc: Global,
    scope: &Scope,
    columns: &SignalPaths,
    before: usize,
    assertion: &AssertionTree,
    booleans: &mut Vec<expressions::Expr>,
) -> Result<DraftedAssertion, AllocError>
    requires room { before < 18446744073709551615 }
    requires sound { (k : Sought)
        → assertion_faults (scope_of scope.now) k (assertion_of assertion.now) ≡ [] }
    requires listed { IsTrue (all_listed (columns_in columns.now)
        (assertion_signals (scope_of scope.now) (assertion_of assertion.now))) }
    ensures grows { OnOk result (ExtendsPlaces booleans.old.items booleans.new.items) }
    ensures drafted { IfOk result (IsDraftedAssertion (scope_of scope.now)
        (columns_in columns.now) booleans.new.items before (assertion_of assertion.now)) }
{
    let name = label_string(alloc, before, assertion.label)?;
    let disabling = disabling_of(alloc, scope, columns, &assertion.disable, booleans)?;
    let antecedent = antecedent_of(alloc, scope, columns, &assertion.property, booleans)?;
    let consequent = consequent_of(alloc, scope, columns, &assertion.property, booleans)?;
    Ok(DraftedAssertion {
        name,
        first: is_first(&assertion.property),
        antecedent,
        antecedent_at: antecedent_at(&assertion.property),
        consequent,
        consequent_at: consequent_at(&assertion.property),
        disabling,
    })
}
