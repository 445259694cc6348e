//! The named sequences of a text.

ghost use Rattle.std.specs.Prelude.{◌≡◌, [], map, length, IfOk, OnOk, IsTrue};
ghost use Rattle.parser_grammar.specs.Views.{item_of};
ghost use Rattle.types.specs.Views.{draft_of};
ghost use Rattle.types_names.specs.declared.own.Sought.{Sought};
ghost use Rattle.types_names.specs.Faults.{file_faults};
ghost use Rattle.types_names.specs.Columns.{all_listed, file_signals};
ghost use Rattle.types_names.specs.Views.{scope_of, columns_in};
ghost use Rattle.types.specs.Placed.{ExtendsPlaces};
ghost use Rattle.types.specs.Readings.{AllRead};
ghost use Rattle.types.specs.Texts.{declarations_of};

use crate::draft::Draft;
use crate::drafts::draft_of;
use parser_grammar::ItemTree;
use std::alloc::{AllocError, Global};
use types_names::{Scope, SignalPaths};

/// What the named sequences say, in the order of the text, their expressions typed and put after
/// the others.
pub fn bodies_of(
    alloc: Global,
    scope: &Scope,
    columns: &SignalPaths,
    items: &[ItemTree],
    booleans: &mut Vec<expressions::Expr>,
) -> Result<Vec<Draft>, AllocError>
    requires sound { (k : Sought)
        → file_faults (scope_of scope.now) k (map item_of items.now) ≡ [] }
    requires listed { IsTrue (all_listed (columns_in columns.now)
        (file_signals (scope_of scope.now) (map item_of items.now))) }
    ensures grows { OnOk result (ExtendsPlaces booleans.old.items booleans.new.items) }
    ensures read { IfOk result (λ v.
        AllRead (scope_of scope.now) (columns_in columns.now) booleans.new.items
        (map (λ d. d.body) (declarations_of (map item_of items.now))) (map draft_of v.items)) }
{
    let mut bodies = Vec::new(alloc);
    for item in items {
        match item {
            ItemTree::Counter(_) => continue,
            ItemTree::Declaration(declaration) => {
                let body = draft_of(alloc, scope, columns, &declaration.body, booleans)?;
                bodies.push(Box::into_inner(body))?;
                continue;
            }
            ItemTree::Assertion(_) => continue,
        }
    }
    Ok(bodies)
}

/// Where the names of the named sequences stand, in the order of the text.
pub fn name_bytes(alloc: Global, items: &[ItemTree]) -> Result<Vec<usize>, AllocError>
    ensures { IfOk result
        (λ v. v.items ≡ map (λ d. d.name.at) (declarations_of (map item_of items.now))) }
{
    let mut bytes = Vec::new(alloc);
    for item in items {
        match item {
            ItemTree::Counter(_) => continue,
            ItemTree::Declaration(declaration) => {
                bytes.push(declaration.name.at)?;
                continue;
            }
            ItemTree::Assertion(_) => continue,
        }
    }
    Ok(bytes)
}
