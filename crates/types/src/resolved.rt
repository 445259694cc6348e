//! Assertions with the entries of their sides.

ghost use Rattle.std.specs.Prelude.{◌≡◌, ◌<◌, ℕ, [], true, map, length, Some, IfOk, OnOk, IsTrue};
ghost use Rattle.parser_grammar.specs.Trees.{Tree};
ghost use Rattle.parser_grammar.specs.Views.{assertion_of, item_of};
ghost use Rattle.types.specs.Drafts.{IsNumberIn, uses};
ghost use Rattle.types.specs.Entries.{Bodies, HasEntry, IsEntryTable, has_entry};
ghost use Rattle.types.specs.Views.{draft_of};
ghost use Rattle.types_names.specs.declared.own.Sought.{Sought};
ghost use Rattle.types_names.specs.Scopes.{sequence_named};
ghost use Rattle.types_names.specs.Columns.{all_listed, assertion_signals, file_signals};
ghost use Rattle.types_names.specs.Faults.{assertion_faults, file_faults};
ghost use Rattle.types_names.specs.Views.{scope_of, columns_in};
ghost use Rattle.types.specs.Placed.{ExtendsPlaces};
ghost use Rattle.types.specs.Texts.{assertions_of};
ghost use Rattle.types.specs.Resolved.{IsResolved, AreResolved};

use crate::draft::Draft;
use crate::drafted_assertion::drafted_of;
use crate::entry::Entry;
use crate::table::entry_of;
use parser_grammar::{AssertionTree, ItemTree};
use std::alloc::{AllocError, Global};
use types_names::{Scope, SignalPaths};

/// An assertion with the entries of its sides, names written out.
#[derive(Drop)]
pub struct Resolved {
    pub name: String,
    /// Whether `first_match` stands round the antecedent.
    pub first: bool,
    pub antecedent: Entry,
    /// Where the antecedent begins, if one is written.
    pub antecedent_at: Option<usize>,
    pub consequent: Entry,
    pub consequent_at: usize,
    /// The place of the disabling expression.
    pub disabling: Option<usize>,
}

/// The entry of a sequence whose names all have entries.
fn entry_in(alloc: Global, draft: &Draft, table: &[Option<Entry>]) -> Result<Entry, AllocError>
    requires { (p : ℕ) → IsNumberIn p (uses (draft_of draft.now)) → has_entry table.now p ≡ true }
    ensures { (bodies : Bodies) → IsEntryTable bodies table.now
        → IfOk result (HasEntry bodies (draft_of draft.now)) }
{
    match entry_of(alloc, draft, table)? {
        Some(entry) => Ok(entry),
        None => unreachable!(),
    }
}

/// An assertion, before which so many stand, with the entries of its sides.
fn resolved_of(
    alloc: Global,
    scope: &Scope,
    columns: &SignalPaths,
    table: &[Option<Entry>],
    before: usize,
    assertion: &AssertionTree,
    booleans: &mut Vec<expressions::Expr>,
) -> Result<Resolved, AllocError>
    requires room { before < 18446744073709551615 }
    requires sound { (k : Sought)
        → assertion_faults (scope_of scope.now) k (assertion_of assertion.now) ≡ [] }
    requires listed { IsTrue (all_listed (columns_in columns.now)
        (assertion_signals (scope_of scope.now) (assertion_of assertion.now))) }
    requires declared { (t : Tree) (p : ℕ) → sequence_named (scope_of scope.now) t ≡ Some p
        → p < length table.now }
    requires entries { (p : ℕ) → p < length table.now → has_entry table.now p ≡ true }
    ensures grows { OnOk result (ExtendsPlaces booleans.old.items booleans.new.items) }
    ensures resolved { (bodies : Bodies) → IsEntryTable bodies table.now
        → IfOk result (IsResolved (scope_of scope.now) (columns_in columns.now) booleans.new.items
        bodies before (assertion_of assertion.now)) }
{
    let drafted = drafted_of(alloc, scope, columns, before, assertion, booleans)?;
    let antecedent = entry_in(alloc, &drafted.antecedent, table)?;
    let consequent = entry_in(alloc, &drafted.consequent, table)?;
    Ok(Resolved {
        name: drafted.name,
        first: drafted.first,
        antecedent,
        antecedent_at: drafted.antecedent_at,
        consequent,
        consequent_at: drafted.consequent_at,
        disabling: drafted.disabling,
    })
}

/// The assertions of the items with the entries of their sides, their expressions typed and put
/// after the others.
pub fn all_resolved(
    alloc: Global,
    scope: &Scope,
    columns: &SignalPaths,
    table: &[Option<Entry>],
    items: &[ItemTree],
    booleans: &mut Vec<expressions::Expr>,
) -> Result<Vec<Resolved>, AllocError>
    requires sound { (k : Sought)
        → file_faults (scope_of scope.now) k (map item_of items.now) ≡ [] }
    requires listed { IsTrue (all_listed (columns_in columns.now)
        (file_signals (scope_of scope.now) (map item_of items.now))) }
    requires declared { (t : Tree) (p : ℕ) → sequence_named (scope_of scope.now) t ≡ Some p
        → p < length table.now }
    requires entries { (p : ℕ) → p < length table.now → has_entry table.now p ≡ true }
    ensures grows { OnOk result (ExtendsPlaces booleans.old.items booleans.new.items) }
    ensures resolved { (bodies : Bodies) → IsEntryTable bodies table.now → IfOk result (λ v.
        AreResolved (scope_of scope.now) (columns_in columns.now) booleans.new.items bodies 0
        (assertions_of (map item_of items.now)) v.items) }
{
    let mut resolved = Vec::new(alloc);
    for item in items {
        match item {
            ItemTree::Counter(_) => continue,
            ItemTree::Declaration(_) => continue,
            ItemTree::Assertion(assertion) => {
                let before = resolved.len();
                let made = resolved_of(alloc, scope, columns, table, before, assertion, booleans)?;
                resolved.push(made)?;
                continue;
            }
        }
    }
    Ok(resolved)
}
