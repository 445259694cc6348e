//! From a text to its suite.

ghost use Rattle.std.specs.Prelude.{◌≡◌, ◌<◌, ℕ, [], true, map, length, Some, string_bytes, IfOk};
ghost use Rattle.std.specs.Prelude.{IfErr, OnOk, IsTrue};
ghost use Rattle.parser_grammar.specs.Trees.{Tree};
ghost use Rattle.parser_grammar.specs.Views.{item_of, items_of};
ghost use Rattle.types.specs.Entries.{has_entry};
ghost use Rattle.types_names.specs.declared.own.Sought.{Sought};
ghost use Rattle.types_names.specs.Scopes.{sequence_named};
ghost use Rattle.types_names.specs.Asked.{scope_for};
ghost use Rattle.types_names.specs.Columns.{all_listed, file_signals, columns_of};
ghost use Rattle.types_names.specs.Faults.{file_faults};
ghost use Rattle.types_names.specs.Views.{scope_of, columns_in};
ghost use Rattle.types.specs.Placed.{ExtendsPlaces};
ghost use Rattle.types.specs.Texts.{declarations_of, assertions_of, suite_clock};
ghost use Rattle.types.specs.Readings.{Where, outlines_of};
ghost use Rattle.types.specs.Faults.{Text, sides_of, consequents_of};
ghost use Rattle.types.specs.Faults.{ClearTo, IsFaultless};
ghost use Rattle.types.specs.Faults.{IsTypeFault};
ghost use Rattle.types.specs.Sides.{AreWeighed, AreLight, AreKnownEntries};
ghost use Rattle.types.specs.Suites.{IsSuite};
ghost use Rattle.types.specs.Sides.{sides_in, consequents_in};
ghost use Rattle.types.specs.Resolved.{HasBodies};
ghost use Rattle.types.specs.ResolvedTexts.{HasResolved};

use crate::bodies::{bodies_of, name_bytes};
use crate::clocks::first_clock;
use crate::counters::counters_of;
use crate::entry::Entry;
use crate::fault::TypeFault;
use crate::resolved::{Resolved, all_resolved};
use crate::sides::written_sides;
use crate::stages::{check_cycles, check_expressions, check_sides};
use crate::suite_signals::signals_of;
use crate::table::resolve;
use crate::typed_assertions::assertions_of;
use assertions::Suite;
use parser_grammar::{File, ItemTree};
use std::alloc::Global;
use types_names::{PathWidths, Scope, SignalPaths};
use types_signals::{columns_of, scope_for};

/// The entries of the named sequences, by the places of their declarations, if none reaches itself
/// (Y8).
fn entries_of(
    alloc: Global,
    scope: &Scope,
    columns: &SignalPaths,
    items: &[ItemTree],
    booleans: &mut Vec<expressions::Expr>,
) -> Result<Vec<Option<Entry>>, TypeFault>
    requires sound { (k : Sought)
        → file_faults (scope_of scope.now) k (map item_of items.now) ≡ [] }
    requires listed { IsTrue (all_listed (columns_in columns.now)
        (file_signals (scope_of scope.now) (map item_of items.now))) }
    requires declared { (t : Tree) (p : ℕ) → sequence_named (scope_of scope.now) t ≡ Some p
        → p < length (declarations_of (map item_of items.now)) }
    requires clear { ClearTo (scope_of scope.now) (map item_of items.now) 5 }
    ensures grows { OnOk result (ExtendsPlaces booleans.old.items booleans.new.items) }
    ensures long { IfOk result
        (λ table. length table.items ≡ length (declarations_of (map item_of items.now))) }
    ensures entries { IfOk result (λ table.
        (p : ℕ) → p < length table.items → has_entry table.items p ≡ true) }
    ensures bodies { IfOk result (λ table. HasBodies (scope_of scope.now)
        (columns_in columns.now) booleans.new.items (map item_of items.now) table.items) }
    ensures clear { IfOk result (λ _. ClearTo (scope_of scope.now) (map item_of items.now) 6) }
    ensures refused { IfErr result (IsTypeFault (scope_of scope.now) (map item_of items.now)) }
{
    let bodies = bodies_of(alloc, scope, columns, items, booleans)?;
    let bytes = name_bytes(alloc, items)?;
    let table = resolve(alloc, bodies.as_slice())?;
    check_cycles(alloc, bodies.as_slice(), bytes.as_slice(), table.as_slice())?;
    Ok(table)
}

/// Looks for faults of the sides of these assertions, Y9, Y5 and Y6, in this order.
fn check_resolved(alloc: Global, resolved: &[Resolved]) -> Result<(), TypeFault>
    requires { AreKnownEntries resolved.now }
    ensures light { IfOk result (λ _. AreLight (sides_in resolved.now)) }
    ensures ok { (s : Where) (items : Text) → ClearTo s items 6
        → AreWeighed (outlines_of s items) (sides_of s (assertions_of items))
        (sides_in resolved.now)
        → AreWeighed (outlines_of s items) (consequents_of s (assertions_of items))
        (consequents_in resolved.now)
        → IfOk result (λ _. IsFaultless s items) }
    ensures err { (s : Where) (items : Text) → ClearTo s items 6
        → AreWeighed (outlines_of s items) (sides_of s (assertions_of items))
        (sides_in resolved.now)
        → AreWeighed (outlines_of s items) (consequents_of s (assertions_of items))
        (consequents_in resolved.now)
        → IfErr result (IsTypeFault s items) }
{
    let sides = written_sides(alloc, resolved)?;
    check_sides(sides.all.as_slice(), sides.consequents.as_slice())
}

/// The assertions of items whose expressions have no fault, with the entries of their sides, or the
/// first fault of the sequences.
fn resolved_of(
    alloc: Global,
    scope: &Scope,
    columns: &SignalPaths,
    items: &[ItemTree],
    booleans: &mut Vec<expressions::Expr>,
) -> Result<Vec<Resolved>, TypeFault>
    requires columns { columns_in columns.now
        ≡ columns_of (scope_of scope.now) (map item_of items.now) }
    requires declared { (t : Tree) (p : ℕ) → sequence_named (scope_of scope.now) t ≡ Some p
        → p < length (declarations_of (map item_of items.now)) }
    requires clear { ClearTo (scope_of scope.now) (map item_of items.now) 5 }
    ensures faultless { IfOk result
        (λ _. IsFaultless (scope_of scope.now) (map item_of items.now)) }
    ensures resolved { IfOk result (λ r. HasResolved (scope_of scope.now)
        (columns_in columns.now) booleans.new.items (map item_of items.now) r.items) }
    ensures refused { IfErr result (IsTypeFault (scope_of scope.now) (map item_of items.now)) }
{
    let table = entries_of(alloc, scope, columns, items, booleans)?;
    let resolved = all_resolved(alloc, scope, columns, table.as_slice(), items, booleans)?;
    check_resolved(alloc, resolved.as_slice())?;
    Ok(resolved)
}

/// The suite of items whose expressions have no fault, or the first fault of their sequences.
fn suite_of(
    alloc: Global,
    scope: &Scope,
    columns: &SignalPaths,
    items: &[ItemTree],
    clock: String,
) -> Result<Suite, TypeFault>
    requires columns { columns_in columns.now
        ≡ columns_of (scope_of scope.now) (map item_of items.now) }
    requires clock { string_bytes clock ≡ suite_clock (assertions_of (map item_of items.now)) }
    requires declared { (t : Tree) (p : ℕ) → sequence_named (scope_of scope.now) t ≡ Some p
        → p < length (declarations_of (map item_of items.now)) }
    requires clear { ClearTo (scope_of scope.now) (map item_of items.now) 5 }
    ensures faultless { IfOk result
        (λ _. IsFaultless (scope_of scope.now) (map item_of items.now)) }
    ensures suite { IfOk result (IsSuite (scope_of scope.now) (map item_of items.now)) }
    ensures refused { IfErr result (IsTypeFault (scope_of scope.now) (map item_of items.now)) }
{
    let mut booleans = Vec::new(alloc);
    let resolved = resolved_of(alloc, scope, columns, items, &mut booleans)?;
    Ok(Suite {
        clock,
        names: signals_of(alloc, scope, columns)?,
        counters: counters_of(alloc, scope, columns, items)?,
        booleans,
        assertions: assertions_of(alloc, resolved.as_slice())?,
    })
}

/// The suite of items in their scope, or the first fault of the text.
fn suite_in(alloc: Global, scope: &Scope, items: &[ItemTree]) -> Result<Suite, TypeFault>
    requires declared { (t : Tree) (p : ℕ) → sequence_named (scope_of scope.now) t ≡ Some p
        → p < length (declarations_of (map item_of items.now)) }
    ensures faultless { IfOk result
        (λ _. IsFaultless (scope_of scope.now) (map item_of items.now)) }
    ensures suite { IfOk result (IsSuite (scope_of scope.now) (map item_of items.now)) }
    ensures refused { IfErr result (IsTypeFault (scope_of scope.now) (map item_of items.now)) }
{
    let clock = first_clock(alloc, items)?;
    check_expressions(alloc, scope, items, clock.as_str())?;
    let columns = columns_of(alloc, scope, items)?;
    suite_of(alloc, scope, &columns, items, clock)
}

/// The suite that a text spells over paths with widths: its clock, the signals that it reads, its
/// counters, its typed expressions and its assertions, with named sequences written out.
///
/// The clock's path is not looked up. A text's own names come before paths, of which only those
/// that the text reads are asked for, each once. The cost is about linear in the text, but for
/// names of sequences that are declared in an adversarial order.
///
/// # Errors
///
/// The first of the faults Y1, Y2, Y3, Y4, Y7, Y8, Y9, Y5, Y6 that stands in the text, and of these
/// the one at the lowest byte; and want of memory. Named sequences and counters that nothing uses
/// are looked at too, but for Y9, Y5 and Y6, which are of antecedents and consequents.
///
/// IEEE 1800-2017, clauses 11.6 to 11.8, 16.6 to 16.9, 16.12.7, 16.12.22.
pub fn check<W: PathWidths>(alloc: Global, file: &File, paths: &W) -> Result<Suite, TypeFault>
    ensures faultless { IfOk result (λ _.
        IsFaultless (scope_for (items_of file.now) (W.widths paths.now)) (items_of file.now)) }
    ensures suite { IfOk result
        (IsSuite (scope_for (items_of file.now) (W.widths paths.now)) (items_of file.now)) }
    ensures refused { IfErr result
        (IsTypeFault (scope_for (items_of file.now) (W.widths paths.now)) (items_of file.now)) }
{
    let items = file.items.as_slice();
    let scope = scope_for(alloc, paths, items)?;
    suite_in(alloc, &scope, items)
}
