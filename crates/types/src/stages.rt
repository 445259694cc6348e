//! Faults in their order.

ghost use Rattle.std.specs.Prelude.{◌≡◌, ◌<◌, ℕ, true, false, map, length, IfOk, IfErr};
ghost use Rattle.parser_grammar.specs.Views.{item_of};
ghost use Rattle.types_names.specs.Views.{scope_of};
ghost use Rattle.types.specs.Texts.{assertions_of, suite_clock};
ghost use Rattle.types.specs.Readings.{Where, outlines_of};
ghost use Rattle.types.specs.Faults.{Text, sides_of, consequents_of};
ghost use Rattle.types.specs.Faults.{ClearTo, IsFaultless};
ghost use Rattle.types.specs.Faults.{IsTypeFault};
ghost use Rattle.types.specs.CycleStages.{AreOutlined};
ghost use Rattle.types.specs.Sides.{AreWeighed, AreLight};
ghost use Rattle.types.specs.Cycles.{ReachesCycle};
ghost use Rattle.types.specs.Entries.{IsEntryTable, has_entry};
ghost use Rattle.types.specs.Views.{draft_of};

use crate::clocks::first_other_clock;
use crate::cycles::{first_cycle, has_all};
use crate::draft::Draft;
use crate::entry::Entry;
use crate::fault::TypeFault;
use crate::names::first_duplicate;
use crate::side::{Side, first_degenerate, first_empty, first_wide};
use parser_grammar::ItemTree;
use std::alloc::Global;
use types_names::{Scope, Sought};
use types_signals::first_fault;

/// Looks for unknown names (Y1).
#[tactic(auto, using(crate::proofs::StageLaws::for_stages))]
fn check_paths(alloc: Global, scope: &Scope, items: &[ItemTree]) -> Result<(), TypeFault>
    ensures ok { IfOk result (λ _. ClearTo (scope_of scope.now) (map item_of items.now) 1) }
    ensures err { IfErr result (IsTypeFault (scope_of scope.now) (map item_of items.now)) }
{
    match first_fault(alloc, scope, Sought::Unknown, items)? {
        None => Ok(()),
        Some(at) => Err(TypeFault::UnknownName(at)),
    }
}

/// Looks for names that are declared again (Y2).
#[tactic(auto, using(crate::proofs::StageLaws::clear_2, crate::proofs::StageLaws::first_2))]
fn check_names(alloc: Global, scope: &Scope, items: &[ItemTree]) -> Result<(), TypeFault>
    requires clear { ClearTo (scope_of scope.now) (map item_of items.now) 1 }
    ensures ok { IfOk result (λ _. ClearTo (scope_of scope.now) (map item_of items.now) 2) }
    ensures err { IfErr result (IsTypeFault (scope_of scope.now) (map item_of items.now)) }
{
    match first_duplicate(alloc, items)? {
        None => Ok(()),
        Some(at) => Err(TypeFault::Duplicate(at)),
    }
}

/// Looks for wide concatenations (Y3).
#[tactic(auto, using(crate::proofs::StageLaws::clear_3, crate::proofs::StageLaws::first_3))]
fn check_concatenations(alloc: Global, scope: &Scope, items: &[ItemTree]) -> Result<(), TypeFault>
    requires clear { ClearTo (scope_of scope.now) (map item_of items.now) 2 }
    ensures ok { IfOk result (λ _. ClearTo (scope_of scope.now) (map item_of items.now) 3) }
    ensures err { IfErr result (IsTypeFault (scope_of scope.now) (map item_of items.now)) }
{
    match first_fault(alloc, scope, Sought::Wide, items)? {
        None => Ok(()),
        Some(at) => Err(TypeFault::WiderThan128(at)),
    }
}

/// Looks for selects out of range (Y4).
#[tactic(auto, using(crate::proofs::StageLaws::clear_4, crate::proofs::StageLaws::first_4))]
fn check_selects(alloc: Global, scope: &Scope, items: &[ItemTree]) -> Result<(), TypeFault>
    requires clear { ClearTo (scope_of scope.now) (map item_of items.now) 3 }
    ensures ok { IfOk result (λ _. ClearTo (scope_of scope.now) (map item_of items.now) 4) }
    ensures err { IfErr result (IsTypeFault (scope_of scope.now) (map item_of items.now)) }
{
    match first_fault(alloc, scope, Sought::OutOfRange, items)? {
        None => Ok(()),
        Some(at) => Err(TypeFault::SliceRange(at)),
    }
}

/// Looks for other clocks (Y7).
#[tactic(auto, using(crate::proofs::StageLaws::clear_5, crate::proofs::StageLaws::first_5))]
fn check_clocks(
    alloc: Global,
    scope: &Scope,
    items: &[ItemTree],
    clock: &str,
) -> Result<(), TypeFault>
    requires clear { ClearTo (scope_of scope.now) (map item_of items.now) 4 }
    requires clock { clock.now ≡ suite_clock (assertions_of (map item_of items.now)) }
    ensures ok { IfOk result (λ _. ClearTo (scope_of scope.now) (map item_of items.now) 5) }
    ensures err { IfErr result (IsTypeFault (scope_of scope.now) (map item_of items.now)) }
{
    match first_other_clock(alloc, clock, items)? {
        None => Ok(()),
        Some(at) => Err(TypeFault::OtherClock(at)),
    }
}

/// Looks for faults of names, widths and clocks, Y1 to Y4 and Y7, in this order.
pub(crate) fn check_expressions(
    alloc: Global,
    scope: &Scope,
    items: &[ItemTree],
    clock: &str,
) -> Result<(), TypeFault>
    requires { clock.now ≡ suite_clock (assertions_of (map item_of items.now)) }
    ensures ok { IfOk result (λ _. ClearTo (scope_of scope.now) (map item_of items.now) 5) }
    ensures err { IfErr result (IsTypeFault (scope_of scope.now) (map item_of items.now)) }
{
    check_paths(alloc, scope, items)?;
    check_names(alloc, scope, items)?;
    check_concatenations(alloc, scope, items)?;
    check_selects(alloc, scope, items)?;
    check_clocks(alloc, scope, items, clock)
}

/// Looks for sequences that reach themselves (Y8), where these are the entries of the named
/// sequences.
pub(crate) fn check_cycles(
    alloc: Global,
    bodies: &[Draft],
    bytes: &[usize],
    table: &[Option<Entry>],
) -> Result<(), TypeFault>
    requires bytes { length bytes.now ≡ length bodies.now }
    requires long { length table.now ≡ length bodies.now }
    requires entries { IsEntryTable (map draft_of bodies.now) table.now }
    requires cyclic { (p : ℕ) → p < length bodies.now → has_entry table.now p ≡ false
        → ReachesCycle (map draft_of bodies.now) p }
    ensures entries { IfOk result (λ _.
        (p : ℕ) → p < length bodies.now → has_entry table.now p ≡ true) }
    ensures ok { (s : Where) (items : Text)
        → AreOutlined s items (map draft_of bodies.now) bytes.now → ClearTo s items 5
        → IfOk result (λ _. ClearTo s items 6) }
    ensures err { (s : Where) (items : Text)
        → AreOutlined s items (map draft_of bodies.now) bytes.now → ClearTo s items 5
        → IfErr result (IsTypeFault s items) }
{
    if has_all(table) {
        return Ok(());
    }
    match first_cycle(alloc, bodies, bytes)? {
        None => Ok(()),
        Some(at) => Err(TypeFault::CyclicSequence(at)),
    }
}

/// Looks for faults of antecedents and consequents, Y9, Y5 and Y6, in this order.
pub(crate) fn check_sides(sides: &[Side], consequents: &[Side]) -> Result<(), TypeFault>
    ensures light { IfOk result (λ _. AreLight sides.now) }
    ensures ok { (s : Where) (items : Text) → ClearTo s items 6
        → AreWeighed (outlines_of s items) (sides_of s (assertions_of items)) sides.now
        → AreWeighed (outlines_of s items) (consequents_of s (assertions_of items)) consequents.now
        → IfOk result (λ _. IsFaultless s items) }
    ensures err { (s : Where) (items : Text) → ClearTo s items 6
        → AreWeighed (outlines_of s items) (sides_of s (assertions_of items)) sides.now
        → AreWeighed (outlines_of s items) (consequents_of s (assertions_of items)) consequents.now
        → IfErr result (IsTypeFault s items) }
{
    if let Some(at) = first_wide(sides) {
        return Err(TypeFault::TooWide(at));
    }
    if let Some(at) = first_degenerate(sides) {
        return Err(TypeFault::Degenerate(at));
    }
    if let Some(at) = first_empty(consequents) {
        return Err(TypeFault::AdmitsEmpty(at));
    }
    Ok(())
}
