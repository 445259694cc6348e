//! Faults that stand in the items of a text, be they the first or not.

ghost use Rattle.std.specs.Prelude.{◌≡◌, ◌<◌, List, map, true, IfOk};
ghost use Rattle.std.specs.List.{All};
ghost use Rattle.std.specs.Str.{bytes_eq};
ghost use Rattle.parser_grammar.specs.Trees.{ItemForm};
ghost use Rattle.parser_grammar.specs.Views.{item_of, items_of};
ghost use Rattle.types.specs.Readings.{Where};
ghost use Rattle.types_names.specs.Views.{scope_of};
ghost use Rattle.types.specs.Faults.{byte_of};
ghost use Rattle.vcd_reader.specs.Held.{variables_of};
ghost use Rattle.suite_over_dump.specs.Standing.{written_name, IsWritten, StandsIn};
ghost use Rattle.suite_over_dump.specs.Suites.{scope_over};

use crate::dump_widths::DumpWidths;
use lexer::Token;
use parser::{File, ItemTree};
use std::alloc::{AllocError, Global};
use std::slice::from_ref;
use types::TypeFault;
use types_names::{Scope, Sought};
use types_signals::{first_fault, scope_for};
use vcd_reader::Dump;

/// A fault of an item: the place of the item among those of the text, and that of the one that has
/// its name before it, if this is the fault.
#[derive(Clone, Copy)]
pub struct Standing {
    pub item: usize,
    pub first: usize,
    pub fault: TypeFault,
}

/// The fault of a kind at a byte.
fn fault_at(sought: Sought, at: usize) -> TypeFault
    ensures { byte_of result ≡ at }
{
    match sought {
        Sought::Unknown => TypeFault::UnknownName(at),
        Sought::Wide => TypeFault::WiderThan128(at),
        Sought::OutOfRange => TypeFault::SliceRange(at),
    }
}

/// The first fault of a kind of each item that has one.
fn faults_of_kind(
    alloc: Global,
    scope: &Scope,
    sought: Sought,
    items: &[ItemTree],
) -> Result<Vec<Standing>, AllocError>
    ensures { IfOk result (λ all. All
        (λ s. StandsIn (scope_of scope.now) (map item_of items.now) (byte_of s.fault))
        all.items) }
{
    let mut all = Vec::new(alloc);
    for (place, item) in items.iter().enumerate() {
        let Some(at) = first_fault(alloc, scope, sought, from_ref(item))? else {
            continue;
        };
        all.push(Standing {
            item: place,
            first: place,
            fault: fault_at(sought, at),
        })?;
    }
    Ok(all)
}

/// A name that is written in an item, by its place.
#[derive(Clone, Copy)]
struct Named<'t> {
    item: usize,
    name: Token<'t>,
}

/// The name that is written in an item.
fn written_name<'t>(item: &ItemTree<'t>) -> Option<Token<'t>>
    ensures { result ≡ written_name (item_of item.now) }
{
    match item {
        ItemTree::Counter(counter) => Some(counter.name),
        ItemTree::Declaration(declaration) => Some(declaration.name),
        ItemTree::Assertion(assertion) => assertion.label,
    }
}

/// The names that are written in items.
fn names_in<'t>(alloc: Global, items: &[ItemTree<'t>]) -> Result<Vec<Named<'t>>, AllocError>
    ensures { IfOk result
        (λ all. All (λ n. IsWritten (map item_of items.now) n.name) all.items) }
{
    let mut all = Vec::new(alloc);
    for (place, item) in items.iter().enumerate() {
        if let Some(name) = written_name(item) {
            all.push(Named { item: place, name })?;
        }
    }
    Ok(all)
}

/// Whether a name is that of another, which stands before it.
fn is_again(first: &Named, second: &Named) -> bool
    ensures { result ≡ true → (bytes_eq first.now.name.text.now second.now.name.text.now ≡ true)
        × (first.now.name.at < second.now.name.at) }
{
    first.name.text == second.name.text && first.name.at < second.name.at
}

/// The names that are written again, of those that are in order, and of equal ones by their places.
fn repeated_among(alloc: Global, names: &[Named]) -> Result<Vec<Standing>, AllocError>
    ensures { (s : Where) (items : List ItemForm) → All (λ n. IsWritten items n.name) names.now
        → IfOk result (λ all. All (λ one. StandsIn s items (byte_of one.fault)) all.items) }
{
    let mut all = Vec::new(alloc);
    let mut first = 0;
    for (place, one) in names.iter().enumerate() {
        let before = &names[first];
        if !is_again(before, one) {
            first = place;
            continue;
        }
        all.push(Standing {
            item: one.item,
            first: before.item,
            fault: TypeFault::Duplicate(one.name.at),
        })?;
    }
    Ok(all)
}

/// The names of items that are written again, in the order of the items.
fn repeated_in(alloc: Global, items: &[ItemTree]) -> Result<Vec<Standing>, AllocError>
    ensures { (s : Where) → IfOk result
        (λ all. All (λ one. StandsIn s (map item_of items.now) (byte_of one.fault)) all.items) }
{
    let mut names = names_in(alloc, items)?;
    names.sort_by_key(|one| (one.name.text, one.name.at))?;
    let mut all = repeated_among(alloc, names.as_slice())?;
    all.sort_by_key(|one| one.item)?;
    Ok(all)
}

/// The faults that stand in items, of the first kind in the order Y1, Y2, Y3, Y4 of which there are
/// any.
fn faults_in(alloc: Global, scope: &Scope, items: &[ItemTree]) -> Result<Vec<Standing>, AllocError>
    ensures { IfOk result (λ all. All
        (λ s. StandsIn (scope_of scope.now) (map item_of items.now) (byte_of s.fault))
        all.items) }
{
    let unknown = faults_of_kind(alloc, scope, Sought::Unknown, items)?;
    if !unknown.is_empty() {
        return Ok(unknown);
    }
    let repeated = repeated_in(alloc, items)?;
    if !repeated.is_empty() {
        return Ok(repeated);
    }
    let wide = faults_of_kind(alloc, scope, Sought::Wide, items)?;
    if !wide.is_empty() {
        return Ok(wide);
    }
    faults_of_kind(alloc, scope, Sought::OutOfRange, items)
}

/// The faults that stand in the items of a text, of the first kind in the order Y1, Y2, Y3, Y4 of
/// which there are any: of each item at most one, in the order of the items.
pub fn faults_over(alloc: Global, dump: &Dump, file: &File) -> Result<Vec<Standing>, AllocError>
    ensures { IfOk result (λ all. All
        (λ s. StandsIn (scope_over (variables_of dump.now) (items_of file.now))
        (items_of file.now) (byte_of s.fault)) all.items) }
{
    let scope = scope_for(alloc, &DumpWidths { dump }, file.items.as_slice())?;
    faults_in(alloc, &scope, file.items.as_slice())
}
