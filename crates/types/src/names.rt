//! Names that are declared again.

ghost use Rattle.std.specs.Prelude.{◌≡◌, ◌<◌, ◌++◌, ◌+◌, map, IfOk, OnOk, string_bytes, option_map};
ghost use Rattle.std.specs.Prelude.{codes};
ghost use Rattle.parser_grammar.specs.Views.{assertion_of, item_of};
ghost use Rattle.types_names.specs.Faults.{least};
ghost use Rattle.types.specs.Texts.{label_byte, name_made, assertions_after, duplicates};

use crate::label::label_string;
use parser_grammar::{AssertionTree, ItemTree};
use std::alloc::{AllocError, Global};
use std::collections::BTreeSet;
use types_signals::earlier;

/// A name with the byte where it stands.
#[derive(Drop)]
pub(crate) struct Made {
    pub text: String,
    pub at: usize,
}

/// The name that an item makes.
fn name_of(alloc: Global, before: usize, item: &ItemTree) -> Result<Made, AllocError>
    requires { before < 18446744073709551615 }
    ensures text { IfOk result
        (λ m. string_bytes m.text ≡ (name_made before (item_of item.now)).0) }
    ensures at { IfOk result (λ m. m.at ≡ (name_made before (item_of item.now)).1) }
{
    match item {
        ItemTree::Counter(counter) => Ok(Made {
            text: String::from_str(alloc, counter.name.text)?,
            at: counter.name.at,
        }),
        ItemTree::Declaration(declaration) => Ok(Made {
            text: String::from_str(alloc, declaration.name.text)?,
            at: declaration.name.at,
        }),
        ItemTree::Assertion(assertion) => Ok(Made {
            text: label_string(alloc, before, assertion.label)?,
            at: label_at(assertion),
        }),
    }
}

/// Where an assertion's name stands.
fn label_at(assertion: &AssertionTree) -> usize
    ensures { result ≡ label_byte (assertion_of assertion.now) assertion.now.label }
{
    match assertion.label {
        Some(token) => token.at,
        None => assertion.verb.at,
    }
}

/// How many assertions stand before the next item.
fn assertions_after(before: usize, item: &ItemTree) -> usize
    requires { before < 18446744073709551615 }
    ensures { result ≡ assertions_after before (item_of item.now) }
{
    match item {
        ItemTree::Counter(_) => before,
        ItemTree::Declaration(_) => before,
        ItemTree::Assertion(_) => before + 1,
    }
}

/// The first name that is declared again: the byte where it stands.
pub(crate) fn first_duplicate(
    alloc: Global,
    items: &[ItemTree],
) -> Result<Option<usize>, AllocError>
    ensures { IfOk result (λ r. r ≡ least (duplicates (map item_of items.now))) }
{
    let mut known = BTreeSet::new(alloc);
    let mut before = 0usize;
    let mut fault = None;
    for item in items {
        let Made { text, at } = name_of(alloc, before, item)?;
        before = assertions_after(before, item);
        if known.insert(text)? {
            continue;
        }
        fault = earlier(fault, Some(at));
    }
    Ok(fault)
}
