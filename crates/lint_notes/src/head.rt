//! Where assertions stand, and which say that nothing happens.

ghost use Rattle.std.specs.Prelude.{◌≡◌, map, IfOk};
ghost use Rattle.parser_grammar.specs.Views.{items_of, assertion_of, property_of};
ghost use Rattle.parser_grammar.specs.Views.{sequence_of, tree_of};
ghost use Rattle.lint_notes.specs.Idle.{head_byte, is_zero_tree, is_zero, is_never, data_of, heads};

use parser_grammar::{AssertionTree, ExprTree, File, ItemTree, PropertyTree, SequenceTree};
use std::alloc::{AllocError, Global};

/// An assertion of a text.
#[derive(Clone, Copy)]
pub struct Head {
    /// The byte at which it begins: that of its label, or of its verb.
    pub at: usize,
    /// Whether it says that its antecedent never matches: it ends in `|-> 0` or `|=> 0`.
    pub never: bool,
}

/// The first byte of an assertion.
fn head_byte(assertion: &AssertionTree) -> usize
    ensures { result ≡ head_byte (assertion_of assertion.now) }
{
    match &assertion.label {
        None => assertion.verb.at,
        Some(label) => label.at,
    }
}

/// Whether an expression is the number 0.
fn is_zero_number(expr: &ExprTree) -> bool
    ensures { result ≡ is_zero_tree (tree_of expr.now) }
{
    match expr {
        ExprTree::Number(number, _) => number.value == 0,
        _ => false,
    }
}

/// Whether a sequence is the number 0 alone.
fn is_zero(sequence: &SequenceTree) -> bool
    ensures { result ≡ is_zero (sequence_of sequence.now) }
{
    match sequence {
        SequenceTree::Boolean(expr) => is_zero_number(expr),
        _ => false,
    }
}

/// Whether a property says that its antecedent never matches.
fn is_never(property: &PropertyTree) -> bool
    ensures { result ≡ is_never (property_of property.now) }
{
    match property {
        PropertyTree::Plain(_) => false,
        PropertyTree::Implication(_, _, _, consequent) => is_zero(consequent),
    }
}

/// The assertions of a file, in its order.
pub fn heads_of(alloc: Global, file: &File) -> Result<Vec<Head>, AllocError>
    ensures { IfOk result (λ hs. map data_of hs.items ≡ heads (items_of file.now)) }
{
    let mut heads = Vec::new(alloc);
    for item in &file.items {
        let ItemTree::Assertion(assertion) = item else {
            continue;
        };
        heads.push(Head {
            at: head_byte(assertion),
            never: is_never(&assertion.property),
        })?;
    }
    Ok(heads)
}
