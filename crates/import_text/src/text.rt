//! Texts with one assertion.

ghost use Rattle.std.specs.Prelude.{◌≡◌, ◌∷◌, [], Ok, Some, IsTrue, IfOk, IfSome, is_some, map};
ghost use Rattle.std.specs.Prelude.{◌++◌, OnOk, flat_map, option_map};
ghost use Rattle.lexer.specs.Cutting.{cut_of, tokens_of};
ghost use Rattle.parser_grammar.specs.Views.{item_of, assertion_of, property_of, path_of};
ghost use Rattle.assertions.specs.Written.{boolean, delay};
ghost use Rattle.import_properties.specs.declared.condition.Condition.TheVariants.{One};
ghost use Rattle.import_properties.specs.Shapes.{written_form};
ghost use Rattle.import_text.specs.Texts.{SaysRewriting, IsOnlyRewriting, IsRewriting};
ghost use Rattle.import_text.specs.Texts.{HasSides, assertions_of, text_of, after_dot, dotted};

use crate::outline::{MOST_DEPTH, has_outline};
use import_properties::{Condition, Sequence};
use lexer::{LexFault, Token, lex};
use parser::{ParseFault, parse};
use parser_grammar::{AssertionTree, Implication, ItemTree, Path, PropertyTree, SequenceTree};
use std::alloc::{AllocError, Global};

/// Whether it is the constant 1.
fn is_one(sequence: &Sequence) -> bool
    ensures { IsTrue result → written_form sequence.now ≡ boolean One }
{
    matches!(sequence, Sequence::Boolean(Condition::One))
}

/// What stands before a last tick at which nothing is asked, if that is how a sequence ends.
fn before_next(sequence: &Sequence) -> Option<&Sequence>
    ensures { IfSome result (λ before.
        written_form sequence.now ≡ delay (written_form before.now) 1 1 (boolean One)) }
{
    match sequence {
        Sequence::Delay(before, 1, 1, last) if is_one(last) => Some(before),
        _ => None,
    }
}

/// Whether the sides of a property have the outlines of two sequences.
fn has_sides(property: &PropertyTree, antecedent: &Sequence, consequent: &Sequence) -> bool
    ensures { IsTrue result → HasSides (property_of property.now)
        (written_form antecedent.now) (written_form consequent.now) }
{
    match property {
        PropertyTree::Plain(body) => {
            if !is_one(antecedent) {
                return false;
            }
            has_outline(body, consequent, MOST_DEPTH)
        }
        PropertyTree::Implication(None, first, Implication::Overlapped, second) => {
            if !has_outline(first, antecedent, MOST_DEPTH) {
                return false;
            }
            has_outline(second, consequent, MOST_DEPTH)
        }
        PropertyTree::Implication(None, first, Implication::NonOverlapped, second) => {
            match before_next(antecedent) {
                Some(before) => {
                    if !has_outline(first, before, MOST_DEPTH) {
                        return false;
                    }
                    has_outline(second, consequent, MOST_DEPTH)
                }
                None => false,
            }
        }
        PropertyTree::Implication(Some(_), _, _, _) => false,
    }
}

/// Whether an assertion has a `disable iff`, or has none.
fn has_disable(assertion: &AssertionTree, is_disabled: bool) -> bool
    ensures { IsTrue result → is_some (assertion_of assertion.now).disable ≡ is_disabled }
{
    match assertion.disable {
        Some(_) => is_disabled,
        None => !is_disabled,
    }
}

/// Adds words, with a dot before each.
fn push_dotted(out: &mut Vec<u8>, words: &[Token]) -> Result<(), AllocError>
    ensures { OnOk result (out.new.items ≡ out.old.items ++ flat_map after_dot words.now) }
{
    for word in words {
        out.extend_from_slice(b".")?;
        out.extend_from_slice(word.text.as_bytes())?;
    }
    Ok(())
}

/// Whether bytes are a path, with a dot between its words.
fn is_path(alloc: Global, path: &Path, bytes: &[u8]) -> Result<bool, AllocError>
    ensures { IfOk result (λ yes. IsTrue yes → dotted (path_of path.now) ≡ bytes.now) }
{
    let mut text = Vec::new(alloc);
    text.extend_from_slice(path.first.text.as_bytes())?;
    push_dotted(&mut text, path.more.as_slice())?;
    Ok(text.as_slice() == bytes)
}

/// Whether an assertion has a label.
fn has_label(assertion: &AssertionTree, label: &[u8]) -> bool
    ensures { IsTrue result
        → option_map text_of (assertion_of assertion.now).label ≡ Some label.now }
{
    match assertion.label {
        Some(token) => token.text.as_bytes() == label,
        None => false,
    }
}

/// Whether an assertion has a label, a clock, a `disable iff` or none, and the sides of a
/// rewriting.
fn is_rewriting(
    alloc: Global,
    assertion: &AssertionTree,
    label: &[u8],
    clock: &[u8],
    is_disabled: bool,
    antecedent: &Sequence,
    consequent: &Sequence,
) -> Result<bool, AllocError>
    ensures { IfOk result (λ yes. IsTrue yes → IsRewriting label.now clock.now is_disabled
        (written_form antecedent.now) (written_form consequent.now) (assertion_of assertion.now)) }
{
    if !is_path(alloc, &assertion.clock, clock)? {
        return Ok(false);
    }
    Ok(
        has_label(assertion, label)
            && has_disable(assertion, is_disabled)
            && has_sides(&assertion.property, antecedent, consequent),
    )
}

/// Whether no item is an assertion.
fn has_none(items: &[ItemTree]) -> bool
    ensures { IsTrue result → assertions_of (map item_of items.now) ≡ [] }
{
    for item in items {
        match item {
            ItemTree::Counter(_) | ItemTree::Declaration(_) => {}
            ItemTree::Assertion(_) => return false,
        }
    }
    true
}

/// The assertion that is the last item and the only one, if there is one.
fn only_assertion<'i, 'a>(items: &'i [ItemTree<'a>]) -> Option<&'i AssertionTree<'a>>
    ensures { IfSome result
        (λ a. assertions_of (map item_of items.now) ≡ assertion_of a.now ∷ []) }
{
    match items.split_last() {
        Some((ItemTree::Assertion(assertion), before)) if has_none(before) => Some(assertion),
        _ => None,
    }
}

/// Whether the only assertion among items is that of a rewriting.
fn items_say(
    alloc: Global,
    items: &[ItemTree],
    label: &[u8],
    clock: &[u8],
    is_disabled: bool,
    antecedent: &Sequence,
    consequent: &Sequence,
) -> Result<bool, AllocError>
    ensures { IfOk result (λ yes. IsTrue yes → IsOnlyRewriting label.now clock.now is_disabled
        (written_form antecedent.now) (written_form consequent.now) (map item_of items.now)) }
{
    match only_assertion(items) {
        Some(assertion) => is_rewriting(
            alloc,
            assertion,
            label,
            clock,
            is_disabled,
            antecedent,
            consequent,
        ),
        None => Ok(false),
    }
}

/// Whether the tokens of a text spell a file whose only assertion is that of a rewriting.
fn tokens_say(
    alloc: Global,
    text: &[u8],
    tokens: &[Token],
    label: &[u8],
    clock: &[u8],
    is_disabled: bool,
    antecedent: &Sequence,
    consequent: &Sequence,
) -> Result<bool, AllocError>
    requires { tokens_of text.now ≡ Ok (map cut_of tokens.now) }
    ensures { IfOk result (λ yes. IsTrue yes → SaysRewriting label.now clock.now is_disabled
        (written_form antecedent.now) (written_form consequent.now) text.now) }
{
    match parse(alloc, tokens) {
        Ok(file) => items_say(
            alloc,
            file.items.as_slice(),
            label,
            clock,
            is_disabled,
            antecedent,
            consequent,
        ),
        Err(ParseFault::Memory) => Err(AllocError),
        Err(_) => Ok(false),
    }
}

/// Whether a text is one of the profile's grammar whose only assertion has a label, a clock, a
/// `disable iff` or none, and sides with the outlines of a rewriting's.
fn text_says(
    alloc: Global,
    text: &str,
    label: &[u8],
    clock: &[u8],
    is_disabled: bool,
    antecedent: &Sequence,
    consequent: &Sequence,
) -> Result<bool, AllocError>
    ensures { IfOk result (λ yes. IsTrue yes → SaysRewriting label.now clock.now is_disabled
        (written_form antecedent.now) (written_form consequent.now) text.now) }
{
    match lex(alloc, text) {
        Ok(tokens) => tokens_say(
            alloc,
            text.as_bytes(),
            tokens.as_slice(),
            label,
            clock,
            is_disabled,
            antecedent,
            consequent,
        ),
        Err(LexFault::Memory) => Err(AllocError),
        Err(_) => Ok(false),
    }
}

/// Whether bytes are a text of the profile's grammar whose only assertion has a label, a clock by
/// its whole path, a `disable iff` or none, and sides with the outlines of these two sequences.
///
/// # Errors
///
/// Want of memory.
pub fn says_rewriting(
    alloc: Global,
    bytes: &[u8],
    label: &[u8],
    clock: &[u8],
    is_disabled: bool,
    antecedent: &Sequence,
    consequent: &Sequence,
) -> Result<bool, AllocError>
    ensures { IfOk result (λ yes. IsTrue yes → SaysRewriting label.now clock.now is_disabled
        (written_form antecedent.now) (written_form consequent.now) bytes.now) }
{
    match str::from_utf8(bytes) {
        Ok(text) => text_says(
            alloc,
            text,
            label,
            clock,
            is_disabled,
            antecedent,
            consequent,
        ),
        Err(_) => Ok(false),
    }
}
