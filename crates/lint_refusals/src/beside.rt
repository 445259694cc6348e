//! What stands in a text beside its first refusal.

ghost use Rattle.std.specs.Prelude.{◌≡◌, Ok, map, IfOk};
ghost use Rattle.std.specs.List.{All};
ghost use Rattle.lexer.specs.Cutting.{cut_of, tokens_of};
ghost use Rattle.parser_grammar.specs.Views.{items_of};
ghost use Rattle.vcd_reader.specs.Held.{variables_of};
ghost use Rattle.suite_over_dump.specs.Suites.{Spells};
ghost use Rattle.lint_refusals.specs.Beside.{HasFaultAt};

use crate::front::DumpFront;
use diagnostics::Refusal;
use lexer::{LexFault, Token, lex};
use lint_messages::type_refusal;
use parser::{File, ItemTree, ParseFault, parse};
use std::alloc::{AllocError, Global};
use suite_over_dump::{Standing, faults_over};

/// The words of tokens, in their order as words.
fn words_of<'t>(alloc: Global, tokens: &[Token<'t>]) -> Result<Vec<&'t str>, AllocError> {
    let mut words = Vec::with_capacity(alloc, tokens.len())?;
    for token in tokens {
        words.push(token.text)?;
    }
    words.sort()?;
    Ok(words)
}

/// Whether the word at a place is that.
fn is_at(words: &[&str], place: usize, name: &str) -> bool {
    match words.get(place) {
        None => false,
        Some(word) => *word == name,
    }
}

/// Whether a word stands once among words in their order.
fn stands_once(words: &[&str], name: &str) -> bool {
    let Ok(place) = words.binary_search_by(|word| (*word).cmp(name)) else {
        return false;
    };
    let is_first = place == 0 || !is_at(words, place - 1, name);
    is_first && !is_at(words, place.saturating_add(1), name)
}

/// The name that an item declares; none of an assertion, which others can't use.
fn declared_name<'t>(item: &ItemTree<'t>) -> Option<&'t str> {
    match item {
        ItemTree::Counter(counter) => Some(counter.name.text),
        ItemTree::Declaration(declaration) => Some(declaration.name.text),
        ItemTree::Assertion(_) => None,
    }
}

/// Whether both items are counters, or both sequences.
fn are_alike(first: &ItemTree, second: &ItemTree) -> bool {
    match (first, second) {
        (ItemTree::Counter(_), ItemTree::Counter(_)) => true,
        (ItemTree::Declaration(_), ItemTree::Declaration(_)) => true,
        _ => false,
    }
}

/// Whether the item of a fault may be left out, and all others mean what they did: it is an
/// assertion, its name is used nowhere, or means another item of its kind.
fn is_apart(file: &File, words: &[&str], one: &Standing) -> bool {
    let (Some(first), Some(item)) = (file.items.get(one.first), file.items.get(one.item)) else {
        return false;
    };
    match declared_name(item) {
        None => true,
        Some(name) if one.first == one.item => stands_once(words, name),
        Some(_) => are_alike(first, item),
    }
}

/// Whether a word is a name that an assertion without a label may get, which hangs on how many
/// stand before it.
fn is_made_name(word: &str) -> bool {
    match word.strip_prefix("assert_") {
        None => false,
        Some(number) => number.bytes().all(|byte| byte.is_ascii_digit()),
    }
}

/// How many assertions a text has.
fn assertions_in(file: &File) -> usize {
    let mut count = 0usize;
    for item in &file.items {
        if let ItemTree::Assertion(_) = item {
            count = count.saturating_add(1);
        }
    }
    count
}

/// Whether the item at a place is an assertion.
fn is_assertion(file: &File, place: usize) -> bool {
    match file.items.get(place) {
        Some(ItemTree::Assertion(_)) => true,
        _ => false,
    }
}

/// The refusals of the items that a text spells, up to the first on which others hang, and as long
/// as an assertion is left.
fn others_of(
    alloc: Global,
    front: &DumpFront,
    text: &str,
    tokens: &[Token],
    file: &File,
) -> Result<Vec<Refusal>, AllocError>
    requires { Spells text.now tokens.now (items_of file.now) }
    ensures { IfOk result (λ all. All
        (λ r. HasFaultAt (variables_of front.now.meant.dump.now) text.now r.at) all.items) }
{
    let mut all = Vec::new(alloc);
    let words = words_of(alloc, tokens)?;
    if words.iter().any(|word| is_made_name(*word)) {
        return Ok(all);
    }
    let faults = faults_over(alloc, front.meant.dump, file)?;
    let mut assertions = assertions_in(file);
    for one in &faults {
        if assertions == 0 || !is_apart(file, words.as_slice(), one) {
            return Ok(all);
        }
        if is_assertion(file, one.item) {
            assertions = assertions.saturating_sub(1);
        }
        all.push(type_refusal(alloc, &front.meant, text, file, one.fault)?)?;
    }
    Ok(all)
}

/// More refusals of a text with tokens.
fn others_among(
    alloc: Global,
    front: &DumpFront,
    text: &str,
    tokens: &[Token],
) -> Result<Vec<Refusal>, AllocError>
    requires { tokens_of text.now ≡ Ok (map cut_of tokens.now) }
    ensures { IfOk result (λ all. All
        (λ r. HasFaultAt (variables_of front.now.meant.dump.now) text.now r.at) all.items) }
{
    match parse(alloc, tokens) {
        Ok(file) => others_of(alloc, front, text, tokens, &file),
        Err(ParseFault::Memory) => Err(AllocError),
        Err(_) => Ok(Vec::new(alloc)),
    }
}

/// More refusals of a text, of which none hangs on another: faults of types of the first kind that
/// there is. None where the text has no tokens, or spells no items.
pub(crate) fn others_in(
    alloc: Global,
    front: &DumpFront,
    text: &str,
) -> Result<Vec<Refusal>, AllocError>
    ensures { IfOk result (λ all. All
        (λ r. HasFaultAt (variables_of front.now.meant.dump.now) text.now r.at) all.items) }
{
    match lex(alloc, text) {
        Ok(tokens) => others_among(alloc, front, text, tokens.as_slice()),
        Err(LexFault::Memory) => Err(AllocError),
        Err(_) => Ok(Vec::new(alloc)),
    }
}
