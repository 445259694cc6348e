//! Whole files.

ghost use Rattle.std.specs.Prelude.{◌≡◌, ◌≤◌, ◌<◌, ◌-◌, [], ◌∷◌, Some, None, length, drop, map};
ghost use Rattle.std.specs.Prelude.{IfOk, IfErr, MatchOption, MatchResult, IfSome, List};
ghost use Rattle.parser_grammar.specs.Trees.{ItemForm};
ghost use Rattle.parser_grammar.specs.Readers.{lead};
ghost use Rattle.parser_grammar.specs.Files.{IsFile};
ghost use Rattle.parser_grammar.specs.ReadFiles.{asserts, is_more, items};
ghost use Rattle.parser_grammar.specs.Views.{item_of, items_of};
ghost use Rattle.parser.specs.Faults.{IsParseFault, Refuses, IsPlaced};

use crate::fault::{ParseFault, byte_in, fault_of};
use crate::item::read_item;
use crate::read::{byte_at, first, read, same};
use lexer::Token;
use parser_grammar::{File, ItemTree, Terminal, is};
use std::alloc::Global;

/// The items that stand first, whether one of them is an assertion, and the tokens after them.
type Items<'t, 'a> = Result<(Vec<ItemTree<'a>>, bool, &'t [Token<'a>]), ParseFault<'a>>;

/// The first token, if it isn't that of the end.
#[tactic(auto, using(crate::proofs::ItemSteps::for_more))]
fn more<'t, 'a>(tokens: &'t [Token<'a>]) -> Option<(Token<'a>, &'t [Token<'a>])>
    ensures token { MatchOption result (lead is_more tokens.now ≡ None)
        (λ r. lead is_more tokens.now ≡ Some (r.0, r.1.now)) }
    ensures whole { IfSome result (λ r. tokens.now ≡ r.0 ∷ r.1.now) }
    ensures shorter { IfSome result (λ r. length r.1.now < length tokens.now) }
{
    let Some((token, rest)) = first(tokens) else {
        return None;
    };
    if is(Terminal::End, token) {
        return None;
    }
    Some((token, rest))
}

/// The last tokens, so many of them.
fn last_of<'t, 'a>(tokens: &'t [Token<'a>], count: usize) -> &'t [Token<'a>]
    requires { count ≤ length tokens.now }
    ensures { result.now ≡ drop (length tokens.now - count) tokens.now }
{
    &tokens[tokens.len() - count..]
}

/// Whether an item is an assertion.
fn is_assertion(item: &ItemTree) -> bool
    ensures { result ≡ asserts (item_of item.now ∷ []) }
{
    match item {
        ItemTree::Assertion(_) => true,
        ItemTree::Counter(_) => false,
        ItemTree::Declaration(_) => false,
    }
}

/// Items, up to the end.
fn read_items<'t, 'a>(alloc: Global, tokens: &'t [Token<'a>]) -> Items<'t, 'a>
    ensures read { MatchResult result
        (λ r. items tokens.now ≡ Some (map item_of r.0.items, r.2.now))
        (λ fault. Refuses fault (items tokens.now)) }
    ensures asserted { IfOk result (λ r. r.1 ≡ asserts (map item_of r.0.items)) }
    ensures placed { IfErr result (IsPlaced tokens.now) }
{
    let mut found = Vec::new(alloc);
    let mut asserted = false;
    let mut left = tokens;
    'items: loop {
        let Some((_, _)) = more(left) else {
            return Ok((found, asserted, left));
        };
        let (item, rest) = match read_item(alloc, left) {
            Ok(read) => read,
            Err(stop) => return Err(fault_of(last_of(tokens, left.len()), stop)),
        };
        asserted |= is_assertion(&item);
        found.push(item)?;
        left = same(rest);
    }
}

/// The fault where the tokens after the items are not the end alone, or no item is an assertion.
fn end_fault<'a>(tokens: &[Token<'a>], rest: &[Token<'a>], asserted: bool) -> Option<ParseFault<'a>>
    ensures file { (xs : List ItemForm) → items tokens.now ≡ Some (xs, rest.now)
        → asserted ≡ asserts xs
        → MatchOption result (IsFile xs tokens.now) (IsParseFault tokens.now) }
    ensures placed { IfSome result (λ fault. 0 < length tokens.now → IsPlaced tokens.now fault) }
{
    let Some((last, behind)) = first(rest) else {
        return Some(ParseFault::Expected("the end", byte_at(tokens)));
    };
    if !is(Terminal::End, last) {
        return Some(ParseFault::Expected("the end", byte_in(tokens, last.at)));
    }
    if let Some((token, _)) = first(behind) {
        return Some(ParseFault::Expected("no more tokens", byte_in(tokens, token.at)));
    }
    if !asserted {
        return Some(ParseFault::Expected("an assertion", byte_in(tokens, last.at)));
    }
    None
}

/// The file that the tokens are.
///
/// The tokens are those of `lexer::lex`: the last one is the end, and no other is. The fault is
/// that of the first token at which reading can't go on (see `ParseFault`). Which one it is, and at
/// which of the tokens, is shown by tests.
pub fn parse<'a>(alloc: Global, tokens: &[Token<'a>]) -> Result<File<'a>, ParseFault<'a>>
    ensures ok { IfOk result (λ f. IsFile (items_of f) tokens.now) }
    ensures err { IfErr result (IsParseFault tokens.now) }
    // The fault stands at one of the tokens, if there is one, and P2 tells that token's text.
    ensures placed { IfErr result (λ fault. 0 < length tokens.now → IsPlaced tokens.now fault) }
{
    let (items, asserted, rest) = read!(read_items(alloc, tokens));
    match end_fault(tokens, rest, asserted) {
        Some(fault) => Err(fault),
        None => Ok(File { items }),
    }
}
