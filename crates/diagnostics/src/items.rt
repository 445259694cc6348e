//! Where the items of a text end.

ghost use Rattle.std.specs.Prelude.{◌≡◌, ◌≤◌, ◌<◌, ◌+◌, ◌-◌, ◌^◌, length, map, min, IfOk, IsOk};
ghost use Rattle.std.specs.List.{list_any};
ghost use Rattle.std.specs.Str.{bytes_eq};
ghost use Rattle.diagnostics.specs.Items.{through, closing_name, block_length, item_length, end_of};
ghost use Rattle.diagnostics.specs.Items.{item_end, is_over, AreEnds, AreItemEnds, item_at};
ghost use Rattle.diagnostics.specs.Items.{is_start, is_labelled, begins, ends_after};
ghost use Rattle.diagnostics.specs.Items.{open_after, is_held_end, held_from, is_one, holders};
ghost use Rattle.diagnostics.specs.Items.{free_length, block_starts, block_ends, opens, closes};
ghost use Rattle.lexer.specs.Cutting.{tokens_of};

use crate::lexable::ends_beside;
use lexer::{Kind, LexFault, Token, lex};
use std::alloc::{AllocError, Global};

/// What opens an item that goes on over `;`.
const OPENERS: [&str; 2] = ["sequence", "property"];

/// What ends such an item.
const CLOSERS: [&str; 2] = ["endsequence", "endproperty"];

/// What ends any other item.
const ENDS: [&str; 6] = [
    ";",
    "endsequence",
    "endproperty",
    "endclocking",
    "endmodule",
    "end",
];

/// What begins an item, maybe after a label.
const STARTS: [&str; 5] = ["assert", "assume", "cover", "restrict", "sequence"];

/// What stands after a label.
const COLON: [&str; 1] = [":"];

/// What an item goes on after, whatever follows: a label's colon, a path's dot, a dash in a label,
/// a bracket, and words that stand before `sequence`.
const JOINTS: [&str; 7] = [":", ".", "-", "(", "assert", "assume", "cover"];

/// What holds other items: they are part of it.
const HOLDERS: [&str; 23] = [
    "if",
    "else",
    "for",
    "while",
    "case",
    "casex",
    "casez",
    "unique",
    "priority",
    "always",
    "always_comb",
    "always_ff",
    "always_latch",
    "initial",
    "final",
    "generate",
    "begin",
    "class",
    "function",
    "task",
    "foreach",
    "fork",
    "checker",
];

/// What opens a block, which may stand in another.
const BLOCK_STARTS: [&str; 10] = [
    "begin", "case", "casex", "casez", "generate", "class", "function", "task", "fork", "checker",
];

/// What closes one.
const BLOCK_ENDS: [&str; 10] = [
    "end",
    "endcase",
    "endgenerate",
    "endclass",
    "endfunction",
    "endtask",
    "endchecker",
    "join",
    "join_any",
    "join_none",
];

/// A bracket, in which a `;` ends nothing.
const LEFT_BRACKET: [&str; 1] = ["("];

/// The bracket that closes it.
const RIGHT_BRACKET: [&str; 1] = [")"];

/// What ends what holds items, where it has no block.
const SEMICOLON: [&str; 1] = [";"];

/// Whether a text is one of some words.
fn is_among(words: &[&str], text: &str) -> bool
    ensures { result ≡ list_any (bytes_eq text.now) (map (λ word. word.now) words.now) }
{
    for word in words {
        if text == *word {
            return true;
        }
    }
    false
}

/// Whether the word that begins an item stands first.
fn is_start(tokens: &[Token]) -> bool
    ensures { result ≡ is_start tokens.now }
{
    match tokens {
        [] => false,
        [first, ..] => is_among(&STARTS, first.text),
    }
}

/// Whether it stands after a colon.
fn is_labelled(tokens: &[Token]) -> bool
    ensures { result ≡ is_labelled tokens.now }
{
    match tokens {
        [] => false,
        [first, rest @ ..] => is_among(&COLON, first.text) && is_start(rest),
    }
}

/// Whether an item begins there, with its label or with its word.
fn begins(tokens: &[Token]) -> bool
    ensures { result ≡ begins tokens.now }
{
    match tokens {
        [] => false,
        [first, rest @ ..] => is_among(&STARTS, first.text) || is_labelled(rest),
    }
}

/// Whether an item ends after a token: it is one of some words, or another item begins after it,
/// and no token joins them.
fn ends_after(words: &[&str], token: &Token, rest: &[Token]) -> bool
    ensures { result ≡ ends_after (map (λ word. word.now) words.now) token.now rest.now }
{
    is_among(words, token.text) || begins(rest) && !is_among(&JOINTS, token.text)
}

/// How many tokens there are up to the first after which an item ends, which counts.
fn through(words: &[&str], tokens: &[Token]) -> usize
    ensures count { result ≡ through (map (λ word. word.now) words.now) tokens.now }
    ensures high { result ≤ length tokens.now }
    ensures low { 0 < length tokens.now → 0 < result }
{
    for (place, token) in tokens.iter().enumerate() {
        if ends_after(words, token, &tokens[place + 1..]) {
            return place + 1;
        }
    }
    tokens.len()
}

/// How many tokens a name after a colon has, if one stands first.
fn closing_name(tokens: &[Token]) -> usize
    ensures count { result ≡ closing_name tokens.now }
    ensures high { result ≤ length tokens.now }
{
    let [first, rest @ ..] = tokens else {
        return 0;
    };
    if !is_among(&COLON, first.text) {
        return 0;
    }
    rest.len().min(1) + 1
}

/// How many tokens a named sequence or a property declaration has.
fn block_length(tokens: &[Token]) -> usize
    ensures count { result ≡ block_length tokens.now }
    ensures high { result ≤ length tokens.now }
    ensures low { 0 < length tokens.now → 0 < result }
{
    let closed = through(&CLOSERS, tokens);
    closed + closing_name(&tokens[closed..])
}

/// Whether a token opens a block.
#[tactic(auto, unfolding(crate::specs::Items::block_starts))]
fn opens_block(token: &Token) -> bool
    ensures { result ≡ is_one block_starts token.now }
{
    is_among(&BLOCK_STARTS, token.text)
}

/// Whether a token closes one.
#[tactic(auto, unfolding(crate::specs::Items::block_ends))]
fn closes_block(token: &Token) -> bool
    ensures { result ≡ is_one block_ends token.now }
{
    is_among(&BLOCK_ENDS, token.text)
}

/// Whether a token opens a block or a bracket.
fn opens(token: &Token) -> bool
    ensures { result ≡ opens token.now }
{
    opens_block(token) || is_among(&LEFT_BRACKET, token.text)
}

/// Whether a token closes one.
fn closes(token: &Token) -> bool
    ensures { result ≡ closes token.now }
{
    closes_block(token) || is_among(&RIGHT_BRACKET, token.text)
}

/// How many blocks and brackets are open after a token.
fn open_after(blocks: usize, token: &Token) -> usize
    requires { blocks < 2 ^ 63 }
    ensures { result ≡ open_after blocks token.now }
{
    if opens(token) {
        return blocks + 1;
    }
    if closes(token) {
        return blocks.saturating_sub(1);
    }
    blocks
}

/// Whether what holds items ends with a token: all its blocks are closed.
fn is_held_end(blocks: usize, token: &Token) -> bool
    ensures { result ≡ is_held_end blocks token.now }
{
    blocks == 0 && (is_among(&SEMICOLON, token.text) || closes_block(token))
}

/// How many tokens an item has that holds others: up to `;`, or to where its blocks are closed.
fn held_length(tokens: &[Token]) -> usize
    ensures count { result ≡ held_from 0 tokens.now }
    ensures high { result ≤ length tokens.now }
    ensures low { 0 < length tokens.now → 0 < result }
{
    let mut blocks = 0;
    for (place, token) in tokens.iter().enumerate() {
        blocks = open_after(blocks, token);
        if is_held_end(blocks, token) {
            return place + 1;
        }
    }
    tokens.len()
}

/// Whether an item that begins with a token holds others.
#[tactic(auto, unfolding(crate::specs::Items::holders))]
fn holds_items(token: &Token) -> bool
    ensures { result ≡ is_one holders token.now }
{
    is_among(&HOLDERS, token.text)
}

/// How many tokens the first item has, where no declaration begins it.
fn free_length(tokens: &[Token]) -> usize
    ensures count { result ≡ free_length tokens.now }
    ensures high { result ≤ length tokens.now }
    ensures low { 0 < length tokens.now → 0 < result }
{
    let [first, ..] = tokens else {
        return 0;
    };
    if holds_items(first) {
        return held_length(tokens);
    }
    through(&ENDS, tokens)
}

/// How many tokens the first item has.
fn item_length(tokens: &[Token]) -> usize
    ensures count { result ≡ item_length tokens.now }
    ensures high { result ≤ length tokens.now }
    ensures low { 0 < length tokens.now → 0 < result }
{
    let [first, ..] = tokens else {
        return 0;
    };
    if is_among(&OPENERS, first.text) {
        return block_length(tokens);
    }
    free_length(tokens)
}

/// The byte after a token, which is no more than the text has.
fn end_of(size: usize, token: Token) -> usize
    ensures { result ≡ end_of size token.entry }
{
    token.at.saturating_add(token.text.len()).min(size)
}

/// The byte after the first item.
fn item_end(size: usize, tokens: &[Token]) -> usize
    ensures { result ≡ item_end size tokens.now }
{
    match tokens.get(item_length(tokens).saturating_sub(1)) {
        Some(last) => end_of(size, *last),
        None => size,
    }
}

/// Whether no item begins there.
fn is_over(tokens: &[Token]) -> bool
    ensures { result ≡ is_over tokens.now }
{
    match tokens {
        [] => true,
        [first, ..] => matches!(first.kind, Kind::End),
    }
}

/// The bytes after the items of tokens.
pub(crate) fn ends_in(
    alloc: Global,
    size: usize,
    tokens: &[Token],
) -> Result<Vec<usize>, AllocError>
    ensures { IfOk result (λ ends. AreEnds size tokens.now ends.items) }
{
    let mut ends = Vec::new(alloc);
    let mut at = 0;
    'items: while !is_over(&tokens[at..]) {
        ends.push(item_end(size, &tokens[at..]))?;
        at += item_length(&tokens[at..]);
    }
    Ok(ends)
}

/// The bytes after the items of a text, in its order: an item ends with `;`, or with the word that
/// ends what its first word opens, or before another one begins. What stands under a condition or
/// in a procedure (`if`, `for`, `always`, `generate` ..) is part of the item that begins so, up to
/// `;` or to the end of its blocks. After the last item only what is no token stands.
///
/// What no token begins with is passed over; a line of a macro that stands between items is one.
pub fn item_ends(alloc: Global, text: &str) -> Result<Vec<usize>, AllocError>
    ensures { IsOk (tokens_of text.now)
        → IfOk result (λ ends. AreItemEnds text.now ends.items) }
{
    match lex(alloc, text) {
        Ok(tokens) => ends_in(alloc, text.len(), tokens.as_slice()),
        Err(LexFault::Memory) => Err(AllocError),
        Err(_) => ends_beside(alloc, text),
    }
}

/// The item that holds a byte: the first that ends after it; the number of all items where none
/// does.
pub fn item_at(ends: &[usize], at: usize) -> usize
    ensures { result ≡ item_at ends.now at }
{
    ends.iter().take_while(|end| **end <= at).count()
}
