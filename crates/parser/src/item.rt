//! Counters, named sequences and assertions.

ghost use Rattle.std.specs.Prelude.{◌≡◌, ◌<◌, ◌≤◌, ◌+◌, ◌&&◌, ℕ, length, IfOk, option_map, Option};
ghost use Rattle.std.specs.Str.{bytes_eq};
ghost use Rattle.lexer.specs.declared.token.Token.{Token};
ghost use Rattle.parser_grammar.specs.declared.terminal.Terminal.TheVariants.{Clear, Colon};
ghost use Rattle.parser_grammar.specs.declared.terminal.Terminal.TheVariants.{Disable};
ghost use Rattle.parser_grammar.specs.Readers.{pick, optional};
ghost use Rattle.parser_grammar.specs.Trees as trees;
ghost use Rattle.parser_grammar.specs.Files.{in_one};
ghost use Rattle.parser_grammar.specs.ReadFiles.{one_operand, two_operands, counter_head};
ghost use Rattle.parser_grammar.specs.ReadFiles.{counter_item};
ghost use Rattle.parser_grammar.specs.ReadFiles.{again_of, skip, ending_of, declaration_item};
ghost use Rattle.parser_grammar.specs.ReadFiles.{opening_words, clock_words, disable_reader};
ghost use Rattle.parser_grammar.specs.ReadFiles.{property_end};
ghost use Rattle.parser_grammar.specs.ReadFiles.{assertion_item, label_reader, declaration_reader};
ghost use Rattle.parser_grammar.specs.ReadFiles.{item};
ghost use Rattle.parser_grammar.specs.Views.{path_of, boxed_of};
ghost use Rattle.parser.specs.Views.{Gives};
ghost use Rattle.parser_grammar.specs.Views.{pair_of, property_of, counter_of, declaration_of};
ghost use Rattle.parser_grammar.specs.Views.{assertion_of, item_of};

use crate::expression::{read_expression, read_path};
use crate::property::read_property;
use crate::read::{
    Read, accept, accept_name, expect, expect_bound, expect_name, expect_verb, first, read, same,
};
use crate::sequence::read_sequence;
use crate::stop::Stop;
use lexer::Token;
use parser_grammar::{
    AssertionTree, Bound, CounterTree, DeclarationTree, ExprTree, ItemTree, Operands, Path,
    PropertyTree, Terminal, is_word,
};
use std::alloc::Global;

/// How many brackets and unfinished operators may be open at once.
const MOST_OPEN: usize = 64;

/// How many more may open after one bracket.
const IN_ONE: usize = 63;

/// How many more may open after two brackets.
const IN_TWO: usize = 62;

/// `( operand )`, after a word.
fn read_operand<'t, 'a>(
    alloc: Global,
    tokens: &'t [Token<'a>],
    depth: usize,
) -> Read<'t, 'a, Box<ExprTree<'a>>>
    ensures read { Gives (λ r. (boxed_of r.0, r.1.now)) result (one_operand depth tokens.now) }
    ensures shorter { IfOk result (λ r. length r.1.now ≤ length tokens.now) }
{
    let (_, rest) = read!(expect(tokens, Terminal::OpenRound));
    let (operand, rest) = read!(read_expression(alloc, rest, depth));
    let (_, rest) = read!(expect(rest, Terminal::CloseRound));
    Ok((operand, rest))
}

/// `( condition , value )`, after a word.
fn read_operands<'t, 'a>(alloc: Global, tokens: &'t [Token<'a>]) -> Read<'t, 'a, Operands<'a>>
    ensures read { Gives (λ r. (pair_of r.0, r.1.now)) result (two_operands tokens.now) }
    ensures shorter { IfOk result (λ r. length r.1.now ≤ length tokens.now) }
{
    let (_, rest) = read!(expect(tokens, Terminal::OpenRound));
    let (condition, rest) = read!(read_expression(alloc, rest, IN_ONE));
    let (_, rest) = read!(expect(rest, Terminal::Comma));
    let (value, rest) = read!(read_expression(alloc, rest, IN_ONE));
    let (_, rest) = read!(expect(rest, Terminal::CloseRound));
    Ok(((condition, value), rest))
}

/// A counter's `clear`, if it has one.
#[tactic(auto, using(crate::proofs::FileSteps::for_optional))]
fn read_clear<'t, 'a>(
    alloc: Global,
    tokens: &'t [Token<'a>],
) -> Read<'t, 'a, Option<Box<ExprTree<'a>>>>
    ensures read { Gives (λ r. (option_map boxed_of r.0, r.1.now)) result
        (optional Clear (one_operand in_one) tokens.now) }
    ensures shorter { IfOk result (λ r. length r.1.now ≤ length tokens.now) }
{
    let Some((_, inside)) = accept(tokens, Terminal::Clear) else {
        return Ok((None, tokens));
    };
    let (operand, rest) = read!(read_operand(alloc, inside, IN_ONE));
    Ok((Some(operand), rest))
}

/// A clause of a counter with two operands, if it has it.
#[tactic(auto, using(crate::proofs::FileSteps::for_optional))]
fn read_clause<'t, 'a>(
    alloc: Global,
    tokens: &'t [Token<'a>],
    word: Terminal,
) -> Read<'t, 'a, Option<Operands<'a>>>
    ensures read { Gives (λ r. (option_map pair_of r.0, r.1.now)) result
        (optional word two_operands tokens.now) }
    ensures shorter { IfOk result (λ r. length r.1.now ≤ length tokens.now) }
{
    let Some((_, inside)) = accept(tokens, word) else {
        return Ok((None, tokens));
    };
    let (operands, rest) = read!(read_operands(alloc, inside));
    Ok((Some(operands), rest))
}

/// A counter's name and width.
fn read_counter_head<'t, 'a>(tokens: &'t [Token<'a>]) -> Read<'t, 'a, (Token<'a>, Bound)>
    ensures read { Gives (λ r. (r.0, r.1.now)) result (counter_head tokens.now) }
    ensures shorter { IfOk result (λ r. length r.1.now ≤ length tokens.now) }
{
    let (name, rest) = read!(expect_name(tokens));
    let (_, rest) = read!(expect(rest, Terminal::OpenSquare));
    let (width, rest) = read!(expect_bound(rest, 1, 128));
    let (_, rest) = read!(expect(rest, Terminal::CloseSquare));
    Ok(((name, width), rest))
}

/// A counter, after its word.
fn read_counter<'t, 'a>(alloc: Global, tokens: &'t [Token<'a>]) -> Read<'t, 'a, ItemTree<'a>>
    ensures read { Gives (λ r. (item_of r.0, r.1.now)) result (counter_item tokens.now) }
    ensures shorter { IfOk result (λ r. length r.1.now ≤ length tokens.now) }
{
    let ((name, width), rest) = read!(read_counter_head(tokens));
    let (clear, rest) = read!(read_clear(alloc, rest));
    let (load, rest) = read!(read_clause(alloc, rest, Terminal::Load));
    let (add, rest) = read!(read_clause(alloc, rest, Terminal::Add));
    let (sub, rest) = read!(read_clause(alloc, rest, Terminal::Sub));
    let (_, rest) = read!(expect(rest, Terminal::Semicolon));
    let counter = CounterTree {
        name,
        width,
        clear,
        load,
        add,
        sub,
    };
    Ok((ItemTree::Counter(counter), rest))
}

/// The name once more.
#[tactic(auto, using(crate::proofs::ItemSteps::for_again))]
fn expect_again<'t, 'a>(tokens: &'t [Token<'a>], name: Token<'a>) -> Read<'t, 'a, Token<'a>>
    ensures read { Gives (λ r. (r.0, r.1.now)) result (pick (again_of name.entry) tokens.now) }
    ensures shorter { IfOk result (λ r. length r.1.now ≤ length tokens.now) }
{
    let Some((token, rest)) = first(tokens) else {
        return Err(Stop::Expected("the sequence's name", 0));
    };
    if !is_word(token) {
        return Err(Stop::Expected("the sequence's name", token.at));
    }
    if token.text == name.text {
        return Ok((token, rest));
    }
    Err(Stop::Expected("the sequence's name", token.at))
}

/// The name after a sequence's end, if it is there.
#[tactic(auto, using(crate::proofs::FileSteps::for_optional))]
fn read_closing<'t, 'a>(tokens: &'t [Token<'a>], name: Token<'a>) -> Read<'t, 'a, Option<Token<'a>>>
    ensures read { Gives (λ r. (r.0, r.1.now)) result
        (optional Colon (pick (again_of name.entry)) tokens.now) }
    ensures shorter { IfOk result (λ r. length r.1.now ≤ length tokens.now) }
{
    let Some((_, inside)) = accept(tokens, Terminal::Colon) else {
        return Ok((None, tokens));
    };
    let (again, rest) = read!(expect_again(inside, name));
    Ok((Some(again), rest))
}

/// What stands after the terminal, or from here on.
#[tactic(auto, using(crate::proofs::ItemSteps::for_skip))]
fn skip<'t, 'a>(tokens: &'t [Token<'a>], wanted: Terminal) -> &'t [Token<'a>]
    ensures rest { result.now ≡ skip wanted tokens.now }
    ensures shorter { length result.now ≤ length tokens.now }
{
    match accept(tokens, wanted) {
        Some((_, rest)) => same(rest),
        None => same(tokens),
    }
}

/// The end of a named sequence.
#[tactic(auto, using(crate::proofs::ItemSteps::for_ending))]
fn read_ending<'t, 'a>(tokens: &'t [Token<'a>], name: Token<'a>) -> Result<&'t [Token<'a>], Stop>
    ensures read { Gives (λ r. r.now) result (ending_of name.entry tokens.now) }
    ensures shorter { IfOk result (λ r. length r.now ≤ length tokens.now) }
{
    let rest = skip(tokens, Terminal::Semicolon);
    let (_, rest) = read!(expect(rest, Terminal::EndSequence));
    let (_, rest) = read!(read_closing(rest, name));
    Ok(rest)
}

/// A named sequence, after its word.
fn read_declaration<'t, 'a>(alloc: Global, tokens: &'t [Token<'a>]) -> Read<'t, 'a, ItemTree<'a>>
    ensures read { Gives (λ r. (item_of r.0, r.1.now)) result (declaration_item tokens.now) }
    ensures shorter { IfOk result (λ r. length r.1.now ≤ length tokens.now) }
{
    let (name, rest) = read!(expect_name(tokens));
    let (_, rest) = read!(expect(rest, Terminal::Semicolon));
    let (body, rest) = read!(read_sequence(alloc, rest, MOST_OPEN));
    let rest = read!(read_ending(rest, name));
    Ok((ItemTree::Declaration(DeclarationTree { name, body }), rest))
}

/// `property (`
fn read_opening<'t, 'a>(tokens: &'t [Token<'a>]) -> Result<&'t [Token<'a>], Stop>
    ensures read { Gives (λ r. r.now) result (opening_words tokens.now) }
    ensures shorter { IfOk result (λ r. length r.now ≤ length tokens.now) }
{
    let (_, rest) = read!(expect(tokens, Terminal::Property));
    let (_, rest) = read!(expect(rest, Terminal::OpenRound));
    Ok(rest)
}

/// `@(posedge path)`
fn read_clock<'t, 'a>(alloc: Global, tokens: &'t [Token<'a>]) -> Read<'t, 'a, Path<'a>>
    ensures read { Gives (λ r. (path_of r.0, r.1.now)) result (clock_words tokens.now) }
    ensures shorter { IfOk result (λ r. length r.1.now ≤ length tokens.now) }
{
    let (_, rest) = read!(expect(tokens, Terminal::AtSign));
    let (_, rest) = read!(expect(rest, Terminal::OpenRound));
    let (_, rest) = read!(expect(rest, Terminal::Posedge));
    let (clock, rest) = read!(read_path(alloc, rest));
    let (_, rest) = read!(expect(rest, Terminal::CloseRound));
    Ok((clock, rest))
}

/// `disable iff (operand)`, after its first word.
#[tactic(auto, using(crate::proofs::ItemSteps::for_disabling))]
fn read_disabling<'t, 'a>(alloc: Global, tokens: &'t [Token<'a>]) -> Read<'t, 'a, Box<ExprTree<'a>>>
    ensures read { Gives (λ r. (boxed_of r.0, r.1.now)) result (disable_reader tokens.now) }
    ensures shorter { IfOk result (λ r. length r.1.now ≤ length tokens.now) }
{
    let (_, rest) = read!(expect(tokens, Terminal::Iff));
    read_operand(alloc, rest, IN_TWO)
}

/// `disable iff (operand)`, if it is there.
#[tactic(auto, using(crate::proofs::FileSteps::for_optional))]
fn read_disable<'t, 'a>(
    alloc: Global,
    tokens: &'t [Token<'a>],
) -> Read<'t, 'a, Option<Box<ExprTree<'a>>>>
    ensures read { Gives (λ r. (option_map boxed_of r.0, r.1.now)) result
        (optional Disable disable_reader tokens.now) }
    ensures shorter { IfOk result (λ r. length r.1.now ≤ length tokens.now) }
{
    let Some((_, inside)) = accept(tokens, Terminal::Disable) else {
        return Ok((None, tokens));
    };
    let (operand, rest) = read!(read_disabling(alloc, inside));
    Ok((Some(operand), rest))
}

/// A property and the end of its assertion.
fn read_property_end<'t, 'a>(
    alloc: Global,
    tokens: &'t [Token<'a>],
) -> Read<'t, 'a, PropertyTree<'a>>
    ensures read { Gives (λ r. (property_of r.0, r.1.now)) result (property_end tokens.now) }
    ensures shorter { IfOk result (λ r. length r.1.now ≤ length tokens.now) }
{
    let (property, rest) = read!(read_property(alloc, tokens, IN_ONE));
    let (_, rest) = read!(expect(rest, Terminal::CloseRound));
    let (_, rest) = read!(expect(rest, Terminal::Semicolon));
    Ok((property, rest))
}

/// An assertion from its verb on.
fn read_assertion<'t, 'a>(
    alloc: Global,
    tokens: &'t [Token<'a>],
    label: Option<Token<'a>>,
) -> Read<'t, 'a, ItemTree<'a>>
    ensures read { Gives (λ r. (item_of r.0, r.1.now)) result
        (assertion_item label.entry tokens.now) }
    ensures shorter { IfOk result (λ r. length r.1.now < length tokens.now) }
{
    let (verb, rest) = read!(expect_verb(tokens));
    let rest = read!(read_opening(rest));
    let (clock, rest) = read!(read_clock(alloc, rest));
    let (disable, rest) = read!(read_disable(alloc, rest));
    let (property, rest) = read!(read_property_end(alloc, rest));
    let assertion = AssertionTree {
        label,
        verb,
        clock,
        disable,
        property,
    };
    Ok((ItemTree::Assertion(assertion), rest))
}

/// An assertion with its label.
#[tactic(auto, using(crate::proofs::ItemSteps::for_labelled))]
fn read_labelled<'t, 'a>(alloc: Global, tokens: &'t [Token<'a>]) -> Read<'t, 'a, ItemTree<'a>>
    ensures read { Gives (λ r. (item_of r.0, r.1.now)) result (label_reader tokens.now) }
    ensures shorter { IfOk result (λ r. length r.1.now < length tokens.now) }
{
    let Some((label, rest)) = accept_name(tokens) else {
        return read_assertion(alloc, tokens, None);
    };
    let (_, rest) = read!(expect(rest, Terminal::Colon));
    read_assertion(alloc, rest, Some(label))
}

/// A named sequence or an assertion.
#[tactic(auto, using(crate::proofs::ItemSteps::for_declared))]
fn read_declared<'t, 'a>(alloc: Global, tokens: &'t [Token<'a>]) -> Read<'t, 'a, ItemTree<'a>>
    ensures read { Gives (λ r. (item_of r.0, r.1.now)) result (declaration_reader tokens.now) }
    ensures shorter { IfOk result (λ r. length r.1.now < length tokens.now) }
{
    match accept(tokens, Terminal::Sequence) {
        Some((_, rest)) => read_declaration(alloc, rest),
        None => read_labelled(alloc, tokens),
    }
}

/// An item.
#[tactic(auto, using(crate::proofs::ItemSteps::for_item))]
pub(crate) fn read_item<'t, 'a>(
    alloc: Global,
    tokens: &'t [Token<'a>],
) -> Read<'t, 'a, ItemTree<'a>>
    ensures read { Gives (λ r. (item_of r.0, r.1.now)) result (item tokens.now) }
    ensures shorter { IfOk result (λ r. length r.1.now < length tokens.now) }
{
    let Some((_, rest)) = accept(tokens, Terminal::Counter) else {
        return read_declared(alloc, tokens);
    };
    match accept(rest, Terminal::Colon) {
        Some((_, _)) => read_declared(alloc, tokens),
        None => read_counter(alloc, rest),
    }
}
