//! Expressions.

ghost use Rattle.std.specs.Prelude.{◌≡◌, ◌<◌, ◌≤◌, ◌+◌, ◌==◌, ℕ, suc, length, map, IfOk};
ghost use Rattle.std.specs.Prelude.{option_map};
ghost use Rattle.lexer.specs.declared.token.Token.{Token};
ghost use Rattle.parser_grammar.specs.Terminals.{is};
ghost use Rattle.parser_grammar.specs.declared.terminal.Terminal.TheVariants.{Comma, OpenSquare};
ghost use Rattle.parser_grammar.specs.declared.terminal.Terminal.TheVariants.{Colon};
ghost use Rattle.parser_grammar.specs.Bounds.{bound_within, index};
ghost use Rattle.parser_grammar.specs.Readers.{pick, optional, each};
ghost use Rattle.parser_grammar.specs.ReadExpressions.{members, select, readers, path_words};
ghost use Rattle.parser_grammar.specs.ReadExpressions.{name_reader};
ghost use Rattle.parser_grammar.specs.ReadExpressions.{bracket_reader, concatenation_reader};
ghost use Rattle.parser_grammar.specs.ReadExpressions.{past_reader};
ghost use Rattle.parser_grammar.specs.ReadExpressions.{call_reader, prefix_reader, unary_reader};
ghost use Rattle.parser_grammar.specs.ReadExpressions.{links};
ghost use Rattle.parser_grammar.specs.ReadExpressions.{climb, operand, prefixed_with, finish};
ghost use Rattle.parser_grammar.specs.ReadExpressions.{expression};
ghost use Rattle.parser_grammar.specs.Views.{path_of, tree_of, link_of};
ghost use Rattle.parser.specs.Views.{Gives};

use crate::node::{
    call, choice, concatenation, number, past, path, push_link, push_part, unary, with_links,
};
use crate::read::{
    Read, accept, deeper, expect, expect_bound, expect_index, expect_name, expect_word, first,
    left_operator, operator, read, same,
};
use crate::stop::Stop;
use lexer::Token;
use parser_grammar::{
    Bound, CHOICE, ExprTree, Function, Index, Infix, Mark, Path, Prefix, Select, Terminal, mark_of,
};
use std::alloc::Global;

/// The words of a path after its first.
fn read_members<'t, 'a>(alloc: Global, tokens: &'t [Token<'a>]) -> Read<'t, 'a, Vec<Token<'a>>>
    ensures read { Gives (λ r. (r.0.items, r.1.now)) result (members tokens.now) }
    ensures shorter { IfOk result (λ r. length r.1.now ≤ length tokens.now) }
{
    let mut found = Vec::new(alloc);
    let mut left = tokens;
    'members: loop {
        let Some((_, rest)) = accept(left, Terminal::Dot) else {
            return Ok((found, left));
        };
        let (word, rest) = read!(expect_word(rest));
        found.push(word)?;
        left = same(rest);
    }
}

/// The words of a path.
#[tactic(auto, using(crate::proofs::NameSteps::for_path))]
pub fn read_path<'t, 'a>(alloc: Global, tokens: &'t [Token<'a>]) -> Read<'t, 'a, Path<'a>>
    ensures read { Gives (λ r. (path_of r.0, r.1.now)) result (path_words tokens.now) }
    ensures shorter { IfOk result (λ r. length r.1.now ≤ length tokens.now) }
{
    let (first, rest) = read!(expect_name(tokens));
    let (more, rest) = read!(read_members(alloc, rest));
    Ok((Path { first, more }, rest))
}

/// The lower bit of a select, if one is written.
#[tactic(auto, using(crate::proofs::Steps::for_optional))]
fn read_low<'t, 'a>(tokens: &'t [Token<'a>]) -> Read<'t, 'a, Option<Index>>
    ensures read { Gives (λ r. (r.0, r.1.now)) result (optional Colon (pick index) tokens.now) }
    ensures shorter { IfOk result (λ r. length r.1.now ≤ length tokens.now) }
{
    let Some((_, rest)) = accept(tokens, Terminal::Colon) else {
        return Ok((None, tokens));
    };
    let (low, rest) = read!(expect_index(rest));
    Ok((Some(low), rest))
}

/// A select after its bracket.
fn read_select<'t, 'a>(tokens: &'t [Token<'a>]) -> Read<'t, 'a, Select>
    ensures read { Gives (λ r. (r.0, r.1.now)) result (select tokens.now) }
    ensures shorter { IfOk result (λ r. length r.1.now ≤ length tokens.now) }
{
    let (high, rest) = read!(expect_index(tokens));
    let (low, rest) = read!(read_low(rest));
    let (_, rest) = read!(expect(rest, Terminal::CloseSquare));
    Ok((Select { high, low }, rest))
}

/// A select, if one is written.
#[tactic(auto, using(crate::proofs::Steps::for_selected))]
fn read_selected<'t, 'a>(tokens: &'t [Token<'a>], depth: usize) -> Read<'t, 'a, Option<Select>>
    ensures read { Gives (λ r. (r.0, r.1.now)) result
        (optional OpenSquare (readers depth).select tokens.now) }
    ensures shorter { IfOk result (λ r. length r.1.now ≤ length tokens.now) }
{
    let Some((bracket, rest)) = accept(tokens, Terminal::OpenSquare) else {
        return Ok((None, tokens));
    };
    if depth == 0 {
        return Err(Stop::TooDeep(bracket.at));
    }
    let (select, rest) = read!(read_select(rest));
    Ok((Some(select), rest))
}

/// A path after its first word, and its select.
fn read_named<'t, 'a>(
    alloc: Global,
    first: Token<'a>,
    tokens: &'t [Token<'a>],
    depth: usize,
) -> Read<'t, 'a, Box<ExprTree<'a>>>
    ensures read { Gives (λ r. (tree_of r.0.value, r.1.now)) result
        (name_reader (readers depth) first.entry tokens.now) }
    ensures shorter { IfOk result (λ r. length r.1.now ≤ length tokens.now) }
{
    let (more, rest) = read!(read_members(alloc, tokens));
    let (select, rest) = read!(read_selected(rest, depth));
    path(alloc, first, more, select, rest)
}

/// What stands in brackets, after the opening one.
#[cycle(expressions)]
fn read_bracketed<'t, 'a>(
    alloc: Global,
    bracket: Token<'a>,
    tokens: &'t [Token<'a>],
    depth: usize,
) -> Read<'t, 'a, Box<ExprTree<'a>>>
    ensures read { Gives (λ r. (tree_of r.0.value, r.1.now)) result
        (bracket_reader (readers depth) tokens.now) }
    ensures shorter { IfOk result (λ r. length r.1.now ≤ length tokens.now) }
{
    let inner = read!(deeper(depth, bracket));
    let (expr, rest) = read!(read_expression(alloc, tokens, inner));
    let (_, rest) = read!(expect(rest, Terminal::CloseRound));
    Ok((expr, rest))
}

/// The parts of a concatenation after the first.
#[cycle(expressions)]
fn read_parts<'t, 'a>(
    alloc: Global,
    tokens: &'t [Token<'a>],
    depth: usize,
) -> Read<'t, 'a, Vec<ExprTree<'a>>>
    ensures read { Gives (λ r. (map tree_of r.0.items, r.1.now)) result
        (each (is Comma) (λ comma. expression depth) tokens.now) }
    ensures shorter { IfOk result (λ r. length r.1.now ≤ length tokens.now) }
{
    let mut found = Vec::new(alloc);
    let mut left = tokens;
    'parts: loop {
        let Some((_, rest)) = accept(left, Terminal::Comma) else {
            return Ok((found, left));
        };
        let (part, rest) = read!(read_expression(alloc, rest, depth));
        read!(push_part(&mut found, part));
        left = same(rest);
    }
}

/// A concatenation after its bracket.
#[cycle(expressions)]
fn read_concatenation<'t, 'a>(
    alloc: Global,
    bracket: Token<'a>,
    tokens: &'t [Token<'a>],
    depth: usize,
) -> Read<'t, 'a, Box<ExprTree<'a>>>
    ensures read { Gives (λ r. (tree_of r.0.value, r.1.now)) result
        (concatenation_reader (readers depth) bracket.entry tokens.now) }
    ensures shorter { IfOk result (λ r. length r.1.now ≤ length tokens.now) }
{
    let inner = read!(deeper(depth, bracket));
    let (part, rest) = read!(read_expression(alloc, tokens, inner));
    let (more, rest) = read!(read_parts(alloc, rest, inner));
    let (_, rest) = read!(expect(rest, Terminal::CloseBrace));
    concatenation(alloc, bracket, part, more, rest)
}

/// The ticks of `$past`, if they are written.
#[tactic(auto, using(crate::proofs::Steps::for_optional))]
fn read_ticks<'t, 'a>(tokens: &'t [Token<'a>]) -> Read<'t, 'a, Option<Bound>>
    ensures read { Gives (λ r. (r.0, r.1.now)) result
        (optional Comma (pick (bound_within 1 64)) tokens.now) }
    ensures shorter { IfOk result (λ r. length r.1.now ≤ length tokens.now) }
{
    let Some((_, rest)) = accept(tokens, Terminal::Comma) else {
        return Ok((None, tokens));
    };
    let (ticks, rest) = read!(expect_bound(rest, 1, 64));
    Ok((Some(ticks), rest))
}

/// `$past` after its name.
#[cycle(expressions)]
fn read_past<'t, 'a>(
    alloc: Global,
    name: Token<'a>,
    tokens: &'t [Token<'a>],
    depth: usize,
) -> Read<'t, 'a, Box<ExprTree<'a>>>
    ensures read { Gives (λ r. (tree_of r.0.value, r.1.now)) result
        (past_reader (readers depth) name.entry tokens.now) }
    ensures shorter { IfOk result (λ r. length r.1.now ≤ length tokens.now) }
{
    let (bracket, rest) = read!(expect(tokens, Terminal::OpenRound));
    let inner = read!(deeper(depth, bracket));
    let (expr, rest) = read!(read_expression(alloc, rest, inner));
    let (ticks, rest) = read!(read_ticks(rest));
    let (_, rest) = read!(expect(rest, Terminal::CloseRound));
    past(alloc, name, expr, ticks, rest)
}

/// A function of one operand after its name.
#[cycle(expressions)]
fn read_call<'t, 'a>(
    alloc: Global,
    function: Function,
    name: Token<'a>,
    tokens: &'t [Token<'a>],
    depth: usize,
) -> Read<'t, 'a, Box<ExprTree<'a>>>
    ensures read { Gives (λ r. (tree_of r.0.value, r.1.now)) result
        (call_reader (readers depth) function name.entry tokens.now) }
    ensures shorter { IfOk result (λ r. length r.1.now ≤ length tokens.now) }
{
    let (bracket, rest) = read!(expect(tokens, Terminal::OpenRound));
    let (operand, rest) = read!(read_bracketed(alloc, bracket, rest, depth));
    call(alloc, function, name, operand, rest)
}

/// The operand of a unary operator.
#[cycle(expressions)]
fn read_unary<'t, 'a>(
    alloc: Global,
    sign: Prefix,
    token: Token<'a>,
    tokens: &'t [Token<'a>],
    depth: usize,
) -> Read<'t, 'a, Box<ExprTree<'a>>>
    ensures read { Gives (λ r. (tree_of r.0.value, r.1.now)) result
        (prefix_reader (readers depth) sign token.entry tokens.now) }
    ensures shorter { IfOk result (λ r. length r.1.now ≤ length tokens.now) }
{
    let inner = read!(deeper(depth, token));
    let (operand, rest) = read!(read_prefixed(alloc, tokens, inner));
    unary(alloc, sign, token, operand, rest)
}

/// What stands at the left of a left operator: a primary, or a unary operator with its operand.
#[cycle(expressions)]
fn read_prefixed<'t, 'a>(
    alloc: Global,
    tokens: &'t [Token<'a>],
    depth: usize,
) -> Read<'t, 'a, Box<ExprTree<'a>>>
    ensures read { Gives (λ r. (tree_of r.0.value, r.1.now)) result
        (unary_reader depth tokens.now) }
    ensures shorter { IfOk result (λ r. length r.1.now ≤ length tokens.now) }
{
    let Some((token, rest)) = first(tokens) else {
        return Err(Stop::Expected("an expression", 0));
    };
    match mark_of(token) {
        Mark::Number(value) => number(alloc, value, token, rest),
        Mark::Name => read_named(alloc, token, rest, depth),
        Mark::Prefix(sign) => read_unary(alloc, sign, token, rest, depth),
        Mark::Opening => read_bracketed(alloc, token, rest, depth),
        Mark::Brace => read_concatenation(alloc, token, rest, depth),
        Mark::Past => read_past(alloc, token, rest, depth),
        Mark::Call(function) => read_call(alloc, function, token, rest, depth),
        Mark::Other => Err(Stop::Expected("an expression", token.at)),
    }
}

/// The operators of a level that follow, with their operands.
#[cycle(expressions)]
fn read_links<'t, 'a>(
    alloc: Global,
    tokens: &'t [Token<'a>],
    depth: usize,
    level: usize,
) -> Read<'t, 'a, Vec<(Infix, ExprTree<'a>)>>
    requires level { level < 9 }
    ensures read { Gives (λ r. (map link_of r.0.items, r.1.now)) result
        (links (operand depth level) level tokens.now) }
    ensures shorter { IfOk result (λ r. length r.1.now ≤ length tokens.now) }
{
    let mut found = Vec::new(alloc);
    let mut left = tokens;
    'links: loop {
        let Some((sign, rest)) = left_operator(left, level + 1) else {
            return Ok((found, left));
        };
        let (right, rest) = read!(read_operand(alloc, rest, depth, level));
        read!(push_link(&mut found, sign, right));
        left = same(rest);
    }
}

/// An operand of a left operator that is looser than the level.
#[cycle(expressions)]
fn read_operand<'t, 'a>(
    alloc: Global,
    tokens: &'t [Token<'a>],
    depth: usize,
    level: usize,
) -> Read<'t, 'a, Box<ExprTree<'a>>>
    requires { level < 10 }
    ensures read { Gives (λ r. (tree_of r.0.value, r.1.now)) result
        (operand depth level tokens.now) }
    ensures shorter { IfOk result (λ r. length r.1.now ≤ length tokens.now) }
{
    let (left, rest) = read!(read_prefixed(alloc, tokens, depth));
    read_climb(alloc, rest, left, depth, level)
}

/// What the operators of the tightest levels make of a first operand.
#[cycle(expressions)]
fn read_climb<'t, 'a>(
    alloc: Global,
    tokens: &'t [Token<'a>],
    left: Box<ExprTree<'a>>,
    depth: usize,
    level: usize,
) -> Read<'t, 'a, Box<ExprTree<'a>>>
    requires level { level < 10 }
    ensures read { Gives (λ r. (tree_of r.0.value, r.1.now)) result
        (climb (prefixed_with (readers depth)) level (tree_of left.entry.value) tokens.now) }
    ensures shorter { IfOk result (λ r. length r.1.now ≤ length tokens.now) }
{
    if level == 0 {
        return Ok((left, tokens));
    }
    let (left, rest) = read!(read_climb(alloc, tokens, left, depth, level - 1));
    let (more, rest) = read!(read_links(alloc, rest, depth, level - 1));
    with_links(alloc, left, more, rest)
}

/// An expression.
#[cycle(expressions)]
pub fn read_expression<'t, 'a>(
    alloc: Global,
    tokens: &'t [Token<'a>],
    depth: usize,
) -> Read<'t, 'a, Box<ExprTree<'a>>>
    ensures read { Gives (λ r. (tree_of r.0.value, r.1.now)) result (expression depth tokens.now) }
    ensures shorter { IfOk result (λ r. length r.1.now ≤ length tokens.now) }
{
    let (left, rest) = read!(read_prefixed(alloc, tokens, depth));
    finish_expression(alloc, rest, left, depth)
}

/// The expression that begins with an operand.
#[cycle(expressions)]
pub fn finish_expression<'t, 'a>(
    alloc: Global,
    tokens: &'t [Token<'a>],
    left: Box<ExprTree<'a>>,
    depth: usize,
) -> Read<'t, 'a, Box<ExprTree<'a>>>
    ensures read { Gives (λ r. (tree_of r.0.value, r.1.now)) result
        (finish depth (tree_of left.entry.value) tokens.now) }
    ensures shorter { IfOk result (λ r. length r.1.now ≤ length tokens.now) }
{
    let (condition, rest) = read!(read_climb(alloc, tokens, left, depth, 9));
    let Some((question, arms)) = operator(rest, CHOICE) else {
        return Ok((condition, rest));
    };
    let inner = read!(deeper(depth, question));
    let (yes, rest) = read!(read_expression(alloc, arms, inner));
    let (_, rest) = read!(expect(rest, Terminal::Colon));
    let (no, rest) = read!(read_expression(alloc, rest, inner));
    choice(alloc, condition, yes, no, rest)
}
