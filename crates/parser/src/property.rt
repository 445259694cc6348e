//! Properties.

ghost use Rattle.std.specs.Prelude.{◌≡◌, ◌<◌, ◌≤◌, ◌+◌, ℕ, length, None, Some};
ghost use Rattle.std.specs.Prelude.{MatchOption, IfSome, IfOk};
ghost use Rattle.parser_grammar.specs.Operators.{implication_of};
ghost use Rattle.parser_grammar.specs.Terminals.{is_first_match_word};
ghost use Rattle.parser_grammar.specs.Readers.{lead, pick};
ghost use Rattle.parser_grammar.specs.ReadSequences.{implication_behind, regroup_property};
ghost use Rattle.parser_grammar.specs.ReadSequences.{property};
ghost use Rattle.parser_grammar.specs.ReadSequences.{first_behind};
ghost use Rattle.parser.specs.Views.{Gives};
ghost use Rattle.parser_grammar.specs.Views.{sequence_of, property_of};

use crate::read::{Read, accept, byte_at, deeper, expect, first, read};
use crate::sequence::{finish_sequence, read_sequence, regroup};
use crate::stop::Stop;
use lexer::Token;
use parser_grammar::{
    Implication, PropertyTree, SequenceTree, Terminal, implication_of, is_first_match_word,
};
use std::alloc::Global;

/// The implication that stands first, if one does.
#[tactic(auto, using(crate::proofs::PropertySteps::for_accept))]
fn accept_implication<'t, 'a>(tokens: &'t [Token<'a>]) -> Option<(Implication, &'t [Token<'a>])>
    ensures sign { MatchOption result (pick implication_of tokens.now
        ≡ None) (λ r. pick implication_of tokens.now ≡ Some (r.0, r.1.now)) }
    ensures shorter { IfSome result (λ r. length r.1.now < length tokens.now) }
{
    let Some((token, rest)) = first(tokens) else {
        return None;
    };
    let Some(sign) = implication_of(token) else {
        return None;
    };
    Some((sign, rest))
}

/// The property that begins with a sequence.
#[tactic(auto, using(crate::proofs::PropertySteps::for_implication))]
fn read_implication<'t, 'a>(
    alloc: Global,
    tokens: &'t [Token<'a>],
    antecedent: Box<SequenceTree<'a>>,
    depth: usize,
) -> Read<'t, 'a, PropertyTree<'a>>
    ensures read { Gives (λ r. (property_of r.0, r.1.now)) result
        (implication_behind depth (sequence_of antecedent.entry.value) tokens.now) }
    ensures shorter { IfOk result (λ r. length r.1.now ≤ length tokens.now) }
{
    let Some((sign, right)) = accept_implication(tokens) else {
        return Ok((PropertyTree::Plain(antecedent), tokens));
    };
    let (consequent, rest) = read!(read_sequence(alloc, right, depth));
    Ok((
        PropertyTree::Implication(None, antecedent, sign, consequent),
        rest,
    ))
}

/// What goes on after brackets.
#[tactic(auto, using(crate::proofs::PropertySteps::for_regroup))]
fn regroup_property<'t, 'a>(
    alloc: Global,
    tokens: &'t [Token<'a>],
    inner: PropertyTree<'a>,
    depth: usize,
) -> Read<'t, 'a, PropertyTree<'a>>
    ensures read { Gives (λ r. (property_of r.0, r.1.now)) result
        (regroup_property depth (property_of inner.entry) tokens.now) }
    ensures shorter { IfOk result (λ r. length r.1.now ≤ length tokens.now) }
{
    match inner {
        PropertyTree::Plain(sequence) => {
            let (body, rest) = read!(regroup(alloc, tokens, sequence, depth));
            let (sequence, rest) = read!(finish_sequence(alloc, rest, body, depth));
            read_implication(alloc, rest, sequence, depth)
        }
        PropertyTree::Implication(word, antecedent, sign, consequent) => Ok((
            PropertyTree::Implication(word, antecedent, sign, consequent),
            tokens,
        )),
    }
}

/// The word `first_match`, if it stands first.
#[tactic(auto, using(crate::proofs::PropertySteps::for_first_word))]
fn accept_first_match<'t, 'a>(tokens: &'t [Token<'a>]) -> Option<(Token<'a>, &'t [Token<'a>])>
    ensures word { MatchOption result (lead is_first_match_word tokens.now
        ≡ None) (λ r. lead is_first_match_word tokens.now ≡ Some (r.0, r.1.now)) }
    ensures shorter { IfSome result (λ r. length r.1.now < length tokens.now) }
{
    let Some((token, rest)) = first(tokens) else {
        return None;
    };
    if is_first_match_word(token) {
        return Some((token, rest));
    }
    None
}

/// The implication that is to stand first.
fn expect_implication<'t, 'a>(tokens: &'t [Token<'a>]) -> Read<'t, 'a, Implication>
    ensures sign { Gives (λ r. (r.0, r.1.now)) result (pick implication_of tokens.now) }
    ensures shorter { IfOk result (λ r. length r.1.now < length tokens.now) }
{
    match accept_implication(tokens) {
        Some(read) => Ok(read),
        None => Err(Stop::Expected("an implication", byte_at(tokens))),
    }
}

/// The property after the word `first_match`.
#[tactic(auto, using(crate::proofs::PropertySteps::for_first))]
fn read_first_match<'t, 'a>(
    alloc: Global,
    word: Token<'a>,
    tokens: &'t [Token<'a>],
    depth: usize,
) -> Read<'t, 'a, PropertyTree<'a>>
    ensures read { Gives (λ r. (property_of r.0, r.1.now)) result
        (first_behind depth word.entry tokens.now) }
    ensures shorter { IfOk result (λ r. length r.1.now ≤ length tokens.now) }
{
    let (bracket, inside) = read!(expect(tokens, Terminal::OpenRound));
    let inner = read!(deeper(depth, bracket));
    let (antecedent, behind) = read!(read_sequence(alloc, inside, inner));
    let (_, sign_on) = read!(expect(behind, Terminal::CloseRound));
    let (sign, right) = read!(expect_implication(sign_on));
    let (consequent, rest) = read!(read_sequence(alloc, right, depth));
    Ok((
        PropertyTree::Implication(Some(word), antecedent, sign, consequent),
        rest,
    ))
}

/// A property.
#[tactic(auto, using(crate::proofs::PropertySteps::for_property))]
pub(crate) fn read_property<'t, 'a>(
    alloc: Global,
    tokens: &'t [Token<'a>],
    depth: usize,
) -> Read<'t, 'a, PropertyTree<'a>>
    ensures read { Gives (λ r. (property_of r.0, r.1.now)) result (property depth tokens.now) }
    ensures shorter { IfOk result (λ r. length r.1.now ≤ length tokens.now) }
{
    if let Some((word, rest)) = accept_first_match(tokens) {
        return read_first_match(alloc, word, rest, depth);
    }
    let Some((bracket, inside)) = accept(tokens, Terminal::OpenRound) else {
        let (sequence, rest) = read!(read_sequence(alloc, tokens, depth));
        return read_implication(alloc, rest, sequence, depth);
    };
    let inner = read!(deeper(depth, bracket));
    let (property, rest) = read!(read_property(alloc, inside, inner));
    let (_, rest) = read!(expect(rest, Terminal::CloseRound));
    regroup_property(alloc, rest, property, depth)
}
