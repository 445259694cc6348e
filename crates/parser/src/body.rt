//! Sequences made of their parts.

ghost use Rattle.std.specs.Prelude.{◌≡◌, true, false, ◌<◌, ◌≤◌, ◌++◌, [], ◌∷◌, length, map, Some};
ghost use Rattle.std.specs.Prelude.{IfOk, IfErr, MatchResult};
ghost use Rattle.parser.specs.declared.stop.Stop.TheVariants.{Memory};
ghost use Rattle.parser_grammar.specs.declared.terminal.Terminal.TheVariants.{Throughout};
ghost use Rattle.parser_grammar.specs.Trees.{boolean};
ghost use Rattle.parser_grammar.specs.Trees as trees;
ghost use Rattle.parser_grammar.specs.Readers.{expect};
ghost use Rattle.parser_grammar.specs.ReadSequences.{with_times, with_steps, with_others};
ghost use Rattle.parser_grammar.specs.Views.{tree_of};
ghost use Rattle.parser.specs.Views.{Gives, read_as};
ghost use Rattle.parser_grammar.specs.Views.{sequence_of, delay_step_of};
ghost use Rattle.parser_grammar.specs.Sequences.{IsNoExpression};
ghost use Rattle.parser.specs.Bodies.{HasNoThroughout};

use crate::read::{Read, accept};
use crate::stop::Stop;
use lexer::Token;
use parser_grammar::{ExprTree, Junction, Range, SequenceTree, Terminal};
use std::alloc::Global;

/// Whether a sequence is an expression.
fn is_expression(sequence: &SequenceTree) -> bool
    ensures yes { result ≡ true → IsNoExpression (sequence_of sequence.now) → ⊥ }
    ensures no { result ≡ false → IsNoExpression (sequence_of sequence.now) }
{
    matches!(sequence, SequenceTree::Boolean(_))
}

/// The expression that a sequence is; else the sequence.
pub(crate) fn into_expression<'a>(
    sequence: Box<SequenceTree<'a>>,
) -> Result<Box<ExprTree<'a>>, Box<SequenceTree<'a>>>
    ensures { MatchResult result
        (λ e. boolean (tree_of e.value) ≡ sequence_of sequence.entry.value)
        (λ s. (s ≡ sequence.entry) × IsNoExpression (sequence_of s.value)) }
{
    if !is_expression(&sequence) {
        return Err(sequence);
    }
    match Box::into_inner(sequence) {
        SequenceTree::Boolean(expr) => Ok(expr),
        _ => unreachable!(),
    }
}

/// A sequence in memory, with the tokens after it.
fn boxed<'t, 'a>(
    alloc: Global,
    sequence: SequenceTree<'a>,
    rest: &'t [Token<'a>],
) -> Read<'t, 'a, Box<SequenceTree<'a>>>
    ensures read { Gives (λ r. (sequence_of r.0.value, r.1.now)) result
        (read_as (sequence_of sequence.entry) rest.now) }
    ensures shorter { IfOk result (λ r. length r.1.now ≤ length rest.now) }
{
    Ok((Box::new(alloc, sequence)?, rest))
}

/// An expression as a sequence.
#[tactic(auto, using(crate::proofs::SequenceTreeLaws::sequence_rules))]
pub(crate) fn plain<'t, 'a>(
    alloc: Global,
    expr: Box<ExprTree<'a>>,
    rest: &'t [Token<'a>],
) -> Read<'t, 'a, Box<SequenceTree<'a>>>
    ensures read { Gives (λ r. (sequence_of r.0.value, r.1.now)) result
        (read_as (boolean (tree_of expr.entry.value)) rest.now) }
    ensures shorter { IfOk result (λ r. length r.1.now ≤ length rest.now) }
{
    boxed(alloc, SequenceTree::Boolean(expr), rest)
}

/// A body with the counts of its repetition, if they are written.
#[tactic(auto, using(crate::proofs::SequenceTreeLaws::sequence_rules))]
pub(crate) fn with_times<'t, 'a>(
    alloc: Global,
    body: Box<SequenceTree<'a>>,
    counts: Option<Range>,
    rest: &'t [Token<'a>],
) -> Read<'t, 'a, Box<SequenceTree<'a>>>
    ensures read { Gives (λ r. (sequence_of r.0.value, r.1.now)) result
        (read_as (with_times (sequence_of body.entry.value) counts) rest.now) }
    ensures shorter { IfOk result (λ r. length r.1.now ≤ length rest.now) }
{
    match counts {
        None => Ok((body, rest)),
        Some(range) => boxed(alloc, SequenceTree::Repeated(body, range), rest),
    }
}

/// A first part with the delays that follow it and what they delay.
#[tactic(auto, using(crate::proofs::SequenceTreeLaws::steps_rules))]
pub(crate) fn with_steps<'t, 'a>(
    alloc: Global,
    head: Box<SequenceTree<'a>>,
    more: Vec<(Range, SequenceTree<'a>)>,
    rest: &'t [Token<'a>],
) -> Read<'t, 'a, Box<SequenceTree<'a>>>
    ensures read { Gives (λ r. (sequence_of r.0.value, r.1.now)) result
        (read_as (with_steps (sequence_of head.entry.value)
        (map delay_step_of more.entry.items)) rest.now) }
    ensures shorter { IfOk result (λ r. length r.1.now ≤ length rest.now) }
{
    if more.is_empty() {
        return Ok((head, rest));
    }
    boxed(alloc, SequenceTree::Delayed(head, more), rest)
}

/// A first side with those that are joined to it.
#[tactic(auto, using(crate::proofs::SequenceTreeLaws::others_rules))]
pub(crate) fn with_others<'t, 'a>(
    alloc: Global,
    junction: Junction,
    side: Box<SequenceTree<'a>>,
    more: Vec<SequenceTree<'a>>,
    rest: &'t [Token<'a>],
) -> Read<'t, 'a, Box<SequenceTree<'a>>>
    ensures read { Gives (λ r. (sequence_of r.0.value, r.1.now)) result
        (read_as (with_others junction (sequence_of side.entry.value)
        (map sequence_of more.entry.items)) rest.now) }
    ensures shorter { IfOk result (λ r. length r.1.now ≤ length rest.now) }
{
    if more.is_empty() {
        return Ok((side, rest));
    }
    boxed(alloc, SequenceTree::Joined(junction, side, more), rest)
}

/// A delay with nothing before it, and what it delays.
#[tactic(auto, using(crate::proofs::SequenceTreeLaws::sequence_rules))]
pub(crate) fn late<'t, 'a>(
    alloc: Global,
    token: Token<'a>,
    range: Range,
    body: Box<SequenceTree<'a>>,
    rest: &'t [Token<'a>],
) -> Read<'t, 'a, Box<SequenceTree<'a>>>
    ensures read { Gives (λ r. (sequence_of r.0.value, r.1.now)) result
        (read_as (trees.late token.entry range (sequence_of body.entry.value)) rest.now) }
    ensures shorter { IfOk result (λ r. length r.1.now ≤ length rest.now) }
{
    boxed(alloc, SequenceTree::Late(token, range, body), rest)
}

/// What holds throughout a body.
#[tactic(auto, using(crate::proofs::SequenceTreeLaws::sequence_rules))]
pub(crate) fn throughout<'t, 'a>(
    alloc: Global,
    expr: Box<ExprTree<'a>>,
    body: Box<SequenceTree<'a>>,
    rest: &'t [Token<'a>],
) -> Read<'t, 'a, Box<SequenceTree<'a>>>
    ensures read { Gives (λ r. (sequence_of r.0.value, r.1.now)) result
        (read_as (trees.throughout (tree_of expr.entry.value)
        (sequence_of body.entry.value)) rest.now) }
    ensures shorter { IfOk result (λ r. length r.1.now ≤ length rest.now) }
{
    boxed(alloc, SequenceTree::Throughout(expr, body), rest)
}

/// Puts one more sequence after those that were found.
pub(crate) fn push_sequence<'a>(
    found: &mut Vec<SequenceTree<'a>>,
    sequence: Box<SequenceTree<'a>>,
) -> Result<(), Stop>
    ensures ok { IfOk result (λ _. found.new.items ≡ found.old.items ++ sequence.entry.value ∷ []) }
    ensures err { IfErr result (λ stop. stop ≡ Memory) }
{
    found.push(Box::into_inner(sequence))?;
    Ok(())
}

/// Puts one more delay with what it delays after those that were found.
pub(crate) fn push_step<'a>(
    found: &mut Vec<(Range, SequenceTree<'a>)>,
    range: Range,
    body: Box<SequenceTree<'a>>,
) -> Result<(), Stop>
    ensures ok { IfOk result
        (λ _. found.new.items ≡ found.old.items ++ (range, body.entry.value) ∷ []) }
    ensures err { IfErr result (λ stop. stop ≡ Memory) }
{
    found.push((range, Box::into_inner(body)))?;
    Ok(())
}

/// The expression, the word and the tokens after it, where a body goes on with `throughout`; else
/// the body.
#[tactic(auto, using(crate::proofs::BodyLaws::for_throughout))]
pub(crate) fn throughout_side<'t, 'a>(
    tokens: &'t [Token<'a>],
    body: Box<SequenceTree<'a>>,
) -> Result<(Box<ExprTree<'a>>, Token<'a>, &'t [Token<'a>]), Box<SequenceTree<'a>>>
    ensures side { MatchResult result
        (λ r. (sequence_of body.entry.value ≡ boolean (tree_of r.0.value))
        × (expect Throughout tokens.now ≡ Some (r.1, r.2.now)))
        (λ b. (sequence_of b.value ≡ sequence_of body.entry.value)
        × HasNoThroughout (sequence_of b.value) tokens.now) }
    ensures shorter { IfOk result (λ r. length r.2.now < length tokens.now) }
{
    let Some((word, rest)) = accept(tokens, Terminal::Throughout) else {
        return Err(body);
    };
    match into_expression(body) {
        Ok(expr) => Ok((expr, word, rest)),
        Err(body) => Err(body),
    }
}
