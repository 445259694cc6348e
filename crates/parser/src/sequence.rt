//! Sequences.

ghost use Rattle.std.specs.Prelude.{◌≡◌, ◌<◌, ◌≤◌, ◌+◌, ◌==◌, ℕ, suc, length, map, IfOk};
ghost use Rattle.parser_grammar.specs.ReadSequences.{sequences, regroup, body_with, repeat_behind};
ghost use Rattle.parser_grammar.specs.ReadSequences.{late_part, delayed_behind, during_behind};
ghost use Rattle.parser_grammar.specs.ReadSequences.{throughout_reader, conjunction_behind};
ghost use Rattle.parser_grammar.specs.ReadSequences.{intersection_behind, intersection_with};
ghost use Rattle.parser_grammar.specs.ReadSequences.{conjunction_with, alternatives_behind};
ghost use Rattle.parser_grammar.specs.ReadSequences.{sequence_behind, whole};
ghost use Rattle.parser.specs.Views.{Gives};
ghost use Rattle.parser_grammar.specs.Views.{sequence_of, boxed_step_of};

use crate::body::{
    into_expression, late, plain, push_sequence, push_step, throughout, throughout_side,
    with_others, with_steps, with_times,
};
use crate::count::{read_counts, read_delay};
use crate::expression::{finish_expression, read_expression};
use crate::read::{Read, accept, deeper, expect, read, same};
use crate::stop::Stop;
use lexer::Token;
use parser_grammar::{Junction, Range, SequenceTree, Terminal};
use std::alloc::Global;

/// What goes on after brackets.
#[tactic(auto, using(crate::proofs::SequenceSteps::for_regroup))]
pub fn regroup<'t, 'a>(
    alloc: Global,
    tokens: &'t [Token<'a>],
    inner: Box<SequenceTree<'a>>,
    depth: usize,
) -> Read<'t, 'a, Box<SequenceTree<'a>>>
    ensures read { Gives (λ r. (sequence_of r.0.value, r.1.now)) result
        (regroup depth (sequence_of inner.entry.value) tokens.now) }
    ensures shorter { IfOk result (λ r. length r.1.now ≤ length tokens.now) }
{
    match into_expression(inner) {
        Ok(expr) => {
            let (expr, rest) = read!(finish_expression(alloc, tokens, expr, depth));
            plain(alloc, expr, rest)
        }
        Err(sequence) => Ok((sequence, tokens)),
    }
}

/// An expression, or a sequence in brackets.
#[cycle(sequences)]
fn read_body<'t, 'a>(
    alloc: Global,
    tokens: &'t [Token<'a>],
    depth: usize,
) -> Read<'t, 'a, Box<SequenceTree<'a>>>
    ensures read { Gives (λ r. (sequence_of r.0.value, r.1.now)) result
        (body_with depth (sequences depth) tokens.now) }
    ensures shorter { IfOk result (λ r. length r.1.now ≤ length tokens.now) }
{
    let Some((bracket, inside)) = accept(tokens, Terminal::OpenRound) else {
        let (expr, rest) = read!(read_expression(alloc, tokens, depth));
        return plain(alloc, expr, rest);
    };
    let inner = read!(deeper(depth, bracket));
    let (sequence, rest) = read!(read_sequence(alloc, inside, inner));
    let (_, rest) = read!(expect(rest, Terminal::CloseRound));
    regroup(alloc, rest, sequence, depth)
}

/// A body's repetition, if one is written.
fn read_repeat<'t, 'a>(
    alloc: Global,
    tokens: &'t [Token<'a>],
    body: Box<SequenceTree<'a>>,
    depth: usize,
) -> Read<'t, 'a, Box<SequenceTree<'a>>>
    ensures read { Gives (λ r. (sequence_of r.0.value, r.1.now)) result
        (repeat_behind (sequences depth) (sequence_of body.entry.value) tokens.now) }
    ensures shorter { IfOk result (λ r. length r.1.now ≤ length tokens.now) }
{
    let (counts, rest) = read!(read_counts(tokens, depth));
    with_times(alloc, body, counts, rest)
}

/// A delay after its `##`, and what it delays.
#[cycle(sequences)]
fn read_late<'t, 'a>(
    alloc: Global,
    tokens: &'t [Token<'a>],
    depth: usize,
) -> Read<'t, 'a, (Range, Box<SequenceTree<'a>>)>
    ensures read { Gives (λ r. (boxed_step_of r.0, r.1.now)) result
        (late_part depth (sequences depth) tokens.now) }
    ensures shorter { IfOk result (λ r. length r.1.now ≤ length tokens.now) }
{
    let (range, rest) = read!(read_delay(tokens, depth));
    let (body, rest) = read!(read_body(alloc, rest, depth));
    let (body, rest) = read!(read_repeat(alloc, rest, body, depth));
    Ok(((range, body), rest))
}

/// The delays that follow a first part, with what they delay.
#[cycle(sequences)]
fn read_delayed<'t, 'a>(
    alloc: Global,
    tokens: &'t [Token<'a>],
    head: Box<SequenceTree<'a>>,
    depth: usize,
) -> Read<'t, 'a, Box<SequenceTree<'a>>>
    ensures read { Gives (λ r. (sequence_of r.0.value, r.1.now)) result
        (delayed_behind depth (sequences depth) (sequence_of head.entry.value) tokens.now) }
    ensures shorter { IfOk result (λ r. length r.1.now ≤ length tokens.now) }
{
    let mut found = Vec::new(alloc);
    let mut left = tokens;
    'steps: loop {
        let Some((_, rest)) = accept(left, Terminal::Delay) else {
            return with_steps(alloc, head, found, left);
        };
        let ((range, body), rest) = read!(read_late(alloc, rest, depth));
        read!(push_step(&mut found, range, body));
        left = same(rest);
    }
}

/// What follows a first body: after an expression that is `throughout` and its right side, too.
#[cycle(sequences)]
fn read_behind<'t, 'a>(
    alloc: Global,
    tokens: &'t [Token<'a>],
    body: Box<SequenceTree<'a>>,
    depth: usize,
) -> Read<'t, 'a, Box<SequenceTree<'a>>>
    ensures read { Gives (λ r. (sequence_of r.0.value, r.1.now)) result
        (during_behind depth (sequences depth) (sequence_of body.entry.value) tokens.now) }
    ensures shorter { IfOk result (λ r. length r.1.now ≤ length tokens.now) }
{
    let (expr, word, right) = match throughout_side(tokens, body) {
        Ok(side) => side,
        Err(body) => {
            let (head, rest) = read!(read_repeat(alloc, tokens, body, depth));
            return read_delayed(alloc, rest, head, depth);
        }
    };
    let inner = read!(deeper(depth, word));
    let (body, rest) = read!(read_during(alloc, right, inner));
    throughout(alloc, expr, body, rest)
}

/// A chain of delays, or `throughout` with both its sides.
#[cycle(sequences)]
fn read_during<'t, 'a>(
    alloc: Global,
    tokens: &'t [Token<'a>],
    depth: usize,
) -> Read<'t, 'a, Box<SequenceTree<'a>>>
    ensures read { Gives (λ r. (sequence_of r.0.value, r.1.now)) result
        (throughout_reader depth tokens.now) }
    ensures shorter { IfOk result (λ r. length r.1.now ≤ length tokens.now) }
{
    let Some((token, rest)) = accept(tokens, Terminal::Delay) else {
        let (body, rest) = read!(read_body(alloc, tokens, depth));
        return read_behind(alloc, rest, body, depth);
    };
    let ((range, body), rest) = read!(read_late(alloc, rest, depth));
    let (late, rest) = read!(late(alloc, token, range, body, rest));
    read_delayed(alloc, rest, late, depth)
}

/// What the `intersect`s that follow make of a first side.
#[cycle(sequences)]
fn read_intersection<'t, 'a>(
    alloc: Global,
    tokens: &'t [Token<'a>],
    side: Box<SequenceTree<'a>>,
    depth: usize,
) -> Read<'t, 'a, Box<SequenceTree<'a>>>
    ensures read { Gives (λ r. (sequence_of r.0.value, r.1.now)) result
        (intersection_behind depth (sequences depth) (sequence_of side.entry.value) tokens.now) }
    ensures shorter { IfOk result (λ r. length r.1.now ≤ length tokens.now) }
{
    let mut found = Vec::new(alloc);
    let mut left = tokens;
    'meets: loop {
        let Some((_, rest)) = accept(left, Terminal::Intersect) else {
            return with_others(alloc, Junction::Intersect, side, found, left);
        };
        let (meet, rest) = read!(read_during(alloc, rest, depth));
        read!(push_sequence(&mut found, meet));
        left = same(rest);
    }
}

/// A side of `and`.
#[cycle(sequences)]
fn read_conjunct<'t, 'a>(
    alloc: Global,
    tokens: &'t [Token<'a>],
    depth: usize,
) -> Read<'t, 'a, Box<SequenceTree<'a>>>
    ensures read { Gives (λ r. (sequence_of r.0.value, r.1.now)) result
        (intersection_with depth (sequences depth) tokens.now) }
    ensures shorter { IfOk result (λ r. length r.1.now ≤ length tokens.now) }
{
    let (side, rest) = read!(read_during(alloc, tokens, depth));
    read_intersection(alloc, rest, side, depth)
}

/// What the `and`s that follow make of a first side.
#[cycle(sequences)]
fn read_conjunction<'t, 'a>(
    alloc: Global,
    tokens: &'t [Token<'a>],
    side: Box<SequenceTree<'a>>,
    depth: usize,
) -> Read<'t, 'a, Box<SequenceTree<'a>>>
    ensures read { Gives (λ r. (sequence_of r.0.value, r.1.now)) result
        (conjunction_behind depth (sequences depth) (sequence_of side.entry.value) tokens.now) }
    ensures shorter { IfOk result (λ r. length r.1.now ≤ length tokens.now) }
{
    let mut found = Vec::new(alloc);
    let mut left = tokens;
    'conjuncts: loop {
        let Some((_, rest)) = accept(left, Terminal::And) else {
            return with_others(alloc, Junction::And, side, found, left);
        };
        let (conjunct, rest) = read!(read_conjunct(alloc, rest, depth));
        read!(push_sequence(&mut found, conjunct));
        left = same(rest);
    }
}

/// A side of `or`.
#[cycle(sequences)]
fn read_side<'t, 'a>(
    alloc: Global,
    tokens: &'t [Token<'a>],
    depth: usize,
) -> Read<'t, 'a, Box<SequenceTree<'a>>>
    ensures read { Gives (λ r. (sequence_of r.0.value, r.1.now)) result
        (conjunction_with depth (sequences depth) tokens.now) }
    ensures shorter { IfOk result (λ r. length r.1.now ≤ length tokens.now) }
{
    let (side, rest) = read!(read_conjunct(alloc, tokens, depth));
    read_conjunction(alloc, rest, side, depth)
}

/// What the `or`s that follow make of a first side.
#[cycle(sequences)]
fn read_alternatives<'t, 'a>(
    alloc: Global,
    tokens: &'t [Token<'a>],
    side: Box<SequenceTree<'a>>,
    depth: usize,
) -> Read<'t, 'a, Box<SequenceTree<'a>>>
    ensures read { Gives (λ r. (sequence_of r.0.value, r.1.now)) result
        (alternatives_behind depth (sequences depth) (sequence_of side.entry.value) tokens.now) }
    ensures shorter { IfOk result (λ r. length r.1.now ≤ length tokens.now) }
{
    let mut found = Vec::new(alloc);
    let mut left = tokens;
    'alternatives: loop {
        let Some((_, rest)) = accept(left, Terminal::Or) else {
            return with_others(alloc, Junction::Or, side, found, left);
        };
        let (alternative, rest) = read!(read_side(alloc, rest, depth));
        read!(push_sequence(&mut found, alternative));
        left = same(rest);
    }
}

/// A sequence.
#[cycle(sequences)]
pub fn read_sequence<'t, 'a>(
    alloc: Global,
    tokens: &'t [Token<'a>],
    depth: usize,
) -> Read<'t, 'a, Box<SequenceTree<'a>>>
    ensures read { Gives (λ r. (sequence_of r.0.value, r.1.now)) result (whole depth tokens.now) }
    ensures shorter { IfOk result (λ r. length r.1.now ≤ length tokens.now) }
{
    let (side, rest) = read!(read_side(alloc, tokens, depth));
    read_alternatives(alloc, rest, side, depth)
}

/// The sequence that begins with a body.
pub fn finish_sequence<'t, 'a>(
    alloc: Global,
    tokens: &'t [Token<'a>],
    body: Box<SequenceTree<'a>>,
    depth: usize,
) -> Read<'t, 'a, Box<SequenceTree<'a>>>
    ensures read { Gives (λ r. (sequence_of r.0.value, r.1.now)) result
        (sequence_behind depth (sequence_of body.entry.value) tokens.now) }
    ensures shorter { IfOk result (λ r. length r.1.now ≤ length tokens.now) }
{
    let (side, rest) = read!(read_behind(alloc, tokens, body, depth));
    let (side, rest) = read!(read_intersection(alloc, rest, side, depth));
    let (side, rest) = read!(read_conjunction(alloc, rest, side, depth));
    read_alternatives(alloc, rest, side, depth)
}
