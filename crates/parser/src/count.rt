//! Counts of delays and repetitions.

ghost use Rattle.std.specs.Prelude.{◌≡◌, ◌≤◌, ℕ, length, IfOk};
ghost use Rattle.parser_grammar.specs.declared.terminal.Terminal.TheVariants.{Colon, OpenRepeat};
ghost use Rattle.parser_grammar.specs.Bounds.{bound_within};
ghost use Rattle.parser_grammar.specs.Readers.{pick, optional};
ghost use Rattle.parser_grammar.specs.ReadSequences.{times, range_between, delay, sequences};
ghost use Rattle.parser.specs.Views.{Gives};

use crate::read::{Read, accept, expect, expect_bound, read};
use crate::stop::Stop;
use lexer::Token;
use parser_grammar::{Bound, Range, Terminal};

/// The largest bound of a delay or a repetition.
const LARGEST: u8 = 127;

/// The upper count of a repetition, if one is written.
#[tactic(auto, using(crate::proofs::SequenceSteps::for_optional))]
fn read_high<'t, 'a>(tokens: &'t [Token<'a>], low: Bound) -> Read<'t, 'a, Option<Bound>>
    ensures read { Gives (λ r. (r.0, r.1.now)) result
        (optional Colon (pick (bound_within low.value 127)) tokens.now) }
    ensures shorter { IfOk result (λ r. length r.1.now ≤ length tokens.now) }
{
    let Some((_, rest)) = accept(tokens, Terminal::Colon) else {
        return Ok((None, tokens));
    };
    let (high, rest) = read!(expect_bound(rest, low.value, LARGEST));
    Ok((Some(high), rest))
}

/// The counts of a repetition, after `[*`.
fn read_times<'t, 'a>(tokens: &'t [Token<'a>]) -> Read<'t, 'a, Range>
    ensures read { Gives (λ r. (r.0, r.1.now)) result (times tokens.now) }
    ensures shorter { IfOk result (λ r. length r.1.now ≤ length tokens.now) }
{
    let (low, rest) = read!(expect_bound(tokens, 0, LARGEST));
    let (high, rest) = read!(read_high(rest, low));
    let (_, rest) = read!(expect(rest, Terminal::CloseSquare));
    Ok((Range { low, high }, rest))
}

/// The counts of a delay, after `##` and `[`.
fn read_between<'t, 'a>(tokens: &'t [Token<'a>]) -> Read<'t, 'a, Range>
    ensures read { Gives (λ r. (r.0, r.1.now)) result (range_between tokens.now) }
    ensures shorter { IfOk result (λ r. length r.1.now ≤ length tokens.now) }
{
    let (low, rest) = read!(expect_bound(tokens, 0, LARGEST));
    let (_, rest) = read!(expect(rest, Terminal::Colon));
    let (high, rest) = read!(expect_bound(rest, low.value, LARGEST));
    let (_, rest) = read!(expect(rest, Terminal::CloseSquare));
    let high = Some(high);
    Ok((Range { low, high }, rest))
}

/// The counts of a delay, after `##`.
#[tactic(auto, using(crate::proofs::SequenceSteps::for_delay))]
pub(crate) fn read_delay<'t, 'a>(tokens: &'t [Token<'a>], depth: usize) -> Read<'t, 'a, Range>
    ensures read { Gives (λ r. (r.0, r.1.now)) result (delay (sequences depth) tokens.now) }
    ensures shorter { IfOk result (λ r. length r.1.now ≤ length tokens.now) }
{
    let Some((bracket, rest)) = accept(tokens, Terminal::OpenSquare) else {
        let (low, rest) = read!(expect_bound(tokens, 0, LARGEST));
        return Ok((Range { low, high: None }, rest));
    };
    if depth == 0 {
        return Err(Stop::TooDeep(bracket.at));
    }
    read_between(rest)
}

/// The counts of a body's repetition, if they are written.
#[tactic(auto, using(crate::proofs::SequenceSteps::for_counts))]
pub(crate) fn read_counts<'t, 'a>(
    tokens: &'t [Token<'a>],
    depth: usize,
) -> Read<'t, 'a, Option<Range>>
    ensures read { Gives (λ r. (r.0, r.1.now)) result
        (optional OpenRepeat (sequences depth).times tokens.now) }
    ensures shorter { IfOk result (λ r. length r.1.now ≤ length tokens.now) }
{
    let Some((bracket, rest)) = accept(tokens, Terminal::OpenRepeat) else {
        return Ok((None, tokens));
    };
    if depth == 0 {
        return Err(Stop::TooDeep(bracket.at));
    }
    let (range, rest) = read!(read_times(rest));
    Ok((Some(range), rest))
}
