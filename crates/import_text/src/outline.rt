//! Sequences that tokens spell, beside those that were written.

ghost use Rattle.std.specs.Prelude.{◌≡◌, IsTrue, IfSome, map};
ghost use Rattle.parser_grammar.specs.ReadSequences.{steps_of, others_of};
ghost use Rattle.parser_grammar.specs.Views.{sequence_of, delay_step_of};
ghost use Rattle.import_properties.specs.Shapes.{written_form};
ghost use Rattle.import_text.specs.Outlines.{outline, spelled_outline, outline_after};
ghost use Rattle.import_text.specs.Outlines.{outline_beside, least_of, most_of, joined_by};

use import_properties::Sequence;
use parser_grammar::{Junction, Range, SequenceTree};

/// How deep sequences may lie in one another.
pub(crate) const MOST_DEPTH: usize = 1_000;

/// Whether a range is from one count to another.
fn has_bounds(range: Range, least: u8, most: u8) -> bool
    ensures least { IsTrue result → least_of range ≡ least }
    ensures most { IsTrue result → most_of range ≡ most }
{
    let high = match range.high {
        Some(high) => high.value,
        None => range.low.value,
    };
    if range.low.value != least {
        return false;
    }
    high == most
}

/// Whether a sequence that tokens spell has the outline of one that was written. Past the depth it
/// is not known, and the answer is no.
#[cycle(outlines)]
pub(crate) fn has_outline(tree: &SequenceTree, sequence: &Sequence, depth: usize) -> bool
    ensures { IsTrue result
        → spelled_outline (sequence_of tree.now) ≡ outline (written_form sequence.now) }
{
    if depth == 0 {
        return false;
    }
    match tree {
        SequenceTree::Boolean(_) => matches!(sequence, Sequence::Boolean(_)),
        SequenceTree::Repeated(body, range) => match sequence {
            Sequence::Repeat(inner, least, most) => {
                if !has_bounds(*range, *least, *most) {
                    return false;
                }
                has_outline(body, inner, depth - 1)
            }
            _ => false,
        },
        SequenceTree::Late(_, range, body) => match sequence {
            Sequence::Lead(least, most, inner) => {
                if !has_bounds(*range, *least, *most) {
                    return false;
                }
                has_outline(body, inner, depth - 1)
            }
            _ => false,
        },
        SequenceTree::Throughout(_, body) => match sequence {
            Sequence::Throughout(_, inner) => has_outline(body, inner, depth - 1),
            _ => false,
        },
        SequenceTree::Delayed(first, steps) => {
            has_delays(first, steps.as_slice(), sequence, depth - 1)
        }
        SequenceTree::Joined(junction, first, others) => {
            has_sides(*junction, first, others.as_slice(), sequence, depth - 1)
        }
    }
}

/// Whether tokens have the outline of a sequence, and of delays after it.
#[cycle(outlines)]
fn has_delays(
    first: &SequenceTree,
    steps: &[(Range, SequenceTree)],
    sequence: &Sequence,
    depth: usize,
) -> bool
    ensures { IsTrue result → outline_after (spelled_outline (sequence_of first.now))
        (steps_of (map delay_step_of steps.now)) ≡ outline (written_form sequence.now) }
{
    if depth == 0 {
        return false;
    }
    let Some(((range, last), before)) = steps.split_last() else {
        return has_outline(first, sequence, depth - 1);
    };
    match sequence {
        Sequence::Delay(left, least, most, right) => {
            if !has_bounds(*range, *least, *most) || !has_delays(first, before, left, depth - 1) {
                return false;
            }
            has_outline(last, right, depth - 1)
        }
        _ => false,
    }
}

/// The two sides of a sequence that is joined so.
fn sides_of<'s>(junction: Junction, sequence: &'s Sequence) -> Option<(&'s Sequence, &'s Sequence)>
    ensures { IfSome result (λ sides. outline (written_form sequence.now) ≡ joined_by junction
        (outline (written_form sides.0.now)) (outline (written_form sides.1.now))) }
{
    match (junction, sequence) {
        (Junction::Intersect, Sequence::Intersect(left, right)) => Some((left, right)),
        (Junction::And, Sequence::And(left, right)) => Some((left, right)),
        (Junction::Or, Sequence::Or(left, right)) => Some((left, right)),
        _ => None,
    }
}

/// Whether tokens have the outline of a sequence, and of further sides that are joined to it.
#[cycle(outlines)]
fn has_sides(
    junction: Junction,
    first: &SequenceTree,
    others: &[SequenceTree],
    sequence: &Sequence,
    depth: usize,
) -> bool
    ensures { IsTrue result → outline_beside junction (spelled_outline (sequence_of first.now))
        (others_of (map sequence_of others.now)) ≡ outline (written_form sequence.now) }
{
    if depth == 0 {
        return false;
    }
    let Some((last, before)) = others.split_last() else {
        return has_outline(first, sequence, depth - 1);
    };
    match sides_of(junction, sequence) {
        Some((left, right)) => {
            if !has_sides(junction, first, before, left, depth - 1) {
                return false;
            }
            has_outline(last, right, depth - 1)
        }
        None => false,
    }
}
