//! Parts that are sequences.

ghost use Rattle.std.specs.Prelude.{IsTrue};
ghost use Rattle.import_properties.specs.Shapes.{written_form};
ghost use Rattle.import_checks.specs.Sequences.{IsSequence};

use crate::booleans::{MOST_DEPTH, is_boolean};
use crate::counts::has_count;
use crate::firsts::{is_first_form, is_waited, waits};
use crate::forms::{anywhere_in, boolean_of, first_in, goto_in, moved_in, nonconsecutive_in};
use crate::found::is_found;
use crate::lengths::{fits, has_one_length, is_within, start_after, takes_ticks};
use crate::places::part_at;
use crate::truths::is_truth;
use import_elaboration::{Part, PartId, Parts};
use import_properties::Sequence;

/// Whether a part is `b[->m:n]` or `b[=m:n]`, and a sequence is that.
fn is_goto(
    parts: &Parts<'_>,
    bound: Option<u8>,
    only: bool,
    id: PartId,
    sequence: &Sequence,
) -> bool
    ensures { IsTrue result → IsSequence parts.now bound only id (written_form sequence.now) }
{
    match part_at(parts, id) {
        Some(Part::Goto(value, count)) => match goto_in(sequence) {
            Some(found) => is_found(parts, bound, value, count, found),
            None => false,
        },
        Some(Part::Nonconsecutive(value, count)) => match nonconsecutive_in(sequence) {
            Some(found) => is_found(parts, bound, value, count, found),
            None => match goto_in(sequence) {
                Some(found) => {
                    if !only {
                        return false;
                    }
                    if found.least == 0 {
                        return false;
                    }
                    is_found(parts, bound, value, count, found)
                }
                None => false,
            },
        },
        _ => false,
    }
}

/// Whether a part is a sequence; `only` where it is only asked whether it matches.
#[cycle(sequences)]
pub(crate) fn is_sequence(
    parts: &Parts<'_>,
    bound: Option<u8>,
    only: bool,
    id: PartId,
    sequence: &Sequence,
    depth: usize,
) -> bool
    ensures { IsTrue result → IsSequence parts.now bound only id (written_form sequence.now) }
{
    if depth == 0 {
        return false;
    }
    if let Some(condition) = boolean_of(sequence) {
        return is_boolean(parts, bound, id, condition, MOST_DEPTH);
    }
    match part_at(parts, id) {
        Some(Part::Lead(count, body)) => match sequence {
            Sequence::Lead(least, most, inner) => {
                if !has_count(bound, count, *least, *most) {
                    return false;
                }
                is_sequence(parts, bound, only, body, inner, depth - 1)
            }
            _ => false,
        },
        Some(Part::Delay(first, count, second)) => match sequence {
            Sequence::Delay(left, least, most, right) => {
                if !has_count(bound, count, *least, *most) {
                    return false;
                }
                if !is_sequence(parts, bound, false, first, left, depth - 1) {
                    return false;
                }
                is_sequence(parts, bound, only, second, right, depth - 1)
            }
            _ => false,
        },
        Some(Part::Assigned(body, _)) => is_sequence(parts, bound, only, body, sequence, depth - 1),
        _ => is_held(parts, bound, only, id, sequence, depth - 1),
    }
}

/// The same of repetitions, and of booleans that hold throughout.
#[cycle(sequences)]
fn is_held(
    parts: &Parts<'_>,
    bound: Option<u8>,
    only: bool,
    id: PartId,
    sequence: &Sequence,
    depth: usize,
) -> bool
    ensures { IsTrue result → IsSequence parts.now bound only id (written_form sequence.now) }
{
    if depth == 0 {
        return false;
    }
    match part_at(parts, id) {
        Some(Part::Repeat(body, count)) => {
            if has_count(bound, count, 1, 1) {
                return is_sequence(parts, bound, false, body, sequence, depth - 1);
            }
            match sequence {
                Sequence::Repeat(inner, least, most) => {
                    if !has_count(bound, count, *least, *most) {
                        return false;
                    }
                    is_sequence(parts, bound, false, body, inner, depth - 1)
                }
                _ => false,
            }
        }
        Some(Part::Throughout(value, body)) => match sequence {
            Sequence::Throughout(condition, inner) => {
                if !is_truth(parts, value, *condition) {
                    return false;
                }
                is_sequence(parts, bound, only, body, inner, depth - 1)
            }
            _ => false,
        },
        _ => is_pair(parts, bound, only, id, sequence, depth - 1),
    }
}

/// The same of two sequences that begin together.
#[cycle(sequences)]
fn is_pair(
    parts: &Parts<'_>,
    bound: Option<u8>,
    only: bool,
    id: PartId,
    sequence: &Sequence,
    depth: usize,
) -> bool
    ensures { IsTrue result → IsSequence parts.now bound only id (written_form sequence.now) }
{
    if depth == 0 {
        return false;
    }
    match part_at(parts, id) {
        Some(Part::And(first, second)) => match sequence {
            Sequence::And(left, right) => {
                if !is_sequence(parts, bound, only, first, left, depth - 1) {
                    return false;
                }
                is_sequence(parts, bound, only, second, right, depth - 1)
            }
            _ => false,
        },
        Some(Part::Or(first, second)) => match sequence {
            Sequence::Or(left, right) => {
                if !is_sequence(parts, bound, only, first, left, depth - 1) {
                    return false;
                }
                is_sequence(parts, bound, only, second, right, depth - 1)
            }
            _ => false,
        },
        Some(Part::Intersect(first, second)) => match sequence {
            Sequence::Intersect(left, right) => {
                if !is_sequence(parts, bound, false, first, left, depth - 1) {
                    return false;
                }
                is_sequence(parts, bound, false, second, right, depth - 1)
            }
            _ => false,
        },
        Some(Part::Within(_, _)) => is_contained(parts, bound, only, id, sequence, depth - 1),
        Some(Part::FirstMatch(_)) => is_first(parts, bound, only, id, sequence, depth - 1),
        _ => is_goto(parts, bound, only, id, sequence),
    }
}

/// The same of `within`.
#[cycle(sequences)]
fn is_contained(
    parts: &Parts<'_>,
    bound: Option<u8>,
    only: bool,
    id: PartId,
    sequence: &Sequence,
    depth: usize,
) -> bool
    ensures { IsTrue result → IsSequence parts.now bound only id (written_form sequence.now) }
{
    if depth == 0 {
        return false;
    }
    let Some(Part::Within(first, second)) = part_at(parts, id) else {
        return false;
    };
    match sequence {
        Sequence::Intersect(around, outer) => match anywhere_in(around) {
            Some((inner, most)) => {
                if !is_within(outer, most) {
                    return false;
                }
                if !is_sequence(parts, bound, false, first, inner, depth - 1) {
                    return false;
                }
                is_sequence(parts, bound, false, second, outer, depth - 1)
            }
            None => false,
        },
        Sequence::And(somewhere, outer) => match moved_in(somewhere) {
            Some((inner, more)) => {
                if !fits(inner, more, outer) {
                    return false;
                }
                if !is_sequence(parts, bound, false, first, inner, depth - 1) {
                    return false;
                }
                is_sequence(parts, bound, false, second, outer, depth - 1)
            }
            None => false,
        },
        _ => false,
    }
}

/// The same of `first_match`.
#[cycle(sequences)]
fn is_first(
    parts: &Parts<'_>,
    bound: Option<u8>,
    only: bool,
    id: PartId,
    sequence: &Sequence,
    depth: usize,
) -> bool
    ensures { IsTrue result → IsSequence parts.now bound only id (written_form sequence.now) }
{
    if depth == 0 {
        return false;
    }
    let Some(Part::FirstMatch(body)) = part_at(parts, id) else {
        return false;
    };
    if only {
        if !takes_ticks(sequence) {
            return false;
        }
        return is_sequence(parts, bound, true, body, sequence, depth - 1);
    }
    if is_first_form(parts, bound, only, id, sequence) {
        return true;
    }
    if waits(sequence) {
        return is_first_delay(parts, bound, only, id, sequence, depth - 1);
    }
    if !has_one_length(sequence) {
        return false;
    }
    is_sequence(parts, bound, false, body, sequence, depth - 1)
}

/// The same of `first_match(r ##[m:n] b)`.
#[cycle(sequences)]
fn is_first_delay(
    parts: &Parts<'_>,
    bound: Option<u8>,
    only: bool,
    id: PartId,
    sequence: &Sequence,
    depth: usize,
) -> bool
    ensures { IsTrue result → IsSequence parts.now bound only id (written_form sequence.now) }
{
    if depth == 0 {
        return false;
    }
    let Some(Part::FirstMatch(body)) = part_at(parts, id) else {
        return false;
    };
    let Some(Part::Delay(first, count, second)) = part_at(parts, body) else {
        return false;
    };
    match sequence {
        Sequence::Delay(left, least, most, right) => match first_in(right) {
            Some((condition, more)) => {
                if *least != *most {
                    return false;
                }
                let Some(start) = start_after(left, count.least, *least) else {
                    return false;
                };
                if !is_waited(parts, bound, count, start, *least, more, second, condition) {
                    return false;
                }
                is_sequence(parts, bound, false, first, left, depth - 1)
            }
            None => false,
        },
        _ => false,
    }
}
