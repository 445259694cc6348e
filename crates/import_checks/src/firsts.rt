//! First matches, by the forms of sequences.

ghost use Rattle.std.specs.Prelude.{◌+◌, IsTrue};
ghost use Rattle.import_properties.specs.Shapes.{written_form};
ghost use Rattle.import_checks.specs.Counts.{IsCount};
ghost use Rattle.import_checks.specs.Booleans.{IsBoolean};
ghost use Rattle.import_checks.specs.Sequences.{IsSequence};

use crate::booleans::{MOST_DEPTH, is_boolean};
use crate::counts::{begins_at, is_from};
use crate::forms::{boolean_of, first_in, goto_in};
use crate::found::is_found;
use crate::places::part_at;
use import_elaboration::{Count, Part, PartId, Parts};
use import_properties::{Condition, Sequence};

/// Whether a sequence ends with the first tick, of some, at which a boolean is true.
pub(crate) fn waits(sequence: &Sequence) -> bool {
    match sequence {
        Sequence::Delay(_, _, _, last) => match first_in(last) {
            Some((_, more)) => more > 0,
            None => false,
        },
        _ => false,
    }
}

/// Whether a count is from one number to so many more than a second one, and a part is a boolean.
pub(crate) fn is_waited(
    parts: &Parts<'_>,
    bound: Option<u8>,
    count: Count,
    start: u8,
    least: u8,
    more: u8,
    id: PartId,
    condition: Condition,
) -> bool
    ensures count { IsTrue result → IsCount bound count start (least + more) }
    ensures boolean { IsTrue result → IsBoolean parts.now bound id condition }
{
    if !is_from(bound, count, start, least, more) {
        return false;
    }
    is_boolean(parts, bound, id, condition, MOST_DEPTH)
}

/// Whether a part is `first_match(##[m:n] b)`, and a sequence is that.
fn is_first_lead(
    parts: &Parts<'_>,
    bound: Option<u8>,
    only: bool,
    id: PartId,
    sequence: &Sequence,
) -> bool
    ensures { IsTrue result → IsSequence parts.now bound only id (written_form sequence.now) }
{
    let Some(Part::FirstMatch(body)) = part_at(parts, id) else {
        return false;
    };
    let Some(Part::Lead(count, found)) = part_at(parts, body) else {
        return false;
    };
    match sequence {
        Sequence::Lead(least, most, inner) => match first_in(inner) {
            Some((condition, more)) => {
                if *least != *most {
                    return false;
                }
                is_waited(parts, bound, count, *least, *least, more, found, condition)
            }
            None => false,
        },
        _ => false,
    }
}

/// Whether a part is `first_match(b[*m:n])`, and a sequence is that.
fn is_first_repeat(
    parts: &Parts<'_>,
    bound: Option<u8>,
    only: bool,
    id: PartId,
    sequence: &Sequence,
) -> bool
    ensures { IsTrue result → IsSequence parts.now bound only id (written_form sequence.now) }
{
    let Some(Part::FirstMatch(body)) = part_at(parts, id) else {
        return false;
    };
    let Some(Part::Repeat(held, count)) = part_at(parts, body) else {
        return false;
    };
    match sequence {
        Sequence::Repeat(inner, least, most) => match boolean_of(inner) {
            Some(condition) => {
                if *least != *most {
                    return false;
                }
                if *least == 0 {
                    return false;
                }
                if !begins_at(bound, count, *least) {
                    return false;
                }
                is_boolean(parts, bound, held, condition, MOST_DEPTH)
            }
            None => false,
        },
        _ => false,
    }
}

/// Whether a part is `first_match(b[->n])`, and a sequence is that.
fn is_first_goto(
    parts: &Parts<'_>,
    bound: Option<u8>,
    only: bool,
    id: PartId,
    sequence: &Sequence,
) -> bool
    ensures { IsTrue result → IsSequence parts.now bound only id (written_form sequence.now) }
{
    let Some(Part::FirstMatch(body)) = part_at(parts, id) else {
        return false;
    };
    let Some(Part::Goto(value, count)) = part_at(parts, body) else {
        return false;
    };
    match goto_in(sequence) {
        Some(found) => {
            if found.least != found.most {
                return false;
            }
            is_found(parts, bound, value, count, found)
        }
        None => false,
    }
}

/// Whether a part is a first match of one of these forms, and a sequence is that.
pub(crate) fn is_first_form(
    parts: &Parts<'_>,
    bound: Option<u8>,
    only: bool,
    id: PartId,
    sequence: &Sequence,
) -> bool
    ensures { IsTrue result → IsSequence parts.now bound only id (written_form sequence.now) }
{
    if is_first_lead(parts, bound, only, id, sequence) {
        return true;
    }
    if is_first_repeat(parts, bound, only, id, sequence) {
        return true;
    }
    is_first_goto(parts, bound, only, id, sequence)
}
