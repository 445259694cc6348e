//! Parts that are properties.

ghost use Rattle.std.specs.Prelude.{◌≡◌, ◌-◌, IsTrue, IfSome};
ghost use Rattle.assertions.specs.Segments.{one};
ghost use Rattle.import_properties.specs.Properties.{form_of, implied, followed, then_tick, chosen};
ghost use Rattle.import_properties.specs.Properties.{sequence, negated, later, each_later};
ghost use Rattle.import_properties.specs.Properties.{some_later};
ghost use Rattle.import_properties.specs.Shapes.{shape};
ghost use Rattle.import_checks.specs.Properties.{IsProperty, IsRest, IsCase, pair_of, rest_of};

use crate::booleans::{MOST_DEPTH, is_boolean};
use crate::cases::{choice_at, is_one_of};
use crate::counts::{has_count, is_from};
use crate::forms::{boolean_of, delay_in, moved_in};
use crate::lengths::takes_ticks;
use crate::pairs::{Pair, pair_at};
use crate::places::part_at;
use crate::rest::Rest;
use crate::sequences::is_sequence;
use crate::truths::is_truth;
use import_elaboration::{ChoiceId, Count, Part, PartId, Parts, ValueId};
use import_properties::{Condition, Property, Sequence};

/// From this tick on.
const ENDLESS: Count = Count {
    least: 0,
    most: None,
};

/// Whether a part is a property.
#[cycle(properties)]
pub(crate) fn is_property(
    parts: &Parts<'_>,
    bound: Option<u8>,
    id: PartId,
    property: &Property,
    depth: usize,
) -> bool
    ensures { IsTrue result → IsProperty parts.now bound id (form_of property.now) }
{
    if depth == 0 {
        return false;
    }
    if let Some(Part::Strength(body)) = part_at(parts, id) {
        return is_property(parts, bound, body, property, depth - 1);
    }
    if let Some(Part::Case(_, _)) = part_at(parts, id) {
        return is_case(parts, bound, id, property, depth - 1);
    }
    match property {
        Property::Sequence(sequence) => is_sequence(parts, bound, true, id, sequence, MOST_DEPTH),
        Property::Implication(end, body) => is_implied(parts, bound, id, end, body, depth - 1),
        Property::NextImplication(end, body) => {
            is_next_implied(parts, bound, id, end, body, depth - 1)
        }
        Property::FollowedBy(end, body) => is_followed(parts, bound, id, end, body, depth - 1),
        Property::NextFollowedBy(end, body) => {
            is_next_followed(parts, bound, id, end, body, depth - 1)
        }
        Property::If(condition, body) => is_if(parts, bound, id, *condition, body, depth - 1),
        Property::IfElse(condition, body, other) => {
            is_if_else(parts, bound, id, *condition, body, other, depth - 1)
        }
        other => is_joined(parts, bound, id, other, depth - 1),
    }
}

/// The same of two properties that begin together, and of what is asked at other ticks.
#[cycle(properties)]
fn is_joined(
    parts: &Parts<'_>,
    bound: Option<u8>,
    id: PartId,
    property: &Property,
    depth: usize,
) -> bool
    ensures { IsTrue result → IsProperty parts.now bound id (form_of property.now) }
{
    if depth == 0 {
        return false;
    }
    match property {
        Property::And(p, q) => is_pair(parts, bound, id, Pair::And, p, q, depth - 1),
        Property::Or(p, q) => is_pair(parts, bound, id, Pair::Or, p, q, depth - 1),
        Property::Implies(p, q) => is_pair(parts, bound, id, Pair::Implies, p, q, depth - 1),
        Property::Iff(p, q) => is_pair(parts, bound, id, Pair::Iff, p, q, depth - 1),
        Property::Until(p, q) => is_pair(parts, bound, id, Pair::Until, p, q, depth - 1),
        Property::UntilWith(p, q) => is_pair(parts, bound, id, Pair::UntilWith, p, q, depth - 1),
        Property::Not(body) => is_not(parts, bound, id, body, depth - 1),
        Property::Next(count, body) => is_next(parts, bound, id, *count, body, depth - 1),
        Property::Always(least, most, body) => {
            is_always(parts, bound, id, *least, *most, body, depth - 1)
        }
        Property::Eventually(least, most, body) => {
            is_eventually(parts, bound, id, *least, *most, body, depth - 1)
        }
        _ => false,
    }
}

/// Whether a part is `r |-> p`, or is written so.
#[cycle(properties)]
fn is_implied(
    parts: &Parts<'_>,
    bound: Option<u8>,
    id: PartId,
    end: &Sequence,
    body: &Property,
    depth: usize,
) -> bool
    ensures { IsTrue result → IsProperty parts.now bound id
        (implied (shape end.now) (form_of body.now)) }
{
    if depth == 0 {
        return false;
    }
    match part_at(parts, id) {
        Some(Part::Implication(first, second)) => {
            if !is_sequence(parts, bound, false, first, end, MOST_DEPTH) {
                return false;
            }
            is_property(parts, bound, second, body, depth - 1)
        }
        Some(Part::Implies(first, second)) => match boolean_of(end) {
            Some(condition) => {
                if !is_boolean(parts, bound, first, condition, MOST_DEPTH) {
                    return false;
                }
                is_property(parts, bound, second, body, depth - 1)
            }
            None => false,
        },
        Some(Part::Lead(_, _)) => match body {
            Property::Sequence(sequence) => is_delayed(parts, bound, id, end, sequence),
            _ => false,
        },
        _ => false,
    }
}

/// Whether a part is `r |=> p`.
#[cycle(properties)]
fn is_next_implied(
    parts: &Parts<'_>,
    bound: Option<u8>,
    id: PartId,
    end: &Sequence,
    body: &Property,
    depth: usize,
) -> bool
    ensures { IsTrue result → IsProperty parts.now bound id
        (implied (then_tick (shape end.now)) (form_of body.now)) }
{
    if depth == 0 {
        return false;
    }
    let Some(Part::NextImplication(first, second)) = part_at(parts, id) else {
        return false;
    };
    if !is_sequence(parts, bound, false, first, end, MOST_DEPTH) {
        return false;
    }
    is_property(parts, bound, second, body, depth - 1)
}

/// Whether a part is `r #-# p`.
#[cycle(properties)]
fn is_followed(
    parts: &Parts<'_>,
    bound: Option<u8>,
    id: PartId,
    end: &Sequence,
    body: &Property,
    depth: usize,
) -> bool
    ensures { IsTrue result → IsProperty parts.now bound id
        (followed (shape end.now) (form_of body.now)) }
{
    if depth == 0 {
        return false;
    }
    let Some(Part::FollowedBy(first, second)) = part_at(parts, id) else {
        return false;
    };
    if !is_sequence(parts, bound, false, first, end, MOST_DEPTH) {
        return false;
    }
    is_property(parts, bound, second, body, depth - 1)
}

/// Whether a part is `r #=# p`.
#[cycle(properties)]
fn is_next_followed(
    parts: &Parts<'_>,
    bound: Option<u8>,
    id: PartId,
    end: &Sequence,
    body: &Property,
    depth: usize,
) -> bool
    ensures { IsTrue result → IsProperty parts.now bound id
        (followed (then_tick (shape end.now)) (form_of body.now)) }
{
    if depth == 0 {
        return false;
    }
    let Some(Part::NextFollowedBy(first, second)) = part_at(parts, id) else {
        return false;
    };
    if !is_sequence(parts, bound, false, first, end, MOST_DEPTH) {
        return false;
    }
    is_property(parts, bound, second, body, depth - 1)
}

/// Whether a part is `if (b) p`.
#[cycle(properties)]
fn is_if(
    parts: &Parts<'_>,
    bound: Option<u8>,
    id: PartId,
    condition: Condition,
    body: &Property,
    depth: usize,
) -> bool
    ensures { IsTrue result → IsProperty parts.now bound id
        (implied (one condition) (form_of body.now)) }
{
    if depth == 0 {
        return false;
    }
    let Some(Part::If(value, inside)) = part_at(parts, id) else {
        return false;
    };
    if !is_truth(parts, value, condition) {
        return false;
    }
    is_property(parts, bound, inside, body, depth - 1)
}

/// Whether a part is `if (b) p else q`.
#[cycle(properties)]
fn is_if_else(
    parts: &Parts<'_>,
    bound: Option<u8>,
    id: PartId,
    condition: Condition,
    body: &Property,
    other: &Property,
    depth: usize,
) -> bool
    ensures { IsTrue result → IsProperty parts.now bound id
        (chosen condition (form_of body.now) (form_of other.now)) }
{
    if depth == 0 {
        return false;
    }
    let Some(Part::IfElse(value, first, second)) = part_at(parts, id) else {
        return false;
    };
    if !is_truth(parts, value, condition) {
        return false;
    }
    if !is_property(parts, bound, first, body, depth - 1) {
        return false;
    }
    is_property(parts, bound, second, other, depth - 1)
}

/// Whether a part is two properties that are joined so.
#[cycle(properties)]
fn is_pair(
    parts: &Parts<'_>,
    bound: Option<u8>,
    id: PartId,
    pair: Pair,
    first: &Property,
    second: &Property,
    depth: usize,
) -> bool
    ensures { IsTrue result → IsProperty parts.now bound id
        (pair_of pair (form_of first.now) (form_of second.now)) }
{
    if depth == 0 {
        return false;
    }
    let Some((left, right)) = pair_at(parts, id, pair) else {
        return false;
    };
    if !is_property(parts, bound, left, first, depth - 1) {
        return false;
    }
    is_property(parts, bound, right, second, depth - 1)
}

/// Whether a part is `not p`.
#[cycle(properties)]
fn is_not(parts: &Parts<'_>, bound: Option<u8>, id: PartId, body: &Property, depth: usize) -> bool
    ensures { IsTrue result → IsProperty parts.now bound id
        (negated (form_of body.now)) }
{
    if depth == 0 {
        return false;
    }
    let Some(Part::Not(inside)) = part_at(parts, id) else {
        return false;
    };
    is_property(parts, bound, inside, body, depth - 1)
}

/// Whether a part is `nexttime[n] p`.
#[cycle(properties)]
fn is_next(
    parts: &Parts<'_>,
    bound: Option<u8>,
    id: PartId,
    count: u8,
    body: &Property,
    depth: usize,
) -> bool
    ensures { IsTrue result → IsProperty parts.now bound id
        (later count (form_of body.now)) }
{
    if depth == 0 {
        return false;
    }
    let Some(Part::Next(ticks, inside)) = part_at(parts, id) else {
        return false;
    };
    if ticks != u32::from(count) {
        return false;
    }
    is_property(parts, bound, inside, body, depth - 1)
}

/// Whether a part is `always [m:n] p`, or `always p` up to the bound.
#[cycle(properties)]
fn is_always(
    parts: &Parts<'_>,
    bound: Option<u8>,
    id: PartId,
    least: u8,
    most: u8,
    body: &Property,
    depth: usize,
) -> bool
    ensures { IsTrue result → IsProperty parts.now bound id
        (each_later least (most - least) (form_of body.now)) }
{
    if depth == 0 {
        return false;
    }
    let Some(Part::Always(count, inside)) = part_at(parts, id) else {
        return false;
    };
    if !has_count(bound, count.unwrap_or(ENDLESS), least, most) {
        return false;
    }
    is_property(parts, bound, inside, body, depth - 1)
}

/// Whether a part is `s_eventually [m:n] p`, or `s_eventually p` up to the bound.
#[cycle(properties)]
fn is_eventually(
    parts: &Parts<'_>,
    bound: Option<u8>,
    id: PartId,
    least: u8,
    most: u8,
    body: &Property,
    depth: usize,
) -> bool
    ensures { IsTrue result → IsProperty parts.now bound id
        (some_later least (most - least) (form_of body.now)) }
{
    if depth == 0 {
        return false;
    }
    let Some(Part::Eventually(count, inside)) = part_at(parts, id) else {
        return false;
    };
    if !has_count(bound, count.unwrap_or(ENDLESS), least, most) {
        return false;
    }
    is_property(parts, bound, inside, body, depth - 1)
}

/// Whether a part is a `case`, which is `if` and `else` of its items.
#[cycle(properties)]
fn is_case(
    parts: &Parts<'_>,
    bound: Option<u8>,
    id: PartId,
    property: &Property,
    depth: usize,
) -> bool
    ensures { IsTrue result → IsProperty parts.now bound id (form_of property.now) }
{
    if depth == 0 {
        return false;
    }
    let Some(Part::Case(value, last)) = part_at(parts, id) else {
        return false;
    };
    match peeled(parts, bound, value, last, property, depth - 1) {
        Some(rest) => is_rest(parts, bound, last, rest, depth - 1),
        None => false,
    }
}

/// Whether what is left after the items of a case is its default, or nothing.
#[cycle(properties)]
fn is_rest(
    parts: &Parts<'_>,
    bound: Option<u8>,
    last: Option<ChoiceId>,
    rest: Rest<'_>,
    depth: usize,
) -> bool
    ensures { IsTrue result → IsRest parts.now bound last (rest_of rest.entry) }
{
    if depth == 0 {
        return false;
    }
    let Some(id) = last else {
        return matches!(rest, Rest::Nothing);
    };
    let Some(choice) = choice_at(parts, id) else {
        return false;
    };
    if choice.values.is_some() {
        return is_rest(parts, bound, choice.before, rest, depth - 1);
    }
    match rest {
        Rest::Asked(property) => is_property(parts, bound, choice.body, property, depth - 1),
        Rest::Nothing => false,
    }
}

/// What is left of a property after the items of a case up to one, if it begins with these.
#[cycle(properties)]
fn peeled<'p>(
    parts: &Parts<'_>,
    bound: Option<u8>,
    value: ValueId,
    last: Option<ChoiceId>,
    property: &'p Property,
    depth: usize,
) -> Option<Rest<'p>>
    ensures { IfSome result (λ rest.
        IsCase parts.now bound value last (rest_of rest) (form_of property.now)) }
{
    if depth == 0 {
        return None;
    }
    let Some(id) = last else {
        return Some(Rest::Asked(property));
    };
    let choice = choice_at(parts, id)?;
    let left = peeled(parts, bound, value, choice.before, property, depth - 1)?;
    let Some(list) = choice.values else {
        return Some(left);
    };
    let Rest::Asked(here) = left else {
        return None;
    };
    match here {
        Property::If(Condition::Leaf(place), body) => {
            if !is_one_of(parts, ValueId(*place), value, list.first, list.count) {
                return None;
            }
            if !is_property(parts, bound, choice.body, body, depth - 1) {
                return None;
            }
            Some(Rest::Nothing)
        }
        Property::IfElse(Condition::Leaf(place), body, other) => {
            if !is_one_of(parts, ValueId(*place), value, list.first, list.count) {
                return None;
            }
            if !is_property(parts, bound, choice.body, body, depth - 1) {
                return None;
            }
            Some(Rest::Asked(other))
        }
        _ => None,
    }
}

/// Whether a part is a long `##[m:n] s`, which is asked m ticks later.
fn is_delayed(
    parts: &Parts<'_>,
    bound: Option<u8>,
    id: PartId,
    end: &Sequence,
    asked: &Sequence,
) -> bool
    ensures { IsTrue result → IsProperty parts.now bound id
        (implied (shape end.now) (sequence (shape asked.now))) }
{
    let Some(Part::Lead(count, body)) = part_at(parts, id) else {
        return false;
    };
    let Some(least) = delay_in(end) else {
        return false;
    };
    let Some((inner, more)) = moved_in(asked) else {
        return false;
    };
    if !is_from(bound, count, least, least, more) {
        return false;
    }
    if !takes_ticks(inner) {
        return false;
    }
    is_sequence(parts, bound, true, body, inner, MOST_DEPTH)
}
