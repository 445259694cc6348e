//! How many ticks matches take, by the forms of sequences.

ghost use Rattle.std.specs.Prelude.{◌≡◌, ◌≤◌, ◌+◌, ◌-◌, IsTrue, IfSome};
ghost use Rattle.import_properties.specs.Shapes.{written_form};
ghost use Rattle.import_checks.specs.Lengths.{fewest_ticks, most_ticks, delayed_ticks};
ghost use Rattle.import_checks.specs.Lengths.{apart, fused};
ghost use Rattle.import_checks.specs.Sequences.{HasLength, HasOneLength, IsAfter, FitsInside};

use import_properties::Sequence;

/// The fewest ticks of two parts that share a tick.
fn fused(first: usize, second: usize) -> Option<usize>
    ensures { IfSome result (λ n. n ≡ fused first second) }
{
    match first.max(1).checked_add(second.max(1)) {
        Some(both) => Some(both - 1),
        None => None,
    }
}

/// The fewest ticks of two parts of which the second begins so many ticks after the first ends.
fn apart(first: usize, count: u8, second: usize) -> Option<usize>
    ensures { IfSome result (λ n. n ≡ apart first count second) }
{
    match first.checked_add(usize::from(count.max(1))) {
        Some(front) => match front.checked_add(second) {
            Some(all) => Some(all - 1),
            None => None,
        },
        None => None,
    }
}

/// The fewest ticks of a delay.
fn delayed(first: usize, least: u8, most: u8, second: usize) -> Option<usize>
    ensures { IfSome result (λ n. n ≡ delayed_ticks first least most second) }
{
    if least > 0 {
        return apart(first, least, second);
    }
    if most == 0 {
        return fused(first, second);
    }
    match (apart(first, 1, second), fused(first, second)) {
        (Some(one), Some(other)) => Some(one.min(other)),
        _ => None,
    }
}

/// The most ticks of a delay.
fn delayed_most(first: usize, most: u8, second: usize) -> Option<usize>
    ensures { IfSome result (λ n. n ≡ (first + most + second) - 1) }
{
    match first.checked_add(usize::from(most)) {
        Some(front) => match front.checked_add(second) {
            Some(all) => Some(all.saturating_sub(1)),
            None => None,
        },
        None => None,
    }
}

/// The fewest ticks of a match, where that is a number of the machine.
pub(crate) fn fewest_ticks(sequence: &Sequence) -> Option<usize>
    ensures { IfSome result (λ n. n ≡ fewest_ticks (written_form sequence.now)) }
{
    match sequence {
        Sequence::Boolean(_) => Some(1),
        Sequence::Throughout(_, body) => fewest_ticks(body),
        Sequence::Lead(least, _, body) => match fewest_ticks(body) {
            Some(inside) => inside.checked_add(usize::from(*least)),
            None => None,
        },
        Sequence::Repeat(body, least, _) => match fewest_ticks(body) {
            Some(inside) => inside.checked_mul(usize::from(*least)),
            None => None,
        },
        Sequence::Delay(first, least, most, second) => {
            match (fewest_ticks(first), fewest_ticks(second)) {
                (Some(one), Some(other)) => delayed(one, *least, *most, other),
                _ => None,
            }
        }
        Sequence::Or(first, second) => match (fewest_ticks(first), fewest_ticks(second)) {
            (Some(one), Some(other)) => Some(one.min(other)),
            _ => None,
        },
        Sequence::And(first, second) | Sequence::Intersect(first, second) => {
            match (fewest_ticks(first), fewest_ticks(second)) {
                (Some(one), Some(other)) => Some(one.max(other)),
                _ => None,
            }
        }
    }
}

/// The most ticks of a match, where that is a number of the machine.
pub(crate) fn most_ticks(sequence: &Sequence) -> Option<usize>
    ensures { IfSome result (λ n. n ≡ most_ticks (written_form sequence.now)) }
{
    match sequence {
        Sequence::Boolean(_) => Some(1),
        Sequence::Throughout(_, body) => most_ticks(body),
        Sequence::Lead(_, most, body) => match most_ticks(body) {
            Some(inside) => inside.checked_add(usize::from(*most)),
            None => None,
        },
        Sequence::Repeat(body, _, most) => match most_ticks(body) {
            Some(inside) => inside.checked_mul(usize::from(*most)),
            None => None,
        },
        Sequence::Delay(first, _, most, second) => match (most_ticks(first), most_ticks(second)) {
            (Some(one), Some(other)) => delayed_most(one, *most, other),
            _ => None,
        },
        Sequence::Intersect(first, second) => match (most_ticks(first), most_ticks(second)) {
            (Some(one), Some(other)) => Some(one.min(other)),
            _ => None,
        },
        Sequence::And(first, second) | Sequence::Or(first, second) => {
            match (most_ticks(first), most_ticks(second)) {
                (Some(one), Some(other)) => Some(one.max(other)),
                _ => None,
            }
        }
    }
}

/// The one number of ticks that all matches take, if it is one.
pub(crate) fn length_of(sequence: &Sequence) -> Option<usize>
    ensures { IfSome result (HasLength (written_form sequence.now)) }
{
    match (fewest_ticks(sequence), most_ticks(sequence)) {
        (Some(fewest), Some(most)) if fewest == most => Some(most),
        _ => None,
    }
}

/// Whether all matches take one number of ticks, and some.
pub(crate) fn has_one_length(sequence: &Sequence) -> bool
    ensures { IsTrue result → HasOneLength (written_form sequence.now) }
{
    match length_of(sequence) {
        Some(length) => length > 0,
        None => false,
    }
}

/// Whether all matches are empty.
fn is_empty(sequence: &Sequence) -> bool
    ensures { IsTrue result → HasLength (written_form sequence.now) 0 }
{
    match length_of(sequence) {
        Some(length) => length == 0,
        None => false,
    }
}

/// The shortest delay that is written where what follows a sequence begins after so many ticks.
pub(crate) fn start_after(sequence: &Sequence, written: u32, least: u8) -> Option<u8>
    ensures { IfSome result (λ start. IsAfter (written_form sequence.now) start least) }
{
    if has_one_length(sequence) {
        return Some(least);
    }
    if !is_empty(sequence) {
        return None;
    }
    if least == 0 {
        return None;
    }
    if least == 1 && written == 0 {
        return Some(0);
    }
    Some(least)
}

/// Whether each match takes a tick.
pub(crate) fn takes_ticks(sequence: &Sequence) -> bool
    ensures { IsTrue result → 1 ≤ fewest_ticks (written_form sequence.now) }
{
    match fewest_ticks(sequence) {
        Some(fewest) => fewest > 0,
        None => false,
    }
}

/// Whether no match takes more ticks.
pub(crate) fn is_within(sequence: &Sequence, ticks: u8) -> bool
    ensures { IsTrue result → most_ticks (written_form sequence.now) ≤ ticks }
{
    match most_ticks(sequence) {
        Some(most) => most <= usize::from(ticks),
        None => false,
    }
}

/// Whether each match of the first lies so many ticks or fewer after the start of one of the
/// second, by their lengths.
pub(crate) fn fits(inner: &Sequence, more: u8, outer: &Sequence) -> bool
    ensures { IsTrue result → FitsInside (written_form inner.now) more (written_form outer.now) }
{
    match (length_of(inner), length_of(outer)) {
        (Some(short), Some(long)) => {
            if short == 0 || long < usize::from(more) {
                return false;
            }
            long - usize::from(more) == short
        }
        _ => false,
    }
}
