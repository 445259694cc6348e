//! Sequences that stand for others, found by their forms.

ghost use Rattle.std.specs.Prelude.{◌≡◌, IsTrue, IfSome};
ghost use Rattle.assertions.specs.Written.{boolean, delay, lead, repeat};
ghost use Rattle.import_properties.specs.declared.condition.Condition.TheVariants.{One};
ghost use Rattle.import_properties.specs.Derived.{goto_form, nonconsecutive_form};
ghost use Rattle.import_properties.specs.Shapes.{written_form};
ghost use Rattle.import_checks.specs.Sequences.{first_of, anywhere};

use import_properties::{Condition, Sequence};

/// The boolean that a sequence is, if it is one.
pub(crate) fn boolean_of(sequence: &Sequence) -> Option<Condition>
    ensures { IfSome result (λ b. written_form sequence.now ≡ boolean b) }
{
    match sequence {
        Sequence::Boolean(condition) => Some(*condition),
        _ => None,
    }
}

/// The parts of `body[*0:most]` of a boolean.
fn held_in(sequence: &Sequence) -> Option<(Condition, u8)>
    ensures { IfSome result (λ r. written_form sequence.now ≡ repeat (boolean r.0) 0 r.1) }
{
    match sequence {
        Sequence::Repeat(body, 0, most) => match boolean_of(body) {
            Some(condition) => Some((condition, *most)),
            None => None,
        },
        _ => None,
    }
}

/// The parts of `first ##1 second`.
fn chained(sequence: &Sequence) -> Option<(&Sequence, &Sequence)>
    ensures { IfSome result (λ r. written_form sequence.now
        ≡ delay (written_form r.0.now) 1 1 (written_form r.1.now)) }
{
    match sequence {
        Sequence::Delay(first, 1, 1, second) => Some((first, second)),
        _ => None,
    }
}

/// The boolean and the number of `!b[*0:more] ##1 b`.
pub(crate) fn first_in(sequence: &Sequence) -> Option<(Condition, u8)>
    ensures { IfSome result (λ r. written_form sequence.now ≡ first_of r.0 r.1) }
{
    let (waited, found) = chained(sequence)?;
    let (broken, more) = held_in(waited)?;
    let condition = boolean_of(found)?;
    if broken != condition.negation() {
        return None;
    }
    Some((condition, more))
}

/// What `b[->least:most]` is written of.
#[derive(Clone, Copy)]
pub(crate) struct Found {
    pub condition: Condition,
    pub least: u8,
    pub most: u8,
    pub gap: u8,
}

/// What a sequence that is `b[->least:most]` is written of.
pub(crate) fn goto_in(sequence: &Sequence) -> Option<Found>
    ensures { IfSome result (λ f.
        written_form sequence.now ≡ goto_form f.condition f.least f.most f.gap) }
{
    match sequence {
        Sequence::Repeat(once, least, most) => match first_in(once) {
            Some((condition, gap)) => Some(Found {
                condition,
                least: *least,
                most: *most,
                gap,
            }),
            None => None,
        },
        _ => None,
    }
}

/// What a sequence that is `b[=least:most]` is written of.
pub(crate) fn nonconsecutive_in(sequence: &Sequence) -> Option<Found>
    ensures { IfSome result (λ f.
        written_form sequence.now ≡ nonconsecutive_form f.condition f.least f.most f.gap) }
{
    let (goto, after) = chained(sequence)?;
    let found = goto_in(goto)?;
    let (broken, gap) = held_in(after)?;
    if broken != found.condition.negation() {
        return None;
    }
    if gap != found.gap {
        return None;
    }
    Some(found)
}

/// What stands anywhere in so many ticks: `1[*0:most] ##1 body ##1 1[*0:most]`.
pub(crate) fn anywhere_in(sequence: &Sequence) -> Option<(&Sequence, u8)>
    ensures { IfSome result (λ r.
        written_form sequence.now ≡ anywhere (written_form r.0.now) r.1) }
{
    let (before, around) = chained(sequence)?;
    let (body, after) = chained(around)?;
    let (one, most) = held_in(before)?;
    let (other, more) = held_in(after)?;
    if one != Condition::One {
        return None;
    }
    if other != Condition::One {
        return None;
    }
    if most != more {
        return None;
    }
    Some((body, most))
}

/// What begins at one of so many ticks: `##[0:more] body`.
pub(crate) fn moved_in(sequence: &Sequence) -> Option<(&Sequence, u8)>
    ensures { IfSome result (λ r.
        written_form sequence.now ≡ lead 0 r.1 (written_form r.0.now)) }
{
    match sequence {
        Sequence::Lead(0, more, body) => Some((body, *more)),
        _ => None,
    }
}

/// The number of ticks of `##n 1`.
pub(crate) fn delay_in(sequence: &Sequence) -> Option<u8>
    ensures { IfSome result (λ n. written_form sequence.now ≡ lead n n (boolean One)) }
{
    match sequence {
        Sequence::Lead(least, most, body) if *least == *most => match boolean_of(body) {
            Some(Condition::One) => Some(*least),
            _ => None,
        },
        _ => None,
    }
}
